//! Which appointment governs a share, asked for one share and for one appointment, as no request
//! does, and over linked blocks.
ghost use Rattle.std.specs.Prelude.{◌≡◌, ◌==◌, [], suc, count_by};
ghost use Rattle.desk_words.specs.Names.{same_name};
ghost use Rattle.desk_words.specs.Office.{are_numbered_after};
ghost use Rattle.desk_words.specs.declared.records.Appointment.{Appointment};
ghost use Rattle.proxy_rules.specs.Holdings.{are_tags};

use crate::fixtures::{Lists, moment, party, register};
use desk_words::{Appointment, Ending, HolderKind, Instructions, Listing, Party, Range, Register};
use proxy_rules::{Cutoffs, Holding, governed, governing};
use share_blocks::LinkedBlocks;
use std::alloc::Global;
use std::test::Fail;

const IN_TIME: &str = "2026-06-16T10:00:00";

const LATE: &str = "2026-06-16T10:00:01";

const OPENING: &str = "2026-06-18T10:00:00";

pub(crate) fn cutoffs() -> Result<Cutoffs, Fail> {
    Ok(Cutoffs {
        appointments: moment(IN_TIME)?,
        endings: moment(OPENING)?,
    })
}

/// An appointment of the proxy by M1, of that number and over these places.
pub(crate) fn appointment(
    number: u64,
    proxy: &str,
    from: u64,
    to: u64,
    at: &str,
) -> Result<Appointment, Fail> {
    Ok(Appointment {
        member: party("M1")?,
        number,
        proxy: party(proxy)?,
        range: Range::new(from, to).ok_or("a range")?,
        instructions: Instructions::new(&[]).ok_or("instructions")?,
        moment: moment(at)?,
    })
}

/// Number 1 over all shares, 2 over 41 to 60, 3 over 55 to 200, and 4, which is late.
const GIVEN: &[(u64, u64, u64, &str)] = &[
    (1, 1, 200, IN_TIME),
    (2, 41, 60, IN_TIME),
    (3, 55, 200, IN_TIME),
    (4, 10, 20, LATE),
];

pub(crate) fn ending(number: u64, at: &str) -> Result<Ending, Fail> {
    Ok(Ending {
        member: party("M1")?,
        number,
        moment: moment(at)?,
    })
}

/// Appointments of P. Number 2 is ended before the opening, and number 3 at it, which is too late.
fn fill(lists: &mut Lists) -> Result<(), Fail> {
    for &(number, from, to, at) in GIVEN {
        lists
            .appointments
            .push(appointment(number, "P", from, to, at)?)?;
    }
    lists.endings.push(ending(2, "2026-06-18T09:59:59")?)?;
    lists.endings.push(ending(3, OPENING)?)?;
    Ok(())
}

/// The number of the appointment that governs a share, or 0.
fn number_in(lists: &Lists, register: &Register, member: &str, place: u64) -> Result<u64, Fail> {
    let papers = lists.papers(register.rows());
    Ok(governing(&cutoffs()?, &papers, party(member)?, place).unwrap_or(0))
}

fn number_of(alloc: Global, lists: &mut Lists, member: &str, place: u64) -> Result<u64, Fail> {
    fill(lists)?;
    let register = register(
        alloc,
        &[
            ("M1", HolderKind::Individual, 100),
            ("M2", HolderKind::Individual, 50),
        ],
    )?;
    number_in(lists, &register, member, place)
}

/// The same where M1 holds 100 shares.
fn number_for(alloc: Global, member: &str, place: u64) -> Result<u64, Fail> {
    let mut lists = Lists::new(alloc);
    number_of(alloc, &mut lists, member, place)
}

/// A member, a share of it, and the number of the appointment that governs it, or 0.
const GOVERNING: &[(&str, u64, u64)] = &[
    ("M1", 0, 0),
    ("M1", 1, 1),
    ("M1", 15, 1),
    ("M1", 40, 1),
    ("M1", 41, 0),
    ("M1", 54, 0),
    ("M1", 55, 3),
    ("M1", 100, 3),
    ("M1", 101, 0),
    ("M2", 1, 0),
    ("Z", 1, 0),
];

#[test]
fn the_last_appointment_governs(rt: HostRuntime) -> Result<(), Fail> {
    for &(member, place, number) in GOVERNING {
        let found = number_for(rt.alloc(), member, place)?;
        assert!(rt; found == number, "{place} of {member}: {found}");
    }
    Ok(())
}

pub(crate) fn all_tags(appointments: &[Appointment]) -> bool
    ensures { result ≡ are_tags appointments.now }
{
    appointments.iter().all(|appointment| 1 <= appointment.number && appointment.number <= 256)
}

/// How many of the appointments the member gave.
fn count_by(earlier: &[Appointment], member: Party) -> usize
    ensures { result ≡ count_by (λ (a : Appointment). same_name a.member member) earlier.now }
{
    earlier
        .iter()
        .filter(|appointment| appointment.member.is(member))
        .count()
}

/// Whether the appointment has the next number of its member.
fn is_next(earlier: &[Appointment], appointment: &Appointment) -> bool
    ensures { result
        ≡
        (appointment.now.number
        == suc
        (count_by (λ (a : Appointment). same_name a.member appointment.now.member)
        earlier.now)) }
{
    appointment.number > 0 && appointment.number - 1 == count_by(earlier, appointment.member) as u64
}

pub(crate) fn all_numbered(given: &[Appointment]) -> bool
    ensures { result ≡ are_numbered_after [] given.now }
{
    for index in 0..given.len() {
        if !is_next(&given[..index], &given[index]) {
            return false;
        }
    }
    true
}

/// The runs of shares that an appointment of M1 governs.
fn runs_in(
    alloc: Global,
    lists: &Lists,
    register: &Register,
    number: u64,
) -> Result<Vec<Range>, Fail> {
    let given = lists.appointments.as_slice();
    if !all_tags(given) || !all_numbered(given) {
        return Err("numbers that no member's appointments have".into());
    }
    let papers = lists.papers(register.rows());
    Ok(governed(alloc, &cutoffs()?, &papers, party("M1")?, number)?)
}

fn runs_of(alloc: Global, lists: &mut Lists, number: u64) -> Result<Vec<Range>, Fail> {
    fill(lists)?;
    let register = register(alloc, &[("M1", HolderKind::Individual, 100)])?;
    runs_in(alloc, lists, &register, number)
}

/// The same where M1 holds 100 shares.
fn runs(alloc: Global, number: u64) -> Result<Vec<Range>, Fail> {
    let mut lists = Lists::new(alloc);
    runs_of(alloc, &mut lists, number)
}

fn is_one_run(runs: &[Range], from: u64, to: u64) -> bool {
    match runs {
        [run] => run.from() == from && run.to() == to,
        _ => false,
    }
}

fn has_one_run(alloc: Global, number: u64, from: u64, to: u64) -> Result<bool, Fail> {
    Ok(is_one_run(&runs(alloc, number)?, from, to))
}

fn has_no_run(alloc: Global, number: u64) -> Result<bool, Fail> {
    Ok(runs(alloc, number)?.is_empty())
}

#[test]
fn runs_end_with_the_holding(rt: HostRuntime) -> Result<(), Fail> {
    assert!(rt; has_one_run(rt.alloc(), 1, 1, 40)?);
    assert!(rt; has_one_run(rt.alloc(), 3, 55, 100)?);
    assert!(rt; has_no_run(rt.alloc(), 2)? && has_no_run(rt.alloc(), 4)?);
    Ok(())
}

/// The last place of each piece of a holding, with the number of what governs it, or 0, one piece
/// after another.
fn ends(alloc: Global, holding: &Holding) -> Result<Vec<u64>, Fail> {
    if !holding.is_valid(alloc)? {
        return Err("no holding of an office".into());
    }
    let pieces = holding.pieces_by::<LinkedBlocks>(alloc, &cutoffs()?)?;
    let mut ends = Vec::new(alloc);
    for piece in &pieces {
        ends.push(piece.range.to())?;
        ends.push(holding.appointment(piece).map_or(0, |by| by.number))?;
    }
    Ok(ends)
}

fn two_appointments(alloc: Global) -> Result<Vec<Appointment>, Fail> {
    let first = appointment(1, "P", 1, 100, "2026-06-02T09:00:00")?;
    let second = appointment(2, "Q", 41, 60, "2026-06-03T09:00:00")?;
    Ok(vec![in alloc; first, second]?)
}

fn one_ending(alloc: Global) -> Result<Vec<Ending>, Fail> {
    let ending = ending(2, "2026-06-04T09:00:00")?;
    Ok(vec![in alloc; ending]?)
}

/// A hundred shares, all of which M1 appointed for; 41 to 60 again, and this appointment is ended.
fn replaced(alloc: Global) -> Result<Holding, Fail> {
    let ended = one_ending(alloc)?;
    let appointed = two_appointments(alloc)?;
    Ok(Holding {
        shares: 100,
        appointed: Listing::from_vec(appointed),
        ended: Listing::from_vec(ended),
    })
}

fn unappointed(alloc: Global, shares: u64) -> Holding {
    Holding {
        shares,
        appointed: Listing::new(alloc),
        ended: Listing::new(alloc),
    }
}

fn has_ends(alloc: Global, holding: &Holding, wanted: &[u64]) -> Result<bool, Fail> {
    Ok(ends(alloc, holding)?.as_slice() == wanted)
}

fn is_parted(alloc: Global) -> Result<bool, Fail> {
    let replaced = replaced(alloc)?;
    has_ends(alloc, &replaced, &[40, 1, 60, 0, 100, 1])
}

/// Whether a holding with no appointment is one piece.
fn is_one_piece(alloc: Global, shares: u64) -> Result<bool, Fail> {
    let unappointed = unappointed(alloc, shares);
    has_ends(alloc, &unappointed, &[shares, 0])
}

#[test]
fn what_governs_over_linked_blocks(rt: HostRuntime) -> Result<(), Fail> {
    assert!(rt; is_parted(rt.alloc())?);
    for shares in [50, 999_995, 1_000_000_000_000] {
        assert!(rt; is_one_piece(rt.alloc(), shares)?, "{shares}");
    }
    Ok(())
}
