//! Which appointment of a proxy governs a share.
ghost use Rattle.std.specs.Prelude.{◌≡◌, ◌&&◌, filter, find, reverse};
ghost use Rattle.std.specs.List.{list_any};
ghost use Rattle.std.specs.Option.{option_copied};
ghost use Rattle.proxy_rules.specs.Governing.{ends, governing_number, is_over};
ghost use Rattle.proxy_rules.specs.Holdings.{holding_of, is_ended_of, is_given_by};
ghost use Rattle.proxy_rules.specs.Shares.{is_share, row_of, shares_by};

use crate::claims::Claim;
use crate::meeting_records::{Cutoffs, Papers};
use crate::register_rows::shares;
use desk_words::{Appointment, Ending, Party, RegisterRow};

/// The last of the appointments that is the member's and over the place.
fn last_own_over<'a>(
    appointments: &'a [Appointment],
    member: Party,
    cutoffs: &Cutoffs,
    place: u64,
) -> Option<&'a Appointment>
    ensures { option_copied result
        ≡ find (λ a. is_given_by member a && is_over cutoffs.now place a)
        (reverse appointments.now) }
{
    appointments.iter().rev().find(|appointment| appointment.member.is(member)
        && Claim::of(appointment).is_over(cutoffs, place))
}

/// The last of the member's appointments that is over the place.
#[tactic(auto, using(crate::proofs::ProxyListLemmas::last_filtered))]
fn last_over<'a>(
    appointments: &'a [Appointment],
    member: Party,
    cutoffs: &Cutoffs,
    place: u64,
) -> Option<&'a Appointment>
    ensures { option_copied result
        ≡ find (is_over cutoffs.now place)
        (reverse (filter (is_given_by member) appointments.now)) }
{
    last_own_over(appointments, member, cutoffs, place)
}

/// Whether an ending names the appointment of that number, in time to count.
pub(crate) fn ends(ending: &Ending, cutoffs: &Cutoffs, number: u64) -> bool
    ensures { result ≡ ends cutoffs.now number ending.now }
{
    ending.number == number && ending.moment < cutoffs.endings
}

/// Whether a counted ending of the member's names the number.
fn is_ended(endings: &[Ending], member: Party, cutoffs: &Cutoffs, number: u64) -> bool
    ensures { result
        ≡ list_any (ends cutoffs.now number) (filter (is_ended_of member) endings.now) }
{
    endings
        .iter()
        .filter(|ending| ending.member.is(member))
        .any(|ending| ends(ending, cutoffs, number))
}

/// The member's row.
fn row_of(register: &[RegisterRow], member: Party) -> Option<&RegisterRow>
    ensures { option_copied result ≡ row_of register.now member }
{
    register.iter().find(|row| row.member.is(member))
}

/// How many shares a member has. Treasury shares are none.
pub(crate) fn shares_by(register: &[RegisterRow], member: Party) -> u64
    ensures { result ≡ shares_by register.now member }
{
    match row_of(register, member) {
        Some(row) => shares(row),
        None => 0,
    }
}

/// Whether the member has a share of that place.
fn is_share(register: &[RegisterRow], member: Party, place: u64) -> bool
    ensures { result ≡ is_share (shares_by register.now member) place }
{
    1 <= place && place <= shares_by(register, member)
}

/// The number of the member's appointment of a proxy that governs a share, which is named by its
/// place in the member's holding, or none where no appointment does (sections 324 and 330).
///
/// An appointment counts that was received at or before `cutoffs.appointments`, and an ending that
/// was received before `cutoffs.endings`. The last received of the counted appointments that hold
/// the place governs the share, unless a counted ending names it: then none does, since what it
/// replaced is not revived. What is no place of the holding is governed by none, and treasury
/// shares are no shares here. It goes over all appointments and endings, and takes no memory. No
/// request asks it: a count takes the pieces of a holding, and a reply the runs of an appointment.
pub fn governing(cutoffs: &Cutoffs, papers: &Papers, member: Party, place: u64) -> Option<u64>
    ensures { result
        ≡ governing_number cutoffs.now
        (holding_of papers.now.register.now papers.now.appointments.now papers.now.endings.now
        member)
        place }
{
    if !is_share(papers.register, member, place) {
        return None;
    }
    let last = last_over(papers.appointments.as_slice(), member, cutoffs, place)?;
    if is_ended(papers.endings.as_slice(), member, cutoffs, last.number) {
        None
    } else {
        Some(last.number)
    }
}
