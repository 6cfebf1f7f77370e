//! The quorum of a session of a meeting.
ghost use Rattle.std.specs.Prelude.{◌≡◌, [], true, IfOk, filter, length, map, take};
ghost use Rattle.poll_rules.specs.Roles.{roles_of};
ghost use Rattle.std.specs.List.{list_any};
ghost use Rattle.seq.specs.Ordered.{differ_by};
ghost use Rattle.desk_words.specs.Office.{are_numbered_after, same_presence, are_rows};
ghost use Rattle.desk_words.specs.declared.records.PresenceMark.{PresenceMark};
ghost use Rattle.proxy_rules.specs.Holdings.{are_tags};
ghost use Rattle.poll_rules.specs.Pairs.{first_qualifying, is_second, two_with_the_first};
ghost use Rattle.poll_rules.specs.GatheredItems.{items_at};
ghost use Rattle.poll_rules.specs.Quorum.{are_as_one, are_two, is_counted, is_quorum, present_in, qualifies, quorum_of};

use crate::gathered::items_of;
use crate::roles::{Role, roles_by_person};
use desk_words::{HolderKind, Party, PresenceMark, RegisterRow};
use proxy_rules::{Cutoffs, Papers};
use std::alloc::{AllocError, Global};
use std::collections::BTreeMap;

/// How many of those who are present are asked first.
const FIRST: usize = 8;

/// Whether the row is counted. A treasury row is not (section 726).
fn is_counted(row: &RegisterRow) -> bool
    ensures { result ≡ is_counted row.now }
{
    match row.kind {
        HolderKind::Individual | HolderKind::Corporation => true,
        HolderKind::Treasury => false,
    }
}

/// How many rows are counted.
fn counted_rows(register: &[RegisterRow]) -> usize
    ensures { result ≡ length (filter is_counted register.now) }
{
    register.iter().filter(|row| is_counted(row)).count()
}

/// Whether a person with these roles is a qualifying person.
fn qualifies(roles: &[Role]) -> bool
    ensures { result ≡ qualifies roles.now }
{
    !roles.is_empty()
}

/// Whether two persons with these roles act for one corporation alone, or are proxies of one member
/// alone.
fn are_as_one(one: &[Role], other: &[Role]) -> bool
    ensures { result ≡ are_as_one one.now other.now }
{
    match (one, other) {
        ([role], [only]) => role.is(*only),
        _ => false,
    }
}

/// Whether two persons with these roles are two qualifying persons.
fn are_two(one: &[Role], other: &[Role]) -> bool
    ensures { result ≡ are_two one.now other.now }
{
    qualifies(one) && qualifies(other) && !are_as_one(one, other)
}

/// The marks of those who are present in the session.
fn present_in(
    alloc: Global,
    presences: &[PresenceMark],
    session: u64,
) -> Result<Vec<PresenceMark>, AllocError>
    ensures { IfOk result (λ present. present.items ≡ present_in session presences.now) }
{
    presences
        .iter()
        .copied()
        .filter(|mark| mark.session == session)
        .collect(alloc)
}

/// Who is marked.
fn parties_of(alloc: Global, marks: &[PresenceMark]) -> Result<Vec<Party>, AllocError>
    ensures { IfOk result
        (λ persons. persons.items ≡ map (λ (mark : PresenceMark). mark.party) marks.now) }
{
    marks.iter().map(|mark| mark.party).collect(alloc)
}

/// Whether someone who is present qualifies.
fn someone_qualifies(presences: &[PresenceMark], roles: &BTreeMap<Party, Vec<Role>>) -> bool
    ensures { result
        ≡ list_any (λ (mark : PresenceMark). qualifies (items_at roles.now mark.party))
        presences.now }
{
    presences
        .iter()
        .any(|mark| qualifies(items_of(roles, mark.party)))
}

/// The first who is present and qualifies.
fn first_qualifying(
    presences: &[PresenceMark],
    roles: &BTreeMap<Party, Vec<Role>>,
) -> Option<PresenceMark>
    ensures { result ≡ first_qualifying (items_at roles.now) presences.now }
{
    presences
        .iter()
        .copied()
        .find(|mark| qualifies(items_of(roles, mark.party)))
}

/// Whether the person marked is another than the first, and the two are two qualifying persons.
fn is_second(roles: &BTreeMap<Party, Vec<Role>>, first: Party, mark: &PresenceMark) -> bool
    ensures { result ≡ is_second (items_at roles.now) first mark.now }
{
    !first.is(mark.party) && are_two(items_of(roles, first), items_of(roles, mark.party))
}

/// Whether some such person is present.
fn any_second(presences: &[PresenceMark], roles: &BTreeMap<Party, Vec<Role>>, first: Party) -> bool
    ensures { result ≡ list_any (is_second (items_at roles.now) first) presences.now }
{
    presences.iter().any(|mark| is_second(roles, first, mark))
}

/// Whether two who are present are two qualifying persons. If any two are, then so are the first
/// who qualifies and some other: those who act for one corporation or one member alone with that
/// first one do so with one another.
fn two_qualify(presences: &[PresenceMark], roles: &BTreeMap<Party, Vec<Role>>) -> bool
    ensures { result ≡ two_with_the_first (items_at roles.now) presences.now }
{
    match first_qualifying(presences, roles) {
        Some(first) => any_second(presences, roles, first.party),
        None => false,
    }
}

/// Whether those who are present make a quorum, in these roles.
fn make_quorum(
    register: &[RegisterRow],
    presences: &[PresenceMark],
    roles: &BTreeMap<Party, Vec<Role>>,
) -> bool
    ensures { result
        ≡ is_quorum (filter is_counted register.now) (items_at roles.now)
        (map (λ (mark : PresenceMark). mark.party) presences.now) }
{
    let rows = counted_rows(register);
    if rows == 0 {
        false
    } else if rows == 1 {
        someone_qualifies(presences, roles)
    } else {
        two_qualify(presences, roles)
    }
}

/// The first of those who are present.
fn first_of(present: &[PresenceMark]) -> &[PresenceMark]
    ensures { result.now ≡ take FIRST present.now }
{
    &present[..present.len().min(FIRST)]
}

/// Whether these, of those who are present, make a quorum.
fn quorum_among(
    alloc: Global,
    cutoffs: &Cutoffs,
    papers: &Papers,
    present: &[PresenceMark],
) -> Result<bool, AllocError>
    requires rows { are_rows papers.now.register.now ≡ true }
    requires tags { are_tags papers.now.appointments.now ≡ true }
    requires numbered { are_numbered_after [] papers.now.appointments.now ≡ true }
    ensures { IfOk result
        (λ make_one. make_one
        ≡ is_quorum (filter is_counted papers.now.register.now)
        (roles_of cutoffs.now papers.now.register.now papers.now.appointments.now
        papers.now.endings.now papers.now.authorities.now)
        (map (λ (mark : PresenceMark). mark.party) present.now)) }
{
    let persons = parties_of(alloc, present)?;
    let roles = roles_by_person(alloc, cutoffs, papers, persons.as_slice())?;
    Ok(make_quorum(papers.register, present, &roles))
}

/// Whether those who are present in the session of that number make a quorum (section 318).
///
/// A person who is present then qualifies as an individual member, as a representative of a corporation
/// of the register (section 323), or as a proxy who governs at least one share of a member by these
/// cutoffs (section 324). Where one row alone is no treasury row, one such person makes the quorum;
/// where there are more, two different ones do, but not two who both act for one corporation alone
/// or both for one member as proxies alone. With no such row there is no quorum. The error is want
/// of memory.
///
/// The first few who are present are asked before the others, since they mostly make a quorum, which
/// nobody more unmakes. It looks up what those members gave for whom someone who is asked may act.
pub fn quorum(
    alloc: Global,
    cutoffs: &Cutoffs,
    papers: &Papers,
    session: u64,
) -> Result<bool, AllocError>
    requires rows { are_rows papers.now.register.now ≡ true }
    requires tags { are_tags papers.now.appointments.now ≡ true }
    requires numbered { are_numbered_after [] papers.now.appointments.now ≡ true }
    requires present_once { differ_by same_presence papers.now.presences.now ≡ true }
    ensures { IfOk result
        (λ is_quorum. is_quorum
        ≡ quorum_of cutoffs.now papers.now.register.now papers.now.appointments.now
        papers.now.endings.now papers.now.authorities.now papers.now.presences.now session) }
{
    let present = present_in(alloc, papers.presences.as_slice(), session)?;
    let first = first_of(present.as_slice());
    let make_one = quorum_among(alloc, cutoffs, papers, first)?;
    if make_one {
        return Ok(true);
    }
    quorum_among(alloc, cutoffs, papers, present.as_slice())
}
