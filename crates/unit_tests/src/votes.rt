//! The count of so many votes on one holding that they are kept as linked blocks: more than 1,024.
use crate::fixtures::{Lists, party, register};
use crate::proxies::{all_numbered, all_tags, appointment, cutoffs, ending};
use desk_words::{
    Authority, Block, Capacity, CastKind, CastMark, HolderKind, Moment, Range, Register, Tally, Way,
};
use std::alloc::Global;
use std::test::Fail;
use vote_rules::tally;

const MANY: u64 = 1_024;

/// A vote on some of the member's shares.
fn vote(
    voter: &str,
    capacity: Capacity,
    member: &str,
    range: (u64, u64),
    way: Way,
) -> Result<CastMark, Fail> {
    let block = Block {
        capacity,
        member: party(member)?,
        range: Range::new(range.0, range.1).ok_or("a range")?,
        way,
    };
    Ok(CastMark {
        resolution: 1,
        voter: party(voter)?,
        what: CastKind::Block(block),
        moment: Moment::first(),
    })
}

/// Casts the first of the votes many times, and then each other once.
fn cast(lists: &mut Lists, first: &CastMark, others: &[CastMark]) -> Result<(), Fail> {
    for _ in 0..MANY {
        lists.casts.push(*first)?;
    }
    for other in others {
        lists.casts.push(*other)?;
    }
    Ok(())
}

/// What is counted of the votes of a meeting with this register.
fn counted_of(alloc: Global, register: &Register, lists: &Lists) -> Result<Tally, Fail> {
    let given = lists.appointments.as_slice();
    if !all_tags(given) || !all_numbered(given) {
        return Err("numbers that no member's appointments have".into());
    }
    Ok(tally(alloc, &cutoffs()?, &lists.papers(register.rows()), 1)?)
}

/// What is counted of the votes on one holding.
fn counted(alloc: Global, holding: (&str, HolderKind, u64), lists: &Lists) -> Result<Tally, Fail> {
    let register = register(alloc, &[holding])?;
    counted_of(alloc, &register, lists)
}

fn in_all(votes_for: u64, votes_against: u64, eligible: u64) -> Tally {
    Tally {
        votes_for,
        votes_against,
        withheld: 0,
        eligible,
    }
}

/// M1 appointed P for 1 to 100 and Q for 41 to 60, and ended what names Q.
fn appoint(lists: &mut Lists) -> Result<(), Fail> {
    let first = appointment(1, "P", 1, 100, "2026-06-02T09:00:00")?;
    lists.appointments.push(first)?;
    let second = appointment(2, "Q", 41, 60, "2026-06-03T09:00:00")?;
    lists.appointments.push(second)?;
    lists.endings.push(ending(2, "2026-06-04T09:00:00")?)?;
    Ok(())
}

/// Votes of P, and one of M1 on shares that P voted on too.
fn cast_by_proxy(lists: &mut Lists) -> Result<(), Fail> {
    let low = vote("P", Capacity::Proxy, "M1", (1, 40), Way::For)?;
    let high = vote("P", Capacity::Proxy, "M1", (61, 100), Way::For)?;
    let own = vote("M1", Capacity::Member, "M1", (1, 10), Way::Against)?;
    cast(lists, &low, &[high, own])
}

fn count_appointed(alloc: Global, lists: &mut Lists) -> Result<Tally, Fail> {
    appoint(lists)?;
    cast_by_proxy(lists)?;
    counted(alloc, ("M1", HolderKind::Individual, 100), lists)
}

fn with_proxy(alloc: Global) -> Result<Tally, Fail> {
    let mut lists = Lists::new(alloc);
    count_appointed(alloc, &mut lists)
}

#[test]
fn a_proxy_and_its_member(rt: HostRuntime) -> Result<(), Fail> {
    assert!(rt; with_proxy(rt.alloc())? == in_all(70, 10, 100));
    Ok(())
}

/// C, a corporation, authorised R and S.
fn authorise(lists: &mut Lists) -> Result<(), Fail> {
    for person in ["R", "S"] {
        lists.authorities.push(Authority {
            corporation: party("C")?,
            person: party(person)?,
            moment: Moment::first(),
        })?;
    }
    Ok(())
}

/// A vote of R for on all shares, one of S against on 41 to 50, and another of S this way.
fn cast_by_representatives(lists: &mut Lists, last: Way) -> Result<(), Fail> {
    let all = vote("R", Capacity::Rep, "C", (1, 50), Way::For)?;
    let against = vote("S", Capacity::Rep, "C", (41, 50), Way::Against)?;
    let later = vote("S", Capacity::Rep, "C", (41, 50), last)?;
    cast(lists, &all, &[against, later])
}

fn count_authorised(alloc: Global, lists: &mut Lists, last: Way) -> Result<Tally, Fail> {
    authorise(lists)?;
    cast_by_representatives(lists, last)?;
    counted(alloc, ("C", HolderKind::Corporation, 50), lists)
}

/// What is counted of these votes.
fn with_representatives(alloc: Global, last: Way) -> Result<Tally, Fail> {
    let mut lists = Lists::new(alloc);
    count_authorised(alloc, &mut lists, last)
}

#[test]
fn representatives_who_differ_or_agree(rt: HostRuntime) -> Result<(), Fail> {
    assert!(rt; with_representatives(rt.alloc(), Way::Against)? == in_all(40, 0, 50));
    assert!(rt; with_representatives(rt.alloc(), Way::For)? == in_all(50, 0, 50));
    Ok(())
}

const ALL: u64 = 1_000_000_000_000;

fn count_all(alloc: Global, lists: &mut Lists) -> Result<Tally, Fail> {
    let all_but_one = vote("M1", Capacity::Member, "M1", (1, ALL - 1), Way::For)?;
    let last = vote("M1", Capacity::Member, "M1", (ALL, ALL), Way::Against)?;
    cast(lists, &all_but_one, &[last])?;
    counted(alloc, ("M1", HolderKind::Individual, ALL), lists)
}

fn with_all(alloc: Global) -> Result<Tally, Fail> {
    let mut lists = Lists::new(alloc);
    count_all(alloc, &mut lists)
}

#[test]
fn as_many_shares_as_there_may_be(rt: HostRuntime) -> Result<(), Fail> {
    assert!(rt; with_all(rt.alloc())? == in_all(ALL - 1, 1, ALL));
    Ok(())
}
