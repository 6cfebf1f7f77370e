//! Majorities of any counts, and what a demand amounts to.
use crate::fixtures::{Lists, moment, party, register};
use crate::proxies::{all_numbered, all_tags};
use desk_words::{DemandMark, HolderKind, Register, ResKind};
use poll_rules::{Cutoffs, Demand, carried, demand_reached};
use std::alloc::Global;
use std::test::Fail;

const MOST: u64 = u64::MAX;

/// A kind of resolution, votes for and against it, and whether it is carried.
const COUNTS: &[(ResKind, u64, u64, bool)] = &[
    (ResKind::Ordinary, MOST, MOST - 1, true),
    (ResKind::Ordinary, MOST, MOST, false),
    (ResKind::Special, MOST, MOST / 3, true),
    (ResKind::Special, MOST, MOST / 3 + 1, false),
    (ResKind::Special, MOST, MOST, false),
    (ResKind::Special, 0, MOST, false),
];

#[test]
fn majorities_of_large_counts(rt: HostRuntime) {
    for &(kind, votes_for, votes_against, is_carried) in COUNTS {
        assert!(rt; carried(kind, votes_for, votes_against) == is_carried);
    }
}

const AT: &str = "2026-06-18T10:01:00";

/// The holders of 1,000 shares, of whom M1 holds 90.
fn holders(alloc: Global) -> Result<Register, Fail> {
    register(
        alloc,
        &[
            ("M1", HolderKind::Individual, 90),
            ("M2", HolderKind::Individual, 10),
            ("M3", HolderKind::Individual, 900),
        ],
    )
}

fn demand() -> Result<DemandMark, Fail> {
    Ok(DemandMark {
        session: 1,
        resolution: 1,
        party: party("M1")?,
        moment: moment(AT)?,
    })
}

/// What the demands amount to.
fn reached(alloc: Global, register: &Register, lists: &Lists) -> Result<Demand, Fail> {
    let at = moment(AT)?;
    let cutoffs = Cutoffs {
        appointments: at,
        endings: at,
    };
    let given = lists.appointments.as_slice();
    if !all_tags(given) || !all_numbered(given) {
        return Err("numbers that no member's appointments have".into());
    }
    let papers = lists.papers(register.rows());
    Ok(demand_reached(alloc, &cutoffs, &papers, 1, 1)?)
}

fn reached_by_demand(alloc: Global, lists: &mut Lists) -> Result<Demand, Fail> {
    lists.demands.push(demand()?)?;
    let register = holders(alloc)?;
    reached(alloc, &register, lists)
}

/// A demand of M1, who holds 90 of 1,000 shares.
fn demanded(alloc: Global) -> Result<Demand, Fail> {
    let mut lists = Lists::new(alloc);
    reached_by_demand(alloc, &mut lists)
}

#[test]
fn a_demand_of_ninety_shares(rt: HostRuntime) -> Result<(), Fail> {
    let wanted = Demand {
        members: 1,
        shares: 90,
        paid: 9_000,
        reached: false,
    };
    assert!(rt; demanded(rt.alloc())? == wanted);
    Ok(())
}
