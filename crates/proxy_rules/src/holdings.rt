//! One member's shares, with what was received of its appointments.
ghost use Rattle.std.specs.Prelude.{◌≡◌, IfOk, filter};
ghost use Rattle.proxy_rules.specs.Holdings.{holding_by, holding_of, holding_with, is_ended_of, is_given_by};

use crate::governor::shares_by;
use crate::meeting_records::Papers;
use crate::register_rows::shares;
use desk_words::{Appointment, Ending, Filed, Listing, Party, RegisterRow};
use std::alloc::{AllocError, Global};

/// One member's shares, its appointments of proxies and its endings of them.
#[derive(Drop)]
pub struct Holding {
    /// How many shares the member has, treasury shares not among them.
    pub shares: u64,
    /// Its appointments, in order of receipt (section 324).
    pub appointed: Listing<Appointment>,
    /// Its endings, in order of receipt (section 330).
    pub ended: Listing<Ending>,
}

/// A member's appointments, in order of receipt. The error is want of memory.
pub fn given_by(
    alloc: Global,
    appointments: &Filed<Appointment>,
    member: Party,
) -> Result<Listing<Appointment>, AllocError>
    ensures { IfOk result (λ given. given ≡ filter (is_given_by member) appointments.now) }
{
    let given = appointments.by_first(alloc, member)?;
    Ok(Listing::from_vec(given))
}

/// A member's endings, in order of receipt.
fn ended_by(
    alloc: Global,
    endings: &Filed<Ending>,
    member: Party,
) -> Result<Vec<Ending>, AllocError>
    ensures { IfOk result (λ ended. ended.items ≡ filter (is_ended_of member) endings.now) }
{
    endings.by_first(alloc, member)
}

impl Holding {
    /// So many shares of a member, with its appointments and its endings, which are looked up. The
    /// error is want of memory.
    pub fn with_shares(
        alloc: Global,
        shares: u64,
        appointments: &Filed<Appointment>,
        endings: &Filed<Ending>,
        member: Party,
    ) -> Result<Holding, AllocError>
        ensures { IfOk result (λ holding. holding
            ≡ holding_with shares appointments.now endings.now member) }
    {
        let appointed = given_by(alloc, appointments, member)?;
        let ended = ended_by(alloc, endings, member)?;
        Ok(Holding {
            shares,
            appointed,
            ended: Listing::from_vec(ended),
        })
    }

    /// The holding of a row of the register, with its member's appointments and endings, which are
    /// looked up. The error is want of memory.
    pub fn of_row(
        alloc: Global,
        row: &RegisterRow,
        appointments: &Filed<Appointment>,
        endings: &Filed<Ending>,
    ) -> Result<Holding, AllocError>
        ensures { IfOk result
            (λ holding. holding ≡ holding_by appointments.now endings.now row.now) }
    {
        Holding::with_shares(alloc, shares(row), appointments, endings, row.member)
    }

    /// The holding of a member, of no shares where it has no row in the register, with its
    /// appointments and endings, which are looked up. The error is want of memory.
    pub fn of(alloc: Global, papers: &Papers, member: Party) -> Result<Holding, AllocError>
        ensures { IfOk result
            (λ holding. holding
            ≡ holding_of papers.now.register.now papers.now.appointments.now
            papers.now.endings.now member) }
    {
        let shares = shares_by(papers.register, member);
        Holding::with_shares(alloc, shares, papers.appointments, papers.endings, member)
    }
}
