//! What of a member's appointments decides which shares they govern.
ghost use Rattle.std.specs.Prelude.{◌≡◌, ◌&&◌, true, IfOk, Ok, map, nat_le};
ghost use Rattle.vocabulary.specs.declared.range.TheConstants.{MOST_PLACES};
ghost use Rattle.proxy_rules.specs.Governing.{is_over};
ghost use Rattle.proxy_rules.specs.Holdings.{IsValidHolding, are_numbered_from, are_tags, claim_of, claims_of, is_valid_holding};

use crate::holdings::Holding;
use crate::meeting_records::Cutoffs;
use desk_words::limits::MOST_APPOINTMENTS;
use desk_words::{Appointment, Ending, Listing, MOST_PLACES, Moment, Range};
use std::alloc::{AllocError, Global};
use std::marker::Model;

/// What of an appointment decides which shares it governs: its number, its range and its moment
/// (section 324). Contracts see it as the appointment without its names and its instructions.
#[derive(Clone, Copy)]
pub struct Claim {
    number: u64,
    range: Range,
    moment: Moment,
}

impl Model for Claim {
    ghost use Rattle.std.specs.Prelude.{[]};
    ghost use Rattle.desk_words.specs.declared.records.Appointment.{Appointment};

    ghost Value = { Appointment };

    ghost view = { λ c. record {
      member = [];
      number = c.number;
      proxy = [];
      range = c.range;
      instructions = [];
      moment = c.moment;
    } };

    ghost inverse = { λ a. record { number = a.number; range = a.range; moment = a.moment } };
}

impl Claim {
    /// That of an appointment.
    pub fn of(appointment: &Appointment) -> Claim
        ensures { result ≡ claim_of appointment.now }
    {
        Claim {
            number: appointment.number,
            range: appointment.range,
            moment: appointment.moment,
        }
    }

    /// The number of the appointment among its member's.
    pub(crate) fn number(&self) -> u64
        ensures { result ≡ self.now.number }
    {
        self.number
    }

    /// The places that it is over.
    pub(crate) fn range(&self) -> Range
        ensures { result ≡ self.now.range }
    {
        self.range
    }

    /// Whether it was received in time to count (section 327).
    pub(crate) fn counts(&self, cutoffs: &Cutoffs) -> bool
        ensures { result ≡ nat_le self.now.moment cutoffs.now.appointments }
    {
        self.moment <= cutoffs.appointments
    }

    /// Whether it was received in time to count, and is over the place.
    pub(crate) fn is_over(&self, cutoffs: &Cutoffs, place: u64) -> bool
        ensures { result ≡ is_over cutoffs.now place self.now }
    {
        self.counts(cutoffs) && self.range.has(place)
    }
}

/// The claims of appointments. The error is want of memory.
pub fn claims_in(alloc: Global, appointed: &[Appointment]) -> Result<Vec<Claim>, AllocError>
    ensures { IfOk result (λ claims. claims.items ≡ map claim_of appointed.now) }
{
    appointed.iter().map(Claim::of).collect(alloc)
}

/// One member's shares, the claims of its appointments, and its endings of them. Contracts see it as
/// a holding.
pub struct Claims {
    shares: u64,
    appointed: Listing<Claim>,
    ended: Listing<Ending>,
}

// It is written out, so that a caller does not prove again how each part is dropped.
impl Drop for Claims {
    fn drop(self) {
        let Claims {
            shares: _,
            appointed: _,
            ended: _,
        } = self;
    }
}

impl Model for Claims {
    ghost use Rattle.proxy_rules.specs.declared.holdings.Holding.{Holding};

    ghost Value = { Holding };

    ghost view = { λ c. record { shares = c.shares; appointed = c.appointed; ended = c.ended } };
}

/// Whether the appointments are numbered 1, 2, .. in order of receipt.
fn are_numbered(appointed: &[Claim]) -> bool
    ensures { result ≡ are_numbered_from 0 appointed.now }
{
    let mut number = 0;
    for claim in appointed {
        number += 1;
        if claim.number() != number {
            return false;
        }
    }
    true
}

/// Whether the numbers of appointments that are numbered 1, 2, .. are tags: that of the last is the
/// greatest.
fn are_few(appointed: &[Claim]) -> bool
    requires { are_numbered_from 0 appointed.now ≡ true }
    ensures { result ≡ are_tags appointed.now }
{
    appointed.len() <= MOST_APPOINTMENTS
}

/// Whether the appointments are numbered 1, 2, .. up to 256, and each of so many shares has a place.
fn are_valid(shares: u64, appointed: &[Claim]) -> bool
    ensures { result ≡ (are_numbered_from 0 appointed.now && are_tags appointed.now
        && nat_le shares MOST_PLACES) }
{
    are_numbered(appointed) && are_few(appointed) && shares <= MOST_PLACES
}

impl Holding {
    /// Whether an office keeps such a holding, as `Claims::is_valid` says. No request asks it. The
    /// error is want of memory.
    pub fn is_valid(&self, alloc: Global) -> Result<bool, AllocError>
        ensures value { IfOk result (λ is. is ≡ is_valid_holding self.now) }
        ensures valid { result ≡ Ok true → IsValidHolding self.now }
    {
        let claims = claims_in(alloc, self.appointed.as_slice())?;
        Ok(are_valid(self.shares, claims.as_slice()))
    }
}

impl Claims {
    /// So many shares, with these claims and endings, each in order of receipt.
    pub fn new(shares: u64, appointed: Listing<Claim>, ended: Listing<Ending>) -> Claims
        ensures { result ≡ record { shares = shares; appointed = appointed; ended = ended } }
    {
        Claims {
            shares,
            appointed,
            ended,
        }
    }

    /// Those of a holding. The error is want of memory.
    pub(crate) fn of(alloc: Global, holding: Holding) -> Result<Claims, AllocError>
        ensures { IfOk result (λ claims. claims ≡ claims_of holding) }
    {
        let claims = claims_in(alloc, holding.appointed.as_slice())?;
        Ok(Claims::new(holding.shares, Listing::from_vec(claims), holding.ended))
    }

    pub(crate) fn shares(&self) -> u64
        ensures { result ≡ self.now.shares }
    {
        self.shares
    }

    pub(crate) fn appointed(&self) -> &[Claim]
        ensures { result.now ≡ self.now.appointed }
    {
        self.appointed.as_slice()
    }

    pub(crate) fn ended(&self) -> &[Ending]
        ensures { result.now ≡ self.now.ended }
    {
        self.ended.as_slice()
    }

    /// Whether an office keeps such a holding: its appointments are numbered 1, 2, .. up to 256,
    /// and its shares have places. It takes no memory.
    pub fn is_valid(&self) -> bool
        ensures value { result ≡ is_valid_holding self.now }
        ensures valid { result ≡ true → IsValidHolding self.now }
    {
        are_valid(self.shares(), self.appointed())
    }
}
