//! Those of a party's rows in a meeting that the answer to its request reads.
ghost use Rattle.std.specs.Prelude.{◌≡◌, map};
ghost use Rattle.party_views.specs.OwnCasts.{counted_on};
ghost use Rattle.party_views.specs.declared.own_rows.OwnCasts.TheVariants.{All};
ghost use Rattle.party_views.specs.RowsRead.{own_rows_part};
ghost use Rattle.party_views.specs.PartyRows.{no_own_rows, own_rows_in};
ghost use Rattle.party_views.specs.declared.reads.Reads.TheVariants as reads;
ghost use Rattle.row_source.specs.LookUps.{acting_for, authority_at, casts_by, for_member, naming_by_in, own_marks, trusting_for_in};
ghost use Rattle.row_source.specs.LookUps.{with_givers};
ghost use Rattle.row_source.specs.TrueLookUps.{IsTrueLookUp};

use crate::members::{authorised, named, named_by};
use crate::source::RowSource;
use desk_words::{Appointment, Capacity, DemandMark, Listing, NewCast, Party, RegisterRow};
use party_views::{AuthorityRows, MemberRows, OwnCasts, OwnRows, Reads, holds_as_individual};
use std::alloc::Global;

/// The rows of a party where there is no meeting.
pub fn no_own_rows(alloc: Global, party: Party) -> OwnRows
    ensures { result ≡ no_own_rows party }
{
    OwnRows {
        party,
        row: None,
        given: Listing::new(alloc),
        given_count: 0,
        ended: Listing::new(alloc),
        persons: Listing::new(alloc),
        received: Listing::new(alloc),
        members: Listing::new(alloc),
        authorised: Listing::new(alloc),
        presences: Listing::new(alloc),
        demands: Listing::new(alloc),
        casts: OwnCasts::All(Listing::new(alloc)),
    }
}

/// A party's own row, its presence and its demands.
#[derive(Drop)]
struct OwnMarks {
    row: Option<RegisterRow>,
    presences: Listing<u64>,
    demands: Listing<DemandMark>,
}

/// What others gave a party to act by: appointments, with the members who gave them, and authorities.
#[derive(Drop)]
struct ActingRows {
    received: Listing<Appointment>,
    members: Listing<MemberRows>,
    authorised: Listing<AuthorityRows>,
}

/// What others gave a party to act by.
fn acting_for<R: RowSource>(
    source: &mut R,
    alloc: Global,
    party: Party,
) -> Result<ActingRows, R::Error>
    ensures { IsTrueLookUp R.trusted R.shows R.keeps R.leaves R.may_fail source.old source.new result
        (λ found acting. acting ≡ acting_for found party) }
{
    let named = named(source, alloc, party, None)?;
    let authorised = authorised(source, alloc, None, party)?;
    Ok(ActingRows {
        received: named.received,
        members: named.members,
        authorised,
    })
}

/// A party's own row, its presence and its demands.
fn own_marks<R: RowSource>(source: &mut R, party: Party) -> Result<OwnMarks, R::Error>
    ensures { IsTrueLookUp R.trusted R.shows R.keeps R.leaves R.may_fail source.old source.new result
        (λ found own. own ≡ own_marks found party) }
{
    let row = source.row_of(party)?;
    let presences = source.presences_of(party)?;
    let demands = source.demands_of(party)?;
    Ok(OwnMarks {
        row,
        presences,
        demands,
    })
}

/// What a demand of a poll reads.
fn standing_of<R: RowSource>(
    source: &mut R,
    alloc: Global,
    party: Party,
) -> Result<OwnRows, R::Error>
    ensures { IsTrueLookUp R.trusted R.shows R.keeps R.leaves R.may_fail source.old source.new result
        (λ found rows. rows ≡ own_rows_part reads.Standing (own_rows_in found party)) }
{
    let OwnMarks {
        row,
        presences,
        demands,
    } = own_marks(source, party)?;
    if holds_as_individual(&row) {
        return Ok(OwnRows {
            row,
            presences,
            demands,
            ..no_own_rows(alloc, party)
        });
    }
    let ActingRows {
        received,
        members,
        authorised,
    } = acting_for(source, alloc, party)?;
    Ok(OwnRows {
        row,
        received,
        members,
        authorised,
        presences,
        demands,
        ..no_own_rows(alloc, party)
    })
}

/// All rows of a party.
fn read_all<R: RowSource>(source: &mut R, alloc: Global, party: Party) -> Result<OwnRows, R::Error>
    ensures { IsTrueLookUp R.trusted R.shows R.keeps R.leaves R.may_fail source.old source.new result
        (λ found rows. rows ≡ own_rows_in found party) }
{
    let given = source.given_by(party)?;
    let ended = source.ended_by(party)?;
    let persons = source.persons_of(party)?;
    let casts = source.casts_of(party)?;
    let ActingRows {
        received,
        members,
        authorised,
    } = acting_for(source, alloc, party)?;
    let OwnMarks {
        row,
        presences,
        demands,
    } = own_marks(source, party)?;
    Ok(OwnRows {
        party,
        row,
        given_count: given.len() as u64,
        given,
        ended,
        persons,
        received,
        members,
        authorised,
        presences,
        demands,
        casts: OwnCasts::All(casts),
    })
}

/// The appointments that a party gave, and their endings, alone.
fn given_alone<R: RowSource>(
    source: &mut R,
    alloc: Global,
    party: Party,
) -> Result<OwnRows, R::Error>
    ensures { IsTrueLookUp R.trusted R.shows R.keeps R.leaves R.may_fail source.old source.new result
        (λ found rows. rows ≡ own_rows_part reads.Given (own_rows_in found party)) }
{
    let given = source.given_by(party)?;
    let ended = source.ended_by(party)?;
    Ok(OwnRows {
        given,
        ended,
        ..no_own_rows(alloc, party)
    })
}

/// How many appointments a party gave, alone.
fn count_alone<R: RowSource>(
    source: &mut R,
    alloc: Global,
    party: Party,
) -> Result<OwnRows, R::Error>
    ensures { IsTrueLookUp R.trusted R.shows R.keeps R.leaves R.may_fail source.old source.new result
        (λ found rows. rows ≡ own_rows_part reads.GivenCount (own_rows_in found party)) }
{
    let given_count = source.count_given_by(party)?;
    Ok(OwnRows {
        given_count,
        ..no_own_rows(alloc, party)
    })
}

/// The authorities that a party gave, alone.
fn persons_alone<R: RowSource>(
    source: &mut R,
    alloc: Global,
    party: Party,
) -> Result<OwnRows, R::Error>
    ensures { IsTrueLookUp R.trusted R.shows R.keeps R.leaves R.may_fail source.old source.new result
        (λ found rows. rows ≡ own_rows_part reads.Persons (own_rows_in found party)) }
{
    let persons = source.persons_of(party)?;
    Ok(OwnRows {
        persons,
        ..no_own_rows(alloc, party)
    })
}

/// The sessions in which a party is present, alone.
fn presence_alone<R: RowSource>(
    source: &mut R,
    alloc: Global,
    party: Party,
) -> Result<OwnRows, R::Error>
    ensures { IsTrueLookUp R.trusted R.shows R.keeps R.leaves R.may_fail source.old source.new result
        (λ found rows. rows ≡ own_rows_part reads.Presence (own_rows_in found party)) }
{
    let presences = source.presences_of(party)?;
    Ok(OwnRows {
        presences,
        ..no_own_rows(alloc, party)
    })
}

/// No rows. The source is asked all the same, and so is known to answer.
fn none_of_them<R: RowSource>(
    source: &mut R,
    alloc: Global,
    party: Party,
) -> Result<OwnRows, R::Error>
    ensures { IsTrueLookUp R.trusted R.shows R.keeps R.leaves R.may_fail source.old source.new result
        (λ found rows. rows ≡ own_rows_part reads.Nothing (own_rows_in found party)) }
{
    source.presences_of(party)?;
    Ok(no_own_rows(alloc, party))
}

/// What votes as instructed on a resolution read.
fn for_instructed<R: RowSource>(
    source: &mut R,
    alloc: Global,
    party: Party,
    resolution: u64,
) -> Result<OwnRows, R::Error>
    ensures { IsTrueLookUp R.trusted R.shows R.keeps R.leaves R.may_fail source.old source.new result
        (λ found rows. rows ≡ own_rows_part (reads.AsInstructed resolution) (own_rows_in found party)) }
{
    let named = named(source, alloc, party, Some(resolution))?;
    let count = source.count_cast_on(party, resolution)?;
    Ok(OwnRows {
        received: named.received,
        members: named.members,
        casts: OwnCasts::Counted { resolution, count },
        ..no_own_rows(alloc, party)
    })
}

/// What a vote as a member reads: the party's own row, and how many votes it cast on that resolution.
fn for_member<R: RowSource>(
    source: &mut R,
    alloc: Global,
    party: Party,
    resolution: u64,
) -> Result<OwnRows, R::Error>
    ensures { IsTrueLookUp R.trusted R.shows R.keeps R.leaves R.may_fail source.old source.new result
        (λ found rows. rows ≡ for_member found party resolution) }
{
    let row = source.row_of(party)?;
    let count = source.count_cast_on(party, resolution)?;
    Ok(OwnRows {
        row,
        casts: OwnCasts::Counted { resolution, count },
        ..no_own_rows(alloc, party)
    })
}

/// What a vote as a representative reads: the authority that the corporation gave, and how many
/// votes the party cast on that resolution.
fn for_rep<R: RowSource>(
    source: &mut R,
    alloc: Global,
    party: Party,
    new: &NewCast,
) -> Result<OwnRows, R::Error>
    ensures { IsTrueLookUp R.trusted R.shows R.keeps R.leaves R.may_fail source.old source.new result
        (λ found rows. rows ≡ record (no_own_rows party) {
          authorised = map (authority_at found) (trusting_for_in found new.now.member party);
          casts = counted_on new.now.resolution (All (casts_by found party));
        }) }
{
    let authorised = authorised(source, alloc, Some(new.member), party)?;
    let count = source.count_cast_on(party, new.resolution)?;
    Ok(OwnRows {
        authorised,
        casts: OwnCasts::Counted {
            resolution: new.resolution,
            count,
        },
        ..no_own_rows(alloc, party)
    })
}

/// What a vote as a proxy reads: the member's appointments that name the party, the member who gave
/// them, and how many votes the party cast on that resolution.
fn for_proxy<R: RowSource>(
    source: &mut R,
    alloc: Global,
    party: Party,
    new: &NewCast,
) -> Result<OwnRows, R::Error>
    ensures { IsTrueLookUp R.trusted R.shows R.keeps R.leaves R.may_fail source.old source.new result
        (λ found rows. rows ≡ record (no_own_rows party) {
          received = naming_by_in found new.now.member party;
          members = (with_givers found None (naming_by_in found new.now.member party)).members;
          casts = counted_on new.now.resolution (All (casts_by found party));
        }) }
{
    let named = named_by(source, alloc, new.member, party)?;
    let count = source.count_cast_on(party, new.resolution)?;
    Ok(OwnRows {
        received: named.received,
        members: named.members,
        casts: OwnCasts::Counted {
            resolution: new.resolution,
            count,
        },
        ..no_own_rows(alloc, party)
    })
}

/// What a vote reads. As a proxy or a representative it reads of others the member alone for whom
/// it is cast, and not the party's own row.
fn for_vote<R: RowSource>(
    source: &mut R,
    alloc: Global,
    party: Party,
    new: &NewCast,
) -> Result<OwnRows, R::Error>
    ensures { IsTrueLookUp R.trusted R.shows R.keeps R.leaves R.may_fail source.old source.new result
        (λ found rows. rows ≡ own_rows_part (reads.Vote new.now) (own_rows_in found party)) }
{
    match new.capacity {
        Capacity::Member => for_member(source, alloc, party, new.resolution),
        Capacity::Rep => for_rep(source, alloc, party, new),
        Capacity::Proxy => for_proxy(source, alloc, party, new),
    }
}

/// Those of a party's rows in a meeting that are read, and nothing in place of the others, which
/// are not looked up; where there is no meeting, none. The error is that of a look-up, or want of
/// memory.
pub fn read_own_rows<R: RowSource>(
    source: &mut R,
    alloc: Global,
    party: Party,
    what: &Reads,
) -> Result<OwnRows, R::Error>
    ensures { IsTrueLookUp R.trusted R.shows R.keeps R.leaves R.may_fail source.old source.new result
        (λ found rows. rows ≡ own_rows_part what.now (own_rows_in found party)) }
{
    match what {
        Reads::Nothing => none_of_them(source, alloc, party),
        Reads::Everything => read_all(source, alloc, party),
        Reads::Given => given_alone(source, alloc, party),
        Reads::GivenCount => count_alone(source, alloc, party),
        Reads::Persons => persons_alone(source, alloc, party),
        Reads::Presence => presence_alone(source, alloc, party),
        Reads::Standing => standing_of(source, alloc, party),
        Reads::Vote(new) => for_vote(source, alloc, party, new),
        Reads::AsInstructed(resolution) => for_instructed(source, alloc, party, *resolution),
    }
}
