//! Rows of presences, demands, polls and casts.
ghost use Rattle.std.specs.Prelude.{◌≡◌, refl};
ghost use Rattle.vocabulary.specs.Identity.{id};
ghost use Rattle.sqlite.specs.Order.{column};
ghost use Rattle.sql_rows.specs.Meanings.{RowAgreesExactly};
ghost use Rattle.sql_rows.specs.Marks.{presence_of, demand_mark_of, tally_from, declared_in, poll_in, block_from, is_instructed, cast_kind_in, cast_in};

use crate::column::{
    capacity_in, flag_in, is_null, meeting_in, moment_in, number_in, party_in, some_moment_in,
    way_in, word_in,
};
use crate::columns::MeetingRecord;
use crate::fault::RowError;
use crate::list::FromRow;
use crate::proxy_rows::range_of;
use crate::stored_records::InMeeting;
use desk_words::{Block, CastKind, CastMark, DemandMark, Moment, Party, Poll, PresenceMark, Tally};
use sqlite::Row;
use std::alloc::Global;

impl MeetingRecord for PresenceMark {
    type Parts = (u64, (Party, Moment));

    ghost of = { presence_of };

    fn of(parts: Self::Parts) -> PresenceMark {
        let (session, (party, moment)) = parts;
        PresenceMark {
            session,
            party,
            moment,
        }
    }

    fn parts(&self) -> Self::Parts {
        (self.session, (self.party, self.moment))
    }

    ghost narrow = { refl };
}

impl MeetingRecord for DemandMark {
    type Parts = (u64, (u64, (Party, Moment)));

    ghost of = { demand_mark_of };

    fn of(parts: Self::Parts) -> DemandMark {
        let (session, (resolution, (party, moment))) = parts;
        DemandMark {
            session,
            resolution,
            party,
            moment,
        }
    }

    fn parts(&self) -> Self::Parts {
        (self.session, (self.resolution, (self.party, self.moment)))
    }

    ghost narrow = { refl };
}

#[tactic(auto, unfolding(crate::specs::ColumnValues::number_in))]
fn tally_in(row: &Row) -> Result<Tally, RowError>
    ensures { RowAgreesExactly id result
        (tally_from (column row.now 8) (column row.now 9) (column row.now 10) (column row.now 11)) }
{
    let votes_for = number_in(row, 8)?;
    let votes_against = number_in(row, 9)?;
    let withheld = number_in(row, 10)?;
    let eligible = number_in(row, 11)?;
    Ok(Tally {
        votes_for,
        votes_against,
        withheld,
        eligible,
    })
}

#[tactic(auto, unfolding(crate::specs::Marks::declared_in))]
fn declared_in(row: &Row) -> Result<Option<Tally>, RowError>
    ensures { RowAgreesExactly id result (declared_in row.now 8) }
{
    if is_null(row, 8) && is_null(row, 9) && is_null(row, 10) && is_null(row, 11) {
        return Ok(None);
    }
    Ok(Some(tally_in(row)?))
}

impl FromRow for InMeeting<Poll> {
    ghost means = { poll_in };

    #[tactic(auto, unfolding(crate::specs::Marks::poll_in))]
    fn from_row(_: Global, row: &Row) -> Result<InMeeting<Poll>, RowError>
        ensures { RowAgreesExactly id result (poll_in row.now) }
    {
        let meeting = meeting_in(row, 0)?;
        let session = number_in(row, 1)?;
        let resolution = number_in(row, 2)?;
        let ordered = moment_in(row, 3)?;
        let take = moment_in(row, 4)?;
        let chair = flag_in(row, 5)?;
        let started = some_moment_in(row, 6)?;
        let closed = some_moment_in(row, 7)?;
        let declared = declared_in(row)?;
        Ok(InMeeting {
            meeting,
            item: Poll {
                session,
                resolution,
                ordered,
                take,
                chair,
                started,
                closed,
                declared,
            },
        })
    }
}

#[tactic(auto, unfolding(crate::specs::ColumnValues::number_in, crate::specs::ColumnValues::parsed_in, crate::specs::ColumnValues::parsed_word_in))]
fn block_in(row: &Row) -> Result<Block, RowError>
    ensures { RowAgreesExactly id result
        (block_from (column row.now 3) (column row.now 4) (column row.now 5) (column row.now 6)
        (column row.now 7)) }
{
    let capacity = capacity_in(row, 3)?;
    let member = party_in(row, 4)?;
    let first = number_in(row, 5)?;
    let last = number_in(row, 6)?;
    let range = range_of(first, last)?;
    let way = way_in(row, 7)?;
    Ok(Block {
        capacity,
        member,
        range,
        way,
    })
}

fn is_instructed(row: &Row) -> Result<bool, RowError>
    ensures { RowAgreesExactly id result (is_instructed (column row.now 3)) }
{
    Ok(word_in(row, 3)? == "instructed")
}

#[tactic(auto, unfolding(crate::specs::Marks::cast_kind_in))]
fn cast_kind_in(row: &Row) -> Result<CastKind, RowError>
    ensures { RowAgreesExactly id result (cast_kind_in row.now 3) }
{
    if !is_instructed(row)? {
        return Ok(CastKind::Block(block_in(row)?));
    }
    if is_null(row, 4) && is_null(row, 5) && is_null(row, 6) && is_null(row, 7) {
        Ok(CastKind::AsInstructed)
    } else {
        Err(RowError::Unreadable)
    }
}

impl FromRow for InMeeting<CastMark> {
    ghost means = { cast_in };

    #[tactic(auto, unfolding(crate::specs::Marks::cast_in))]
    fn from_row(_: Global, row: &Row) -> Result<InMeeting<CastMark>, RowError>
        ensures { RowAgreesExactly id result (cast_in row.now) }
    {
        let meeting = meeting_in(row, 0)?;
        let resolution = number_in(row, 1)?;
        let voter = party_in(row, 2)?;
        let what = cast_kind_in(row)?;
        let moment = moment_in(row, 8)?;
        Ok(InMeeting {
            meeting,
            item: CastMark {
                resolution,
                voter,
                what,
                moment,
            },
        })
    }
}
