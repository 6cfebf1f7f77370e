//! Rows of meetings, of their further sessions, of their resolutions and of their registers.
ghost use Rattle.std.specs.Prelude.{◌≡◌, Err, IsSome};
ghost use Rattle.vocabulary.specs.Identity.{id as itself};
ghost use Rattle.sql_rows.specs.ColumnValues.{plain_text_of, parsed_word_in};
ghost use Rattle.sql_rows.specs.declared.fault.RowError.TheVariants.{Memory};
ghost use Rattle.sql_rows.specs.Meanings.{RowAgrees, RowAgreesExactly};
ghost use Rattle.sql_rows.specs.Meetings.{meeting_in, session_in, resolution_in, holding_in};

use crate::column::{
    company_in, day_in, flag_in, holder_kind_in, meeting_in, meeting_kind_in, moment_in, number_in,
    party_in, resolution_kind_in, some_moment_in, text_in,
};
use crate::fault::RowError;
use crate::list::FromRow;
use crate::stored_records::{InMeeting, MeetingRow, Numbered};
use desk_words::{RegisterRow, Resolution, Session};
use sqlite::Row;
use std::alloc::Global;

impl FromRow for MeetingRow {
    ghost means = { meeting_in };

    #[tactic(auto, unfolding(crate::specs::Meetings::meeting_in))]
    fn from_row(_: Global, row: &Row) -> Result<MeetingRow, RowError>
        ensures { RowAgreesExactly itself result (meeting_in row.now) }
    {
        let id = meeting_in(row, 0)?;
        let company = company_in(row, 1)?;
        let kind = meeting_kind_in(row, 2)?;
        let given = day_in(row, 3)?;
        let appointed = moment_in(row, 4)?;
        let record_moment = moment_in(row, 5)?;
        let loaded = flag_in(row, 6)?;
        let opened = some_moment_in(row, 7)?;
        Ok(MeetingRow {
            id,
            company,
            kind,
            given,
            appointed,
            record_moment,
            loaded,
            opened,
        })
    }
}

impl FromRow for InMeeting<Numbered<Session>> {
    ghost means = { session_in };

    #[tactic(auto, unfolding(crate::specs::Meetings::session_in))]
    fn from_row(_: Global, row: &Row) -> Result<InMeeting<Numbered<Session>>, RowError>
        ensures { RowAgreesExactly itself result (session_in row.now) }
    {
        let meeting = meeting_in(row, 0)?;
        let number = number_in(row, 1)?;
        let appointed = moment_in(row, 2)?;
        let opened = some_moment_in(row, 3)?;
        Ok(InMeeting {
            meeting,
            item: Numbered {
                number,
                item: Session { appointed, opened },
            },
        })
    }
}

impl FromRow for InMeeting<Numbered<Resolution>> {
    ghost means = { resolution_in };

    #[tactic(auto, unfolding(crate::specs::Meetings::resolution_in))]
    fn from_row(alloc: Global, row: &Row) -> Result<InMeeting<Numbered<Resolution>>, RowError>
        ensures row { RowAgrees itself result (resolution_in row.now) }
        ensures memory { result ≡ Err Memory → IsSome (parsed_word_in plain_text_of row.now 3) }
    {
        let meeting = meeting_in(row, 0)?;
        let number = number_in(row, 1)?;
        let kind = resolution_kind_in(row, 2)?;
        let text = text_in(alloc, row, 3)?;
        let resolution = Resolution { kind, text };
        Ok(InMeeting {
            meeting,
            item: Numbered {
                number,
                item: resolution,
            },
        })
    }
}

impl FromRow for InMeeting<RegisterRow> {
    ghost means = { holding_in };

    #[tactic(auto, unfolding(crate::specs::Meetings::holding_in))]
    fn from_row(alloc: Global, row: &Row) -> Result<InMeeting<RegisterRow>, RowError>
        ensures row { RowAgrees itself result (holding_in row.now) }
        ensures memory { result ≡ Err Memory → IsSome (parsed_word_in plain_text_of row.now 3) }
    {
        let meeting = meeting_in(row, 0)?;
        let member = party_in(row, 1)?;
        let kind = holder_kind_in(row, 2)?;
        let name = text_in(alloc, row, 3)?;
        let shares = number_in(row, 4)?;
        let paid = number_in(row, 5)?;
        Ok(InMeeting {
            meeting,
            item: RegisterRow {
                member,
                kind,
                name,
                shares,
                paid,
            },
        })
    }
}
