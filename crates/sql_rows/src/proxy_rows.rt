//! Rows of appointments, endings and authorities.
ghost use Rattle.std.specs.Prelude.{◌≡◌, refl};
ghost use Rattle.vocabulary.specs.Identity.{id};
ghost use Rattle.vocabulary.specs.Places.{range_of};
ghost use Rattle.sql_rows.specs.Meanings.{RowAgrees, RowAgreesExactly};
ghost use Rattle.sql_rows.specs.ColumnValues.{parsed_in};
ghost use Rattle.sql_rows.specs.InstructionLetters.{instructions_of};
ghost use Rattle.sql_rows.specs.AppointmentRows.{appointment_in, authority_of, ending_of};

use crate::column::{bytes_in, meeting_in, moment_in, number_in, party_in};
use crate::columns::MeetingRecord;
use crate::fault::RowError;
use crate::instructions::instructions_of;
use crate::list::FromRow;
use crate::stored_records::InMeeting;
use desk_words::{Appointment, Authority, Ending, Instructions, Moment, Party, Range};
use sqlite::Row;
use std::alloc::Global;

#[tactic(auto, unfolding(crate::specs::ColumnValues::parsed_in))]
fn instructions_in(alloc: Global, row: &Row, at: usize) -> Result<Instructions, RowError>
    ensures { RowAgrees id result (parsed_in instructions_of row.now at) }
{
    instructions_of(alloc, bytes_in(row, at)?)
}

/// The range with these ends.
pub(crate) fn range_of(from: u64, to: u64) -> Result<Range, RowError>
    ensures { RowAgreesExactly id result (range_of from to) }
{
    Range::new(from, to).ok_or(RowError::Unreadable)
}

impl FromRow for InMeeting<Appointment> {
    ghost means = { appointment_in };

    #[tactic(auto, unfolding(crate::specs::AppointmentRows::appointment_in))]
    fn from_row(alloc: Global, row: &Row) -> Result<InMeeting<Appointment>, RowError> {
        let meeting = meeting_in(row, 0)?;
        let member = party_in(row, 1)?;
        let number = number_in(row, 2)?;
        let proxy = party_in(row, 3)?;
        let first = number_in(row, 4)?;
        let last = number_in(row, 5)?;
        let range = range_of(first, last)?;
        let instructions = instructions_in(alloc, row, 6)?;
        let moment = moment_in(row, 7)?;
        Ok(InMeeting {
            meeting,
            item: Appointment {
                member,
                number,
                proxy,
                range,
                instructions,
                moment,
            },
        })
    }
}

impl MeetingRecord for Ending {
    type Parts = (Party, (u64, Moment));

    ghost of = { ending_of };

    fn of(parts: Self::Parts) -> Ending {
        let (member, (number, moment)) = parts;
        Ending {
            member,
            number,
            moment,
        }
    }

    fn parts(&self) -> Self::Parts {
        (self.member, (self.number, self.moment))
    }

    ghost narrow = { refl };
}

impl MeetingRecord for Authority {
    type Parts = (Party, (Party, Moment));

    ghost of = { authority_of };

    fn of(parts: Self::Parts) -> Authority {
        let (corporation, (person, moment)) = parts;
        Authority {
            corporation,
            person,
            moment,
        }
    }

    fn parts(&self) -> Self::Parts {
        (self.corporation, (self.person, self.moment))
    }

    ghost narrow = { refl };
}
