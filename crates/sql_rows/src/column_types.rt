//! The types of what stands in one column.
ghost use Rattle.vocabulary.specs.Names.{meeting_of, party_of};
ghost use Rattle.sqlite.specs.Kind.TheVariants.{Integer, Text as Texts};
ghost use Rattle.sql_rows.specs.StayLemmas.{integer_stays, number_stays, text_stays};
ghost use Rattle.sql_rows.specs.ColumnValues.{moment_of_number, natural_value, parsed_of};
ghost use Rattle.sql_rows.specs.Columns.{moment_value};

use crate::column::{meeting_in, moment_in, number_in, party_in};
use crate::columns::Column;
use crate::fault::RowError;
use crate::numbers::whole;
use crate::values::{meeting_text, moment_number, party_text};
use desk_words::{MeetingId, Moment, Party};
use sqlite::types::ValueRef;
use sqlite::{Error, Row};

impl Column for MeetingId {
    ghost kind = { Texts };

    ghost means = { parsed_of meeting_of };

    #[tactic(auto, unfolding(crate::specs::ColumnValues::parsed_in))]
    fn read(row: &Row, at: usize) -> Result<MeetingId, RowError> {
        meeting_in(row, at)
    }

    fn value(&self) -> Result<ValueRef<'_>, Error> {
        Ok(ValueRef::Text(meeting_text(self).as_bytes()))
    }

    ghost stays = { λ v x h. text_stays meeting_of v x h };
}

impl Column for Party {
    ghost kind = { Texts };

    ghost means = { parsed_of party_of };

    #[tactic(auto, unfolding(crate::specs::ColumnValues::parsed_in))]
    fn read(row: &Row, at: usize) -> Result<Party, RowError> {
        party_in(row, at)
    }

    fn value(&self) -> Result<ValueRef<'_>, Error> {
        Ok(ValueRef::Text(party_text(self).as_bytes()))
    }

    ghost stays = { λ v x h. text_stays party_of v x h };
}

impl Column for u64 {
    ghost kind = { Integer };

    ghost means = { natural_value };

    #[tactic(auto, unfolding(crate::specs::ColumnValues::number_in))]
    fn read(row: &Row, at: usize) -> Result<u64, RowError> {
        number_in(row, at)
    }

    fn value(&self) -> Result<ValueRef<'_>, Error> {
        Ok(ValueRef::Int(whole(*self)?))
    }

    ghost stays = { λ v x h. number_stays v x h };
}

impl Column for Moment {
    ghost kind = { Integer };

    ghost means = { moment_value };

    #[tactic(auto, unfolding(crate::specs::ColumnValues::moment_in))]
    fn read(row: &Row, at: usize) -> Result<Moment, RowError> {
        moment_in(row, at)
    }

    fn value(&self) -> Result<ValueRef<'_>, Error> {
        Ok(ValueRef::Int(moment_number(*self)))
    }

    ghost stays = { λ v x h. integer_stays moment_of_number v x h };
}
