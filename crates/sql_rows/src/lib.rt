//! What the rows of the desk's tables mean: the records of an office, each with the meeting that
//! its row names; and what is written into their columns. Words, names and texts are kept as texts,
//! moments and days as numbers counted from 1970.
#![tactic(auto)]

mod calls;
mod column;
mod column_types;
mod columns;
mod fault;
mod instructions;
mod list;
mod marks;
mod numbers;
mod office;
mod proxy_rows;
mod stored_records;
mod values;

pub use columns::{Column, Columns, MeetingRecord};
pub use fault::RowError;
pub use instructions::letters_of;
pub use list::{FromRow, records};
pub use numbers::{tally, whole};
pub use stored_records::{InMeeting, MeetingRow, Numbered, Version};
pub use values::{
    CastColumns, TallyColumns, caller_text, capacity_text, cast_columns, company_text, day_number,
    holder_kind_text, key_text, meeting_kind_text, meeting_text, moment_number, party_text,
    range_numbers, resolution_kind_text, some_moment_number, tally_columns, text_value, way_text,
    whole_number,
};
