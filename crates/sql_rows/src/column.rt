//! What stands in a column of a row.
ghost use Rattle.std.specs.Prelude.{◌≡◌, ℤ, Option, Some, IfSome, IsSome, Err, ◌+ℤ◌, pos};
ghost use Rattle.vocabulary.specs.Identity.{id};
ghost use Rattle.sqlite.specs.Order.{column};
ghost use Rattle.sqlite.specs.Value.{owned};
ghost use Rattle.vocabulary.specs.Kinds.{company_of, meeting_kind_of, resolution_kind_of, holder_kind_of, capacity_of, way_of};
ghost use Rattle.vocabulary.specs.Names.{party_of, meeting_of, key_of};
ghost use Rattle.desk_words.specs.Callers.{caller_of};
ghost use Rattle.sql_rows.specs.declared.fault.RowError.TheVariants.{Memory};
ghost use Rattle.sql_rows.specs.Meanings.{RowAgrees, RowAgreesExactly};
ghost use Rattle.sql_rows.specs.ColumnValues.{bytes_of, integer_of, natural_of, string_of, flag_of, word_of, plain_text_of, unix_day, moment_of_number, some_moment_of, is_null, parsed_in, parsed_word_in, number_in, flag_in, day_in, moment_in, some_moment_in};

use crate::fault::RowError;
use desk_words::{
    Caller, Capacity, Company, Day, HolderKind, MeetingId, MeetingKind, Moment, Party, ResKind,
    SecretKey, Text, TextFault, Way, read_caller, read_key, read_meeting, read_party,
};
use sqlite::Row;
use sqlite::types::ValueRef;
use std::alloc::Global;

/// 1970-01-01, in days since 1900-01-01.
const UNIX_DAY: i64 = 25_567;

/// 1970-01-01T00:00:00, in seconds since 1900-01-01T00:00:00.
const UNIX_SECOND: i64 = 2_208_988_800;

fn value_in(row: &Row, at: usize) -> ValueRef<'_>
    ensures { owned result ≡ column row.now at }
{
    row.get_ref(at).unwrap_or(ValueRef::Null)
}

/// The bytes of the text in a column.
pub(crate) fn bytes_in(row: &Row, at: usize) -> Result<&[u8], RowError>
    ensures { RowAgreesExactly (λ b. b.now) result (bytes_of (column row.now at)) }
{
    match row.get_ref(at) {
        Ok(ValueRef::Text(bytes)) => Ok(bytes),
        _ => Err(RowError::Unreadable),
    }
}

/// The whole number in a column.
pub(crate) fn integer_in(row: &Row, at: usize) -> Result<i64, RowError>
    ensures { RowAgreesExactly id result (integer_of (column row.now at)) }
{
    match row.get_ref(at) {
        Ok(ValueRef::Int(n)) => Ok(n),
        _ => Err(RowError::Unreadable),
    }
}

/// Whether a column is NULL, or there is none.
pub(crate) fn is_null(row: &Row, at: usize) -> bool
    ensures { result ≡ is_null (column row.now at) }
{
    matches!(value_in(row, at), ValueRef::Null)
}

#[tactic(auto, using(crate::proofs::RowColumnLemmas::string_is, crate::proofs::RowColumnLemmas::no_string))]
fn string_of(bytes: &[u8]) -> Result<&str, RowError>
    ensures { RowAgreesExactly (λ s. s.now) result (string_of bytes.now) }
{
    match str::from_utf8(bytes) {
        Ok(string) => Ok(string),
        Err(_) => Err(RowError::Unreadable),
    }
}

pub(crate) fn word_in(row: &Row, at: usize) -> Result<&str, RowError>
    ensures { RowAgreesExactly (λ s. s.now) result (word_of (column row.now at)) }
{
    string_of(bytes_in(row, at)?)
}

fn natural_of(n: i64) -> Result<u64, RowError>
    ensures { RowAgreesExactly id result (natural_of n) }
{
    u64::try_from(n).map_err(|_| RowError::Unreadable)
}

/// The number in a column, which is not negative.
#[tactic(auto, unfolding(crate::specs::ColumnValues::number_in))]
pub(crate) fn number_in(row: &Row, at: usize) -> Result<u64, RowError>
    ensures { RowAgreesExactly id result (number_in row.now at) }
{
    natural_of(integer_in(row, at)?)
}

/// No or yes, which is 0 or 1.
#[tactic(auto, unfolding(crate::specs::ColumnValues::flag_in))]
pub(crate) fn flag_in(row: &Row, at: usize) -> Result<bool, RowError>
    ensures { RowAgreesExactly id result (flag_in row.now at) }
{
    match number_in(row, at)? {
        0 => Ok(false),
        1 => Ok(true),
        _ => Err(RowError::Unreadable),
    }
}

fn day_of(days: i64) -> Result<Day, RowError>
    ensures { RowAgreesExactly id result (unix_day days) }
{
    let since_1900 = days
        .checked_add(UNIX_DAY)
        .and_then(|n| u32::try_from(n).ok());
    since_1900.and_then(Day::new).ok_or(RowError::Unreadable)
}

fn moment_of(seconds: i64) -> Result<Moment, RowError>
    ensures { RowAgreesExactly id result (moment_of_number seconds) }
{
    let since_1900 = seconds
        .checked_add(UNIX_SECOND)
        .and_then(|n| u64::try_from(n).ok());
    since_1900.and_then(Moment::new).ok_or(RowError::Unreadable)
}

/// The day in a column.
#[tactic(auto, unfolding(crate::specs::ColumnValues::day_in))]
pub(crate) fn day_in(row: &Row, at: usize) -> Result<Day, RowError>
    ensures { RowAgreesExactly id result (day_in row.now at) }
{
    day_of(integer_in(row, at)?)
}

/// The moment in a column.
#[tactic(auto, unfolding(crate::specs::ColumnValues::moment_in))]
pub(crate) fn moment_in(row: &Row, at: usize) -> Result<Moment, RowError>
    ensures { RowAgreesExactly id result (moment_in row.now at) }
{
    moment_of(integer_in(row, at)?)
}

/// The moment in a column, or none where it is NULL.
#[tactic(auto, unfolding(crate::specs::ColumnValues::some_moment_in))]
pub(crate) fn some_moment_in(row: &Row, at: usize) -> Result<Option<Moment>, RowError>
    ensures { RowAgreesExactly id result (some_moment_in row.now at) }
{
    match value_in(row, at) {
        ValueRef::Null => Ok(None),
        ValueRef::Int(seconds) => Ok(Some(moment_of(seconds)?)),
        _ => Err(RowError::Unreadable),
    }
}

/// The meeting that a column names.
#[tactic(auto, unfolding(crate::specs::ColumnValues::parsed_in))]
pub(crate) fn meeting_in(row: &Row, at: usize) -> Result<MeetingId, RowError>
    ensures { RowAgreesExactly id result (parsed_in meeting_of row.now at) }
{
    read_meeting(bytes_in(row, at)?).ok_or(RowError::Unreadable)
}

/// The party that a column names.
#[tactic(auto, unfolding(crate::specs::ColumnValues::parsed_in))]
pub(crate) fn party_in(row: &Row, at: usize) -> Result<Party, RowError>
    ensures { RowAgreesExactly id result (parsed_in party_of row.now at) }
{
    read_party(bytes_in(row, at)?).ok_or(RowError::Unreadable)
}

/// The caller that a column names.
#[tactic(auto, unfolding(crate::specs::ColumnValues::parsed_in))]
pub(crate) fn caller_in(row: &Row, at: usize) -> Result<Caller, RowError>
    ensures { RowAgreesExactly id result (parsed_in caller_of row.now at) }
{
    read_caller(bytes_in(row, at)?).ok_or(RowError::Unreadable)
}

/// The key in a column.
#[tactic(auto, unfolding(crate::specs::ColumnValues::parsed_in))]
pub(crate) fn key_in(row: &Row, at: usize) -> Result<SecretKey, RowError>
    ensures { RowAgreesExactly id result (parsed_in key_of row.now at) }
{
    read_key(bytes_in(row, at)?).ok_or(RowError::Unreadable)
}

#[tactic(auto, unfolding(crate::specs::ColumnValues::parsed_word_in))]
pub(crate) fn company_in(row: &Row, at: usize) -> Result<Company, RowError>
    ensures { RowAgreesExactly id result (parsed_word_in company_of row.now at) }
{
    Company::of_word(word_in(row, at)?).ok_or(RowError::Unreadable)
}

#[tactic(auto, unfolding(crate::specs::ColumnValues::parsed_word_in))]
pub(crate) fn meeting_kind_in(row: &Row, at: usize) -> Result<MeetingKind, RowError>
    ensures { RowAgreesExactly id result (parsed_word_in meeting_kind_of row.now at) }
{
    MeetingKind::of_word(word_in(row, at)?).ok_or(RowError::Unreadable)
}

#[tactic(auto, unfolding(crate::specs::ColumnValues::parsed_word_in))]
pub(crate) fn resolution_kind_in(row: &Row, at: usize) -> Result<ResKind, RowError>
    ensures { RowAgreesExactly id result (parsed_word_in resolution_kind_of row.now at) }
{
    ResKind::of_word(word_in(row, at)?).ok_or(RowError::Unreadable)
}

#[tactic(auto, unfolding(crate::specs::ColumnValues::parsed_word_in))]
pub(crate) fn holder_kind_in(row: &Row, at: usize) -> Result<HolderKind, RowError>
    ensures { RowAgreesExactly id result (parsed_word_in holder_kind_of row.now at) }
{
    HolderKind::of_word(word_in(row, at)?).ok_or(RowError::Unreadable)
}

#[tactic(auto, unfolding(crate::specs::ColumnValues::parsed_word_in))]
pub(crate) fn capacity_in(row: &Row, at: usize) -> Result<Capacity, RowError>
    ensures { RowAgreesExactly id result (parsed_word_in capacity_of row.now at) }
{
    Capacity::of_word(word_in(row, at)?).ok_or(RowError::Unreadable)
}

#[tactic(auto, unfolding(crate::specs::ColumnValues::parsed_word_in))]
pub(crate) fn way_in(row: &Row, at: usize) -> Result<Way, RowError>
    ensures { RowAgreesExactly id result (parsed_word_in way_of row.now at) }
{
    Way::of_word(word_in(row, at)?).ok_or(RowError::Unreadable)
}

fn text_of(alloc: Global, string: &str) -> Result<Text, RowError>
    ensures text { RowAgrees id result (plain_text_of string.now) }
    ensures memory { result ≡ Err Memory → IsSome (plain_text_of string.now) }
{
    match Text::new(alloc, string.as_bytes()) {
        Ok(text) => Ok(text),
        Err(TextFault::Form) => Err(RowError::Unreadable),
        Err(TextFault::Memory) => Err(RowError::Memory),
    }
}

/// The text in a column. The fault is `Unreadable` exactly where there is none, and else `Memory`.
#[tactic(auto, unfolding(crate::specs::ColumnValues::parsed_word_in))]
pub(crate) fn text_in(alloc: Global, row: &Row, at: usize) -> Result<Text, RowError>
    ensures text { RowAgrees id result (parsed_word_in plain_text_of row.now at) }
    ensures memory { result ≡ Err Memory → IsSome (parsed_word_in plain_text_of row.now at) }
{
    text_of(alloc, word_in(row, at)?)
}
