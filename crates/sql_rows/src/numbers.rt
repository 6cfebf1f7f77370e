//! Numbers as the tables keep them.
ghost use Rattle.std.specs.Prelude.{◌≡◌, ◌≤◌, ◌^◌, IfErr, IfOk, IsSomeAnd, Some};
ghost use Rattle.sqlite.specs.declared.error.Error.TheVariants.{SqliteFailure};
ghost use Rattle.sqlite.specs.declared.error.ErrorCode.TheVariants.{TooBig};
ghost use Rattle.sqlite.specs.Values.{or_null};
ghost use Rattle.sqlite.specs.declared.types.Value.TheVariants.{Int};
ghost use Rattle.sql_rows.specs.ColumnValues.{natural_of};
ghost use Rattle.sql_rows.specs.Marks.{HasTooHighFigure, declared_of};

use crate::values::{TallyColumns, tally_columns, whole_number};
use desk_words::Tally;
use sqlite::{Error, ErrorCode};

/// A number is above 2^63 - 1, the highest that is kept.
const TOO_BIG: Error = Error::SqliteFailure(ErrorCode::TooBig);

/// A number as it is kept. The error is `TooBig`, exactly where the number is above 2^63 - 1, as
/// none of an office is.
pub fn whole(number: u64) -> Result<i64, Error>
    ensures reads_back { IfOk result (λ n. natural_of n ≡ Some number) }
    ensures refused { IfErr result (λ e. (e ≡ SqliteFailure TooBig) × (2 ^ 63 ≤ number)) }
{
    whole_number(number).ok_or(TOO_BIG)
}

/// The four figures of what is declared as they are kept. The error is `TooBig`, exactly where one
/// of them is above 2^63 - 1, as none of an office is.
pub fn tally(declared: Option<Tally>) -> Result<TallyColumns, Error>
    ensures refused { IfErr result
        (λ e. (e ≡ SqliteFailure TooBig) × IsSomeAnd declared HasTooHighFigure) }
    ensures reads_back { IfOk result
        (λ t. declared_of (or_null Int t.votes_for) (or_null Int t.votes_against)
        (or_null Int t.withheld) (or_null Int t.eligible)
        ≡ Some declared) }
{
    tally_columns(declared).ok_or(TOO_BIG)
}
