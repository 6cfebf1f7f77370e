//! What stands in the columns of a row: in one, in some of them one behind the other, and the record
//! that is made of them.
ghost use Rattle.std.specs.Prelude.{◌≡◌, ◌+◌, ◌<◌, ◌≤◌, ℕ, List, [], ◌∷◌, ◌++◌, Option, Some, IfOk, IsTrue, OnOk, length, nat_le, take};
ghost use Rattle.vocabulary.specs.Identity.{id};
ghost use Rattle.sqlite.specs.Cast.{cast};
ghost use Rattle.sqlite.specs.Kind.{Kind};
ghost use Rattle.sqlite.specs.Order.{Row as Values, column};
ghost use Rattle.sqlite.specs.Value.{owned};
ghost use Rattle.sqlite.specs.Values.{bound, bound_value};
ghost use Rattle.sqlite.specs.declared.types.Value.{Value};
ghost use Rattle.sql_rows.specs.Columns.{IsPut, both, in_meeting};
ghost use Rattle.sql_rows.specs.Meanings.{RowAgreesExactly};

use crate::fault::RowError;
use crate::list::FromRow;
use crate::stored_records::InMeeting;
use desk_words::MeetingId;
use sqlite::types::ValueRef;
use sqlite::{Error, Row};
use std::alloc::Global;

/// What stands in one column.
pub trait Column: Sized + Drop {
    // The kind of the column, and what a value in it means.
    ghost kind: { Kind };

    ghost means: { Value → Option Self };

    /// Reads the column at a place.
    fn read(row: &Row, at: usize) -> Result<Self, RowError>
        ensures { RowAgreesExactly id result (means (column row.now at)) };

    /// The value that is written. The error is a number above 2^63 - 1, as `whole` says.
    fn value(&self) -> Result<ValueRef<'_>, Error>
        ensures { IfOk result (λ v. means (bound_value (owned v)) ≡ Some self.now) };

    // What means something is kept as it is.
    ghost stays: { (v : Value) (x : Self) → means v ≡ Some x → cast kind v ≡ v };
}

/// What stands in some columns, one behind the other.
pub trait Columns: Sized + Drop {
    // How many they are, of which kinds, and what those from a place on mean.
    ghost width: { ℕ };

    ghost kinds: { List Kind };

    ghost means: { Values → ℕ → Option Self };

    /// Reads those from a place on, which becomes that behind them.
    fn read(row: &Row, at: &mut usize) -> Result<Self, RowError>
        requires { at.old + width ≤ 64 }
        ensures means { RowAgreesExactly id result (means row.now at.old) }
        ensures moves { OnOk result (at.new ≡ at.old + width) };

    /// Puts the values that are written behind those up to a place, which becomes that behind them.
    /// The error is a number above 2^63 - 1, as `whole` says.
    fn put<'a>(&'a self, at: &mut usize, to: &mut [ValueRef<'a>]) -> Result<(), Error>
        requires { at.old + width ≤ length to.old }
        ensures moves { OnOk result (at.new ≡ at.old + width) }
        ensures puts { OnOk result (IsPut width kinds means self.now (bound (take at.old to.old))
            (bound (take at.new to.new))) };
}

/// Puts a value at a place, which becomes that behind it.
fn put_value<'a>(value: ValueRef<'a>, at: &mut usize, to: &mut [ValueRef<'a>])
    requires { at.old < length to.old }
    ensures moves { at.new ≡ at.old + 1 }
    ensures puts { bound (take at.new to.new)
        ≡ bound (take at.old to.old) ++ bound_value (owned value.entry) ∷ [] }
{
    to[*at] = value;
    *at += 1;
}

impl<T: Column> Columns for T {
    ghost width = { 1 };

    ghost kinds = { T.kind ∷ [] };

    ghost means = { λ cells at. T.means (column cells at) };

    fn read(row: &Row, at: &mut usize) -> Result<T, RowError> {
        let value = <T as Column>::read(row, *at)?;
        *at += 1;
        Ok(value)
    }

    fn put<'a>(&'a self, at: &mut usize, to: &mut [ValueRef<'a>]) -> Result<(), Error> {
        let value = self.value()?;
        put_value(value, at, to);
        Ok(())
    }
}

impl<A: Columns, B: Columns> Columns for (A, B) {
    ghost width = { A.width + B.width };

    ghost kinds = { A.kinds ++ B.kinds };

    ghost means = { both A.means A.width B.means };

    fn read(row: &Row, at: &mut usize) -> Result<(A, B), RowError> {
        let first = A::read(row, at)?;
        let second = B::read(row, at)?;
        Ok((first, second))
    }

    fn put<'a>(&'a self, at: &mut usize, to: &mut [ValueRef<'a>]) -> Result<(), Error> {
        self.0.put(at, to)?;
        self.1.put(at, to)?;
        Ok(())
    }
}

/// A record of a meeting, as it stands in the columns behind that of the meeting.
pub trait MeetingRecord: Sized + Drop {
    type Parts: Columns;

    // What is made of the columns.
    ghost of: { Self.Parts → Self };

    /// The record that is made of what its columns hold.
    fn of(parts: Self::Parts) -> Self
        ensures { result ≡ of parts };

    /// What its columns hold.
    fn parts(&self) -> Self::Parts
        ensures { of result ≡ self.now };

    // There are a few of them.
    ghost narrow: { IsTrue (nat_le Self.Parts.width 11) };
}

impl<R: MeetingRecord> FromRow for InMeeting<R> {
    ghost means = { in_meeting R.Parts.means R.of };

    fn from_row(_: Global, row: &Row) -> Result<InMeeting<R>, RowError>
        ensures { RowAgreesExactly id result (in_meeting R.Parts.means R.of row.now) }
    {
        let mut at = 0;
        let (meeting, parts) = <(MeetingId, R::Parts)>::read(row, &mut at)?;
        Ok(InMeeting {
            meeting,
            item: R::of(parts),
        })
    }
}
