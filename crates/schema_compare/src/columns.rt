//! Columns.
ghost use Rattle.std.specs.Prelude.{◌≡◌, IsTrue};

use crate::equal::Equal;
use sqlite_schema::schema::{Column, Kind};
use sqlite_value::keys::Collation;
use sqlite_value::value::Value;

fn is_same_kind(kind: Kind, other: Kind) -> bool
    ensures { IsTrue result → kind ≡ other }
{
    matches!(
        (kind, other),
        (Kind::Integer, Kind::Integer)
            | (Kind::Real, Kind::Real)
            | (Kind::Text, Kind::Text)
            | (Kind::Blob, Kind::Blob)
            | (Kind::Any, Kind::Any)
    )
}

fn is_same_collation(collation: Collation, other: Collation) -> bool
    ensures { IsTrue result → collation ≡ other }
{
    matches!(
        (collation, other),
        (Collation::Binary, Collation::Binary)
            | (Collation::NoCase, Collation::NoCase)
            | (Collation::RTrim, Collation::RTrim)
    )
}

/// Whether neither column has a default.
fn have_no_default(default: &Value, other: &Value) -> bool
    ensures { IsTrue result → default.now ≡ other.now }
{
    matches!((default, other), (Value::Null, Value::Null))
}

impl Equal for Column {
    /// It is `false` where a column has a default.
    fn is_equal(&self, other: &Column) -> bool {
        self.name.is_equal(&other.name)
            && is_same_kind(self.kind, other.kind)
            && self.is_strict == other.is_strict
            && self.not_null == other.not_null
            && have_no_default(&self.default, &other.default)
            && is_same_collation(self.collation, other.collation)
    }
}
