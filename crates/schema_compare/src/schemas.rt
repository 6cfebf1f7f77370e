//! Schemas.
ghost use Rattle.std.specs.Prelude.{◌≡◌, IsTrue};

use crate::equal::are_equal;
use sqlite_schema::schema::Schema;

/// Whether two schemas are the same, by the numbers and names of their tables and indexes too, and
/// have neither a view, a check nor a default. It is `false` for any that do.
pub fn is_same_schema(schema: &Schema, other: &Schema) -> bool
    ensures { IsTrue result → schema.now ≡ other.now }
{
    schema.views.is_empty()
        && other.views.is_empty()
        && are_equal(schema.tables.as_slice(), other.tables.as_slice())
        && are_equal(schema.indexes.as_slice(), other.indexes.as_slice())
}
