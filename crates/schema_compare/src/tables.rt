//! Tables and indexes.
ghost use Rattle.std.specs.Prelude.{◌≡◌, IsTrue};

use crate::equal::{Equal, are_equal};
use sqlite_schema::code::Terms;
use sqlite_schema::schema::{Index, Stamps, Table};

/// Whether neither has an expression.
fn have_no_terms(terms: &Terms, other: &Terms) -> bool
    ensures { IsTrue result → terms.now ≡ other.now }
{
    terms.roots.is_empty() && other.roots.is_empty()
}

/// Whether the same places have a default that reads the time, in the same formats.
fn have_same_stamps(stamps: &Stamps, other: &Stamps) -> bool
    ensures { IsTrue result → stamps.now ≡ other.now }
{
    stamps.places.is_equal(&other.places)
        && have_no_terms(&stamps.terms, &other.terms)
        && are_equal(stamps.formats.as_slice(), other.formats.as_slice())
}

/// Whether two tables have the same name, number and columns.
fn has_same_columns(table: &Table, other: &Table) -> bool
    ensures { IsTrue result → (table.now.name ≡ other.now.name)
        × (table.now.tree ≡ other.now.tree)
        × (table.now.columns ≡ other.now.columns) }
{
    table.name.is_equal(&other.name)
        && table.tree == other.tree
        && are_equal(table.columns.as_slice(), other.columns.as_slice())
}

/// Whether two tables have the same keys.
fn has_same_keys(table: &Table, other: &Table) -> bool
    ensures { IsTrue result → (table.now.key ≡ other.now.key)
        × (table.now.primary ≡ other.now.primary)
        × (table.now.uniques ≡ other.now.uniques)
        × (table.now.orders ≡ other.now.orders) }
{
    table.key == other.key
        && table.primary.is_equal(&other.primary)
        && are_equal(table.uniques.as_slice(), other.uniques.as_slice())
        && are_equal(table.orders.as_slice(), other.orders.as_slice())
}

/// Whether two tables have the same foreign keys and neither a check nor a default that is computed.
fn has_same_rules(table: &Table, other: &Table) -> bool
    ensures { IsTrue result → (table.now.checks ≡ other.now.checks)
        × (table.now.references ≡ other.now.references)
        × (table.now.computed ≡ other.now.computed)
        × (table.now.stamps ≡ other.now.stamps) }
{
    have_no_terms(&table.checks, &other.checks)
        && are_equal(table.references.as_slice(), other.references.as_slice())
        && table.computed.is_equal(&other.computed)
        && have_same_stamps(&table.stamps, &other.stamps)
}

impl Equal for Table {
    /// It is `false` where a table has a check or a default.
    fn is_equal(&self, other: &Table) -> bool {
        has_same_columns(self, other)
            && has_same_keys(self, other)
            && has_same_rules(self, other)
            && self.is_counted == other.is_counted
    }
}

impl Equal for Index {
    fn is_equal(&self, other: &Index) -> bool {
        self.name.is_equal(&other.name)
            && self.tree == other.tree
            && self.table == other.table
            && self.columns.is_equal(&other.columns)
            && self.order.is_equal(&other.order)
            && self.is_unique == other.is_unique
    }
}
