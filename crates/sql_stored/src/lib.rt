//! The statements that every table of the desk has, proved once for all of them: what makes a table
//! or an index, adds a row, lists the rows, counts them, finds those of a key, and takes out all of
//! them.
#![tactic(auto)]

mod filed;
mod index;
mod keys;
mod query;
mod table;
mod texts;

pub use filed::{FiledTable, add};
pub use index::{StoredIndex, make_index};
pub use keys::RowKey;
pub use query::{Query, find};
pub use table::{
    CountedTable, EmptiedTable, FilledTable, ListedTable, MadeTable, ReadTable, StoredTable,
    TableTexts, add_row, all, empty, make, row_count,
};
