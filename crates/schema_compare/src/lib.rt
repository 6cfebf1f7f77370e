//! Whether two databases declare the same tables, indexes and views.
#![tactic(auto)]

mod columns;
mod equal;
mod references;
mod schemas;
mod tables;

pub use schemas::is_same_schema;
