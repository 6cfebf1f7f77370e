//! The papers of the office: the files that it hands in, and the results that it prints.
#![tactic(auto)]

mod ending;
mod number;
mod print;
mod state;
mod text;

pub use byte_io::PrintError;
pub use csv_import::{
    DAY_FILE_LIMIT, FILE_LIMIT, FileError, Why, read_days, read_keys, read_register,
};
pub use ending::show_results;
pub use print::print_results;
