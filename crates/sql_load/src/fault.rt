//! Why the office of the tables was not read.
ghost use Rattle.std.specs.Prelude.{◌≡◌};
ghost use Rattle.sql_rows.specs.declared.fault.RowError.TheVariants as row;
ghost use Rattle.sql_load.specs.declared.fault.LoadError.TheVariants.{Memory};
ghost use Rattle.sql_load.specs.LoadResults.{fault_of_error, fault_of_row};

use sql_rows::RowError;
use sqlite::{Error, ErrorCode};
use std::alloc::{AllocError, AllocFailed};

/// Why the office of the tables was not read.
#[derive(Clone, Copy, PartialEq, Eq)]
pub enum LoadError {
    /// The rows are no office's.
    NoOffice,
    /// The store refused a statement for another cause than memory.
    Store,
    /// An allocation was refused.
    Memory,
}

impl From<Error> for LoadError {
    ghost from_gives = { λ error fault. fault ≡ fault_of_error error };

    fn from(error: Error) -> LoadError {
        match error {
            Error::SqliteFailure(ErrorCode::OutOfMemory) => LoadError::Memory,
            _ => LoadError::Store,
        }
    }
}

impl From<RowError> for LoadError {
    ghost from_gives = { λ fault made. made ≡ fault_of_row fault };

    fn from(fault: RowError) -> LoadError {
        match fault {
            RowError::Unreadable => LoadError::NoOffice,
            RowError::Memory => LoadError::Memory,
        }
    }
}

impl From<AllocError> for LoadError {
    ghost from_gives = { λ _ fault. fault ≡ Memory };

    fn from(_refused: AllocError) -> LoadError {
        LoadError::Memory
    }
}

impl<T: Drop> From<AllocFailed<T>> for LoadError {
    ghost from_gives = { λ _ fault. fault ≡ Memory };

    fn from(_refused: AllocFailed<T>) -> LoadError {
        LoadError::Memory
    }
}
