//! Why a desk was not created or opened.
ghost use Rattle.std.specs.Prelude.{◌≡◌};
ghost use Rattle.sql_open.specs.Opening.{create_fault_of, open_fault_of};
ghost use Rattle.sql_open.specs.Opening.{fault_of_columns, fault_of_reading};

use sql_desk_tables::columns::ColumnError;
use sql_load::LoadError;
use sqlite::{Error, ErrorCode};

/// Why a desk was not created.
#[derive(Clone, Copy, PartialEq, Eq)]
pub enum CreateError {
    /// The database has a table, an index or a view already.
    NotEmpty,
    /// The store refused a statement for another cause than memory.
    Store,
    /// An allocation was refused.
    Memory,
}

/// Why a database was not opened as a desk.
#[derive(Clone, Copy, PartialEq, Eq)]
pub enum OpenFault {
    /// Its tables are no desk's, or what they hold is no office.
    NotADesk,
    /// A later version of the program made its tables.
    NewerVersion,
    /// The store refused a statement for another cause than memory, or the tables are of version 1
    /// and not just those that its program made.
    Store,
    /// An allocation was refused.
    Memory,
}

impl From<Error> for CreateError {
    ghost from_gives = { λ error fault. fault ≡ create_fault_of error };

    fn from(error: Error) -> CreateError {
        match error {
            Error::SqliteFailure(ErrorCode::OutOfMemory) => CreateError::Memory,
            _ => CreateError::Store,
        }
    }
}

impl From<Error> for OpenFault {
    ghost from_gives = { λ error fault. fault ≡ open_fault_of error };

    fn from(error: Error) -> OpenFault {
        match error {
            Error::SqliteFailure(ErrorCode::OutOfMemory) => OpenFault::Memory,
            _ => OpenFault::Store,
        }
    }
}

impl From<ColumnError> for OpenFault {
    ghost from_gives = { λ fault made. made ≡ fault_of_columns fault };

    fn from(fault: ColumnError) -> OpenFault {
        match fault {
            ColumnError::Missing => OpenFault::NotADesk,
            ColumnError::Refused(error) => OpenFault::from(error),
        }
    }
}

impl From<LoadError> for OpenFault {
    ghost from_gives = { λ fault made. made ≡ fault_of_reading fault };

    fn from(fault: LoadError) -> OpenFault {
        match fault {
            LoadError::NoOffice => OpenFault::NotADesk,
            LoadError::Store => OpenFault::Store,
            LoadError::Memory => OpenFault::Memory,
        }
    }
}
