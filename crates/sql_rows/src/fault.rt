//! Why a row was not read.
ghost use Rattle.std.specs.Prelude.{◌≡◌};
ghost use Rattle.sql_rows.specs.declared.fault.RowError.TheVariants.{Memory};

use std::alloc::{AllocError, AllocFailed};

/// Why a row was not read.
#[derive(Clone, Copy, PartialEq, Eq)]
pub enum RowError {
    /// It is no row of its table: a column has another type, or a value without its form.
    Unreadable,
    /// An allocation was refused.
    Memory,
}

impl From<AllocError> for RowError {
    ghost from_gives = { λ _ e. e ≡ Memory };

    fn from(_refused: AllocError) -> RowError {
        RowError::Memory
    }
}

impl<T: Drop> From<AllocFailed<T>> for RowError {
    ghost from_gives = { λ _ e. e ≡ Memory };

    fn from(_refused: AllocFailed<T>) -> RowError {
        RowError::Memory
    }
}
