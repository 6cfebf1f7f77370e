//! Why a file gives no rows.
ghost use Rattle.std.specs.Prelude.{◌≡◌};
ghost use Rattle.csv_import.specs.FileErrors.{why_word};
ghost use Rattle.csv_import.specs.declared.fault.FileError.TheVariants.{Memory};

use std::alloc::{AllocError, AllocFailed};

/// What is wrong with a record or a line of a file.
#[derive(Clone, Copy, PartialEq, Eq)]
pub enum Why {
    /// The first record does not name the columns.
    Header,
    /// A row more than there may be, or no row at all where there must be one.
    Rows,
    /// Not as many fields as the header has.
    Fields,
    /// No name of a party in the column of members.
    Member,
    /// None of the words for kinds of holders.
    Kind,
    /// No text in the column of names.
    Name,
    /// No number of shares from 1 to 10^12.
    Shares,
    /// No number of pence from 0 to 1,000,000.
    Paid,
    /// Neither `OFFICE` nor the name of a party in the column of parties.
    Party,
    /// No key in the column of keys.
    Key,
    /// The shares of the rows up to this one are more than a register may have.
    Total,
    /// No day on the line.
    Day,
}

impl Why {
    /// The word for it.
    pub fn word(self) -> &'static str
        ensures { result.now ≡ why_word self }
    {
        match self {
            Why::Header => "header",
            Why::Rows => "rows",
            Why::Fields => "fields",
            Why::Member => "member",
            Why::Kind => "kind",
            Why::Name => "name",
            Why::Shares => "shares",
            Why::Paid => "paid",
            Why::Party => "party",
            Why::Key => "key",
            Why::Total => "total",
            Why::Day => "day",
        }
    }
}

/// Why a file gives no rows. Records and lines are counted from 1. The header is record 1, and
/// empty lines between records are not counted.
#[derive(Clone, Copy, PartialEq, Eq)]
pub enum FileError {
    /// The record or the line of this number is not what it must be.
    BadRow { line: u64, why: Why },
    /// The member, the party or the key of this record stands in an earlier one.
    Twice { line: u64 },
    /// A read failed, or there are more bytes than such a file may have.
    ReadFault,
    /// An allocation was refused.
    Memory,
}

impl From<AllocError> for FileError {
    ghost from_gives = { λ _ e. e ≡ Memory };

    fn from(_refused: AllocError) -> FileError {
        FileError::Memory
    }
}

impl<T: Drop> From<AllocFailed<T>> for FileError {
    ghost from_gives = { λ _ e. e ≡ Memory };

    fn from(_refused: AllocFailed<T>) -> FileError {
        FileError::Memory
    }
}
