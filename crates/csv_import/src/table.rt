//! Files of records: a header, and rows under it.
ghost use Rattle.std.specs.Prelude.{◌≡◌, [], true, option_map, Err, IfNone, IfOk, OnErr, OnOk};
ghost use Rattle.csv.specs.Reading.{ReadRecord, has_failed};
ghost use Rattle.csv.specs.Records.{fields_of};
ghost use Rattle.csv_import.specs.FileErrors.{FileAgrees};
ghost use Rattle.csv_import.specs.CsvTables.{ReadsRecords, left_of_slice, one_record_more};
ghost use Rattle.csv_import.specs.CsvTables.{one_row_more, table_of, under_header};
ghost use Rattle.csv_import.specs.declared.fault.FileError.TheVariants.{Memory};

use crate::fault::{FileError, Why};
use csv::{ByteRecord, ErrorKind, Reader, ReaderBuilder};
use std::alloc::{AllocError, Global};

/// What is gathered of the rows of a file, one record after another.
pub(crate) trait Gather: Drop {
    ghost use Rattle.std.specs.Prelude.{ℕ, Bool, List, Result, IfOk};
    ghost use Rattle.csv_import.specs.declared.fault.FileError.{FileError};

    /// A row, as contracts see it.
    ghost Row: { Type 0 };

    /// The rows so far.
    ghost seen: { Self → List Row };

    /// Whether a record names the columns of the file.
    ghost names_columns: { List (List ℕ) → Bool };

    /// The row that the record on a line is, after those so far, or its fault.
    ghost row_after: { ℕ → List Row → List (List ℕ) → Result Row FileError };

    /// Whether the record names the columns of the file.
    fn is_header(fields: &ByteRecord) -> bool
        ensures { result ≡ names_columns (fields_of fields.now) };

    /// No rows so far, and room for as many as a file of so many bytes can have.
    fn none(alloc: Global, bytes: usize) -> Result<Self, AllocError>
        ensures { IfOk result (λ none. seen none ≡ []) };

    /// The rows so far, and that of one record more. The error is its first fault, or want of
    /// memory.
    fn with_record(self, alloc: Global, fields: &ByteRecord) -> Result<Self, FileError>
        ensures { FileAgrees seen result (one_row_more row_after (seen self) (fields_of fields.now)) };
}

fn one_record_more<T: Gather>(
    alloc: Global,
    bytes: usize,
    found: Option<T>,
    fields: &ByteRecord,
) -> Result<Option<T>, FileError>
    ensures rows { FileAgrees (option_map T.seen) result
        (one_record_more T.names_columns T.row_after (option_map T.seen found)
        (fields_of fields.now)) }
    ensures memory { (result ≡ Err Memory)
        → IfNone found (T.names_columns (fields_of fields.now) ≡ true) }
{
    match found {
        None => {
            if !T::is_header(fields) {
                return Err(FileError::BadRow {
                    line: 1,
                    why: Why::Header,
                });
            }
            Ok(Some(T::none(alloc, bytes)?))
        }
        Some(so_far) => Ok(Some(so_far.with_record(alloc, fields)?)),
    }
}

fn under_header<T: Gather>(found: Option<T>) -> Result<T, FileError>
    ensures rows { FileAgrees T.seen result (under_header (option_map T.seen found)) }
    ensures no_memory { (result ≡ Err Memory) → ⊥ }
{
    found.ok_or(FileError::BadRow {
        line: 1,
        why: Why::Header,
    })
}

/// Reads the next record of a slice, and says whether there is one. The error says that the reader
/// has stopped. It stops for want of memory, and where a read fails, which over a slice none does;
/// a record may have any number of fields.
fn next_record(reader: &mut Reader<&[u8]>, fields: &mut ByteRecord) -> Result<bool, AllocError>
    requires { ReadsRecords reader.old }
    ensures reads { IfOk result
        (λ found. ReadRecord left_of_slice reader.old reader.new found (fields_of fields.new)) }
    ensures goes_on { OnOk result (ReadsRecords reader.new) }
    ensures stopped { OnErr result (has_failed reader.new ≡ true) }
{
    let error = match reader.read_byte_record(fields) {
        Ok(found) => return Ok(found),
        Err(error) => error,
    };
    match error.kind() {
        ErrorKind::OutOfMemory | ErrorKind::Io(_) => Err(AllocError),
        ErrorKind::UnequalLengths { .. }
        | ErrorKind::Utf8 { .. }
        | ErrorKind::Serialize(_)
        | ErrorKind::Deserialize { .. } => unreachable!(),
    }
}

/// What is gathered of the records under the header of a file: its rows, or its first fault.
pub(crate) fn rows_under_header<T: Gather>(alloc: Global, bytes: &[u8]) -> Result<T, FileError>
    ensures { FileAgrees T.seen result (table_of T.names_columns T.row_after bytes.now) }
{
    let mut reader = ReaderBuilder::new()
        .has_headers(false)
        .flexible(true)
        .from_reader(alloc, bytes);
    // One record serves for all, so that none is copied.
    let mut fields = ByteRecord::new(alloc);
    let mut found = None;
    while next_record(&mut reader, &mut fields)? {
        found = match one_record_more(alloc, bytes.len(), found, &fields) {
            Ok(more) => more,
            Err(fault) => return Err(fault),
        };
    }
    under_header(found)
}
