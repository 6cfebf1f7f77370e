//! Register files.
ghost use Rattle.std.specs.Prelude.{◌≡◌, ℕ, ◌+◌, ◌<◌, ◌≤◌, List, IfOk, IfErr, IsTrue};
ghost use Rattle.std.specs.Prelude.{◌≢◌, None, Err, bytes_eq, ok_or};
ghost use Rattle.vocabulary.specs.Identity.{id};
ghost use Rattle.csv.specs.Records.{fields_of};
ghost use Rattle.vocabulary.specs.Kinds.{holder_kind_of, holder_kind_word};
ghost use Rattle.vocabulary.specs.PlainTexts.{text_of};
ghost use Rattle.desk_words.specs.Registers.{is_holding};
ghost use Rattle.csv_import.specs.FileErrors.{FileAgrees, IfRecordsRead};
ghost use Rattle.csv_import.specs.RegisterFiles.{is_register_header, row_in, parsed_row_after};
ghost use Rattle.csv_import.specs.RegisterFiles.{next_row, as_register, register_file};
ghost use Rattle.csv_import.specs.CsvTables.{one_row_more};
ghost use Rattle.csv_import.specs.WholeFiles.{IsReadCause, HasReceived, IsReadWhole};

use crate::columns::column;
use crate::fault::{FileError, Why};
use crate::faultless::faultless_register;
use crate::number::{read_number, within};
use crate::table::{Gather, rows_under_header};
use crate::whole::{FILE_LIMIT, read_whole};
use byte_io::Source;
use csv::ByteRecord;
use desk_words::limits::{MOST_PENCE, MOST_ROWS, MOST_SHARES};
use desk_words::{
    HolderKind, ListFault, MOST_PLACES, Party, Register, RegisterRow, Text, TextFault, read_party,
};
use std::alloc::{AllocError, Global};
use std::collections::BTreeSet;
use std::marker::Model;

/// The bytes of the shortest row, `A,treasury,A,1,1`, and of the line feed behind it.
const SHORTEST_ROW: usize = 17;

/// As many rows as a register file of so many bytes can have.
pub(crate) fn most_rows_in(bytes: usize) -> usize {
    (bytes / SHORTEST_ROW).min(MOST_ROWS)
}

pub(crate) fn is_register_header(fields: &ByteRecord) -> bool
    ensures { result ≡ is_register_header (fields_of fields.now) }
{
    fields.len() == 5
        && column(fields, 0) == b"member".as_slice()
        && column(fields, 1) == b"kind".as_slice()
        && column(fields, 2) == b"name".as_slice()
        && column(fields, 3) == b"shares".as_slice()
        && column(fields, 4) == b"paid".as_slice()
}

fn is_word_for(kind: HolderKind, bytes: &[u8]) -> bool
    ensures { result ≡ bytes_eq bytes.now (holder_kind_word kind) }
{
    bytes == kind.word().as_bytes()
}

fn read_kind(bytes: &[u8]) -> Option<HolderKind>
    ensures { result ≡ holder_kind_of bytes.now }
{
    if is_word_for(HolderKind::Individual, bytes) {
        Some(HolderKind::Individual)
    } else if is_word_for(HolderKind::Corporation, bytes) {
        Some(HolderKind::Corporation)
    } else if is_word_for(HolderKind::Treasury, bytes) {
        Some(HolderKind::Treasury)
    } else {
        None
    }
}

fn read_text(alloc: Global, line: u64, bytes: &[u8]) -> Result<Text, FileError>
    ensures text { FileAgrees id result
        (ok_or (text_of bytes.now) (FileError.BadRow line Why.Name)) }
    ensures memory { (result ≡ Err FileError.Memory) → text_of bytes.now ≢ None }
{
    match Text::new(alloc, bytes) {
        Ok(text) => Ok(text),
        Err(TextFault::Form) => Err(FileError::BadRow {
            line,
            why: Why::Name,
        }),
        Err(TextFault::Memory) => Err(FileError::Memory),
    }
}

/// The row that a record spells by itself.
#[tactic(auto, unfolding(crate::specs::RegisterFiles::row_in))]
fn row_in(alloc: Global, line: u64, fields: &ByteRecord) -> Result<RegisterRow, FileError>
    ensures row { FileAgrees id result (row_in line (fields_of fields.now)) }
    ensures holding { IfOk result (λ row. IsTrue (is_holding row)) }
{
    let bad = |why| FileError::BadRow { line, why };
    if fields.len() != 5 {
        return Err(bad(Why::Fields));
    }
    let member = read_party(column(fields, 0)).ok_or(bad(Why::Member))?;
    let kind = read_kind(column(fields, 1)).ok_or(bad(Why::Kind))?;
    let name = read_text(alloc, line, column(fields, 2))?;
    let shares = within(1, MOST_PLACES, read_number(column(fields, 3))).ok_or(bad(Why::Shares))?;
    let paid = within(0, MOST_PENCE, read_number(column(fields, 4))).ok_or(bad(Why::Paid))?;
    Ok(RegisterRow {
        member,
        kind,
        name,
        shares,
        paid,
    })
}

/// The row that a record spells by itself, behind so many rows.
#[tactic(auto, unfolding(crate::specs::RegisterFiles::parsed_row_after))]
pub(crate) fn next_spelled(
    alloc: Global,
    line: u64,
    count: usize,
    fields: &ByteRecord,
) -> Result<RegisterRow, FileError>
    ensures row { FileAgrees id result (parsed_row_after line count (fields_of fields.now)) }
    ensures holding { IfOk result (λ row. IsTrue (is_holding row)) }
    ensures room { IfOk result (λ row. count < MOST_ROWS) }
{
    if count >= MOST_ROWS {
        return Err(FileError::BadRow {
            line,
            why: Why::Rows,
        });
    }
    row_in(alloc, line, fields)
}

/// The rows of a register so far, the members that they name, and all their shares.
#[derive(Drop)]
struct RowsSoFar {
    rows: Vec<RegisterRow>,
    members: BTreeSet<Party>,
    total: u64,
}

impl Model for RowsSoFar {
    ghost use Rattle.std.specs.Prelude.{List};
    ghost use Rattle.desk_words.specs.declared.records.RegisterRow.{RegisterRow};
    ghost use Rattle.csv_import.specs.GatheredRows.{HasGatheredRows};

    ghost Value = { List RegisterRow };

    ghost view = { λ a. a.rows.items };

    ghost invariant = { λ a. HasGatheredRows a.rows.items a.members a.total };
}

impl Gather for RowsSoFar {
    ghost use Rattle.desk_words.specs.declared.records.RegisterRow.{RegisterRow};
    ghost use Rattle.csv_import.specs.RegisterFiles.{is_register_header, next_row};

    ghost Row = { RegisterRow };

    ghost seen = { λ so_far. so_far };

    ghost names_columns = { is_register_header };

    ghost row_after = { next_row };

    fn is_header(fields: &ByteRecord) -> bool {
        is_register_header(fields)
    }

    fn none(alloc: Global, bytes: usize) -> Result<RowsSoFar, AllocError> {
        Ok(RowsSoFar {
            rows: Vec::with_capacity(alloc, most_rows_in(bytes))?,
            members: BTreeSet::new(alloc),
            total: 0,
        })
    }

    fn with_record(self, alloc: Global, fields: &ByteRecord) -> Result<RowsSoFar, FileError> {
        with_row(alloc, self, fields)
    }
}

/// The rows so far, and that of one record more.
#[tactic(auto, unfolding(crate::specs::RegisterFiles::next_row))]
fn with_row(alloc: Global, so_far: RowsSoFar, fields: &ByteRecord) -> Result<RowsSoFar, FileError>
    ensures { FileAgrees id result (one_row_more next_row so_far (fields_of fields.now)) }
{
    let RowsSoFar {
        mut rows,
        mut members,
        total,
    } = so_far;
    let count = rows.len();
    let line = count as u64 + 2;
    let row = next_spelled(alloc, line, count, fields)?;
    if !members.insert(row.member)? {
        return Err(FileError::Twice { line });
    }
    let total = total + row.shares;
    if total > MOST_SHARES {
        return Err(FileError::BadRow {
            line,
            why: Why::Total,
        });
    }
    rows.push(row)?;
    Ok(RowsSoFar {
        rows,
        members,
        total,
    })
}

/// The register of the rows, of which there must be one.
fn as_register(so_far: RowsSoFar) -> Result<Register, FileError>
    ensures register { FileAgrees id result (as_register so_far) }
    ensures no_memory { (result ≡ Err FileError.Memory) → ⊥ }
{
    let RowsSoFar { rows, .. } = so_far;
    match Register::new(rows) {
        Ok(register) => Ok(register),
        Err(ListFault::Limit) => Err(FileError::BadRow {
            line: 1,
            why: Why::Rows,
        }),
        Err(ListFault::Memory) => unreachable!(),
    }
}

/// The register that the bytes of a file spell, or its first fault, row by row.
fn judged_register(alloc: Global, bytes: &[u8]) -> Result<Register, FileError>
    ensures { FileAgrees id result (register_file bytes.now) }
{
    match rows_under_header(alloc, bytes) {
        Ok(so_far) => as_register(so_far),
        Err(fault) => Err(fault),
    }
}

/// The register that the bytes of a file spell, or its first fault. Only a file with a fault is
/// gone through row by row, to find the first row at fault.
fn register_in(alloc: Global, bytes: &[u8]) -> Result<Register, FileError>
    ensures { FileAgrees id result (register_file bytes.now) }
{
    match faultless_register(alloc, bytes)? {
        Some(register) => Ok(register),
        None => judged_register(alloc, bytes),
    }
}

/// Reads the register that a file spells: a header `member,kind,name,shares,paid`, and under it a
/// row for each holding (section 113), in the form of CSV.
///
/// The file has at most 16,777,216 bytes. The first fault of the first faulty record is answered,
/// and of a record in the order of `Why`: `Rows` for the row after the 20,000th, then `Fields`,
/// `Member`, `Kind`, `Name`, `Shares`, `Paid`, `Twice`, and `Total`. `Rows` at line 1 says that
/// there is no row. `ReadFault` says that a read failed or that more bytes came, of which it takes
/// one; `Memory`, that an allocation was refused.
pub fn read_register<S: Source>(alloc: Global, source: &mut S) -> Result<Register, FileError>
    ensures spelled { IfRecordsRead result
        ((bytes : List ℕ) × HasReceived bytes (S.remaining source.old) (S.passed source.old)
        (S.passed source.new) × FileAgrees id result (register_file bytes)) }
    ensures whole { IfRecordsRead result
        (IsReadWhole FILE_LIMIT (S.remaining source.old) (S.remaining source.new)
        (S.passed source.old) (S.passed source.new) (S.failures source.old)
        (S.failures source.new)) }
    ensures cause { IfErr result
        (λ fault. IsReadCause fault FILE_LIMIT (S.passed source.old) (S.passed source.new)
        (S.failures source.old) (S.failures source.new)) }
    ensures bound { S.passed source.new ≤ S.passed source.old + FILE_LIMIT + 1 }
{
    let bytes = match read_whole(alloc, source, FILE_LIMIT) {
        Ok(bytes) => bytes,
        Err(fault) => return Err(fault),
    };
    register_in(alloc, &bytes)
}
