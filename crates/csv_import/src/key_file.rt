//! Key files.
ghost use Rattle.std.specs.Prelude.{◌≡◌, ℕ, ◌+◌, ◌≤◌, List, Err, IfErr};
ghost use Rattle.vocabulary.specs.Identity.{id};
ghost use Rattle.csv.specs.Records.{fields_of};
ghost use Rattle.csv_import.specs.FileErrors.{FileAgrees, IfRecordsRead};
ghost use Rattle.csv_import.specs.KeyFiles.{is_key_header, key_in, next_key, as_key_list, key_file};
ghost use Rattle.csv_import.specs.CsvTables.{one_row_more};
ghost use Rattle.csv_import.specs.WholeFiles.{IsReadCause, HasReceived, IsReadWhole};
ghost use Rattle.csv_import.specs.declared.fault.FileError.TheVariants.{Memory};

use crate::columns::column;
use crate::fault::{FileError, Why};
use crate::table::{Gather, rows_under_header};
use crate::whole::{FILE_LIMIT, read_whole};
use byte_io::Source;
use csv::ByteRecord;
use desk_words::limits::MOST_KEYS;
use desk_words::{KeyRow, KeyRows, ListFault, Party, SecretKey, read_caller, read_key};
use std::alloc::{AllocError, Global};
use std::collections::BTreeSet;
use std::marker::Model;

/// The bytes of the shortest row, a party of one letter and a key of 16, and of the line feed
/// behind it.
const SHORTEST_ROW: usize = 19;

/// As many keys as a key file of so many bytes can have.
fn most_keys_in(bytes: usize) -> usize {
    (bytes / SHORTEST_ROW).min(MOST_KEYS)
}

fn is_key_header(fields: &ByteRecord) -> bool
    ensures { result ≡ is_key_header (fields_of fields.now) }
{
    fields.len() == 2
        && column(fields, 0) == b"party".as_slice()
        && column(fields, 1) == b"key".as_slice()
}

/// The key that a record spells by itself.
#[tactic(auto, unfolding(crate::specs::KeyFiles::key_in))]
fn key_in(line: u64, fields: &ByteRecord) -> Result<KeyRow, FileError>
    ensures key { FileAgrees id result (key_in line (fields_of fields.now)) }
    ensures no_memory { (result ≡ Err Memory) → ⊥ }
{
    let bad = |why| FileError::BadRow { line, why };
    if fields.len() != 2 {
        return Err(bad(Why::Fields));
    }
    let caller = read_caller(column(fields, 0)).ok_or(bad(Why::Party))?;
    let secret = read_key(column(fields, 1)).ok_or(bad(Why::Key))?;
    Ok(KeyRow { caller, secret })
}

/// The keys so far, and the callers and the keys that they name.
#[derive(Drop)]
struct KeysSoFar {
    rows: Vec<KeyRow>,
    callers: BTreeSet<Option<Party>>,
    secrets: BTreeSet<SecretKey>,
}

impl Model for KeysSoFar {
    ghost use Rattle.std.specs.Prelude.{List};
    ghost use Rattle.desk_words.specs.declared.caller.KeyRow.{KeyRow};
    ghost use Rattle.csv_import.specs.GatheredRows.{HasGatheredKeys};

    ghost Value = { List KeyRow };

    ghost view = { λ a. a.rows.items };

    ghost invariant = { λ a. HasGatheredKeys a.rows.items a.callers a.secrets };
}

impl Gather for KeysSoFar {
    ghost use Rattle.desk_words.specs.declared.caller.KeyRow.{KeyRow};
    ghost use Rattle.csv_import.specs.KeyFiles.{is_key_header, next_key};

    ghost Row = { KeyRow };

    ghost seen = { λ so_far. so_far };

    ghost names_columns = { is_key_header };

    ghost row_after = { next_key };

    fn is_header(fields: &ByteRecord) -> bool {
        is_key_header(fields)
    }

    fn none(alloc: Global, bytes: usize) -> Result<KeysSoFar, AllocError> {
        Ok(KeysSoFar {
            rows: Vec::with_capacity(alloc, most_keys_in(bytes))?,
            callers: BTreeSet::new(alloc),
            secrets: BTreeSet::new(alloc),
        })
    }

    fn with_record(self, _alloc: Global, fields: &ByteRecord) -> Result<KeysSoFar, FileError> {
        with_key(self, fields)
    }
}

/// The keys so far, and that of one record more.
#[tactic(auto, unfolding(crate::specs::KeyFiles::next_key))]
fn with_key(so_far: KeysSoFar, fields: &ByteRecord) -> Result<KeysSoFar, FileError>
    ensures { FileAgrees id result (one_row_more next_key so_far (fields_of fields.now)) }
{
    let KeysSoFar {
        mut rows,
        mut callers,
        mut secrets,
    } = so_far;
    let line = rows.len() as u64 + 2;
    if rows.len() >= MOST_KEYS {
        return Err(FileError::BadRow {
            line,
            why: Why::Rows,
        });
    }
    let row = key_in(line, fields)?;
    if !callers.insert(row.caller.party())? {
        return Err(FileError::Twice { line });
    }
    if !secrets.insert(row.secret)? {
        return Err(FileError::Twice { line });
    }
    rows.push(row)?;
    Ok(KeysSoFar {
        rows,
        callers,
        secrets,
    })
}

fn as_key_list(so_far: KeysSoFar) -> Result<KeyRows, FileError>
    ensures keys { FileAgrees id result (as_key_list so_far) }
    ensures no_memory { (result ≡ Err Memory) → ⊥ }
{
    let KeysSoFar { rows, .. } = so_far;
    match KeyRows::new(rows) {
        Ok(keys) => Ok(keys),
        // No key of those so far breaks a limit or stands twice.
        Err(ListFault::Limit) => Err(FileError::BadRow {
            line: 1,
            why: Why::Rows,
        }),
        Err(ListFault::Memory) => unreachable!(),
    }
}

/// The keys that the bytes of a file spell, or its first fault.
fn keys_in(alloc: Global, bytes: &[u8]) -> Result<KeyRows, FileError>
    ensures { FileAgrees id result (key_file bytes.now) }
{
    match rows_under_header(alloc, bytes) {
        Ok(so_far) => as_key_list(so_far),
        Err(fault) => Err(fault),
    }
}

/// Reads the keys that a file spells: a header `party,key`, and under it a row for each party, or
/// for `OFFICE`, with its key, in the form of CSV. There may be no row.
///
/// The file has at most 16,777,216 bytes. The first fault of the first faulty record is answered,
/// and of a record in this order: `Rows` for the row after the 40,000th, then `Fields`, `Party`,
/// `Key`, and `Twice`, where the party or the key stands in an earlier record. `ReadFault` says
/// that a read failed or that more bytes came, of which it takes one; `Memory`, that an allocation
/// was refused.
pub fn read_keys<S: Source>(alloc: Global, source: &mut S) -> Result<KeyRows, FileError>
    ensures spelled { IfRecordsRead result
        ((bytes : List ℕ) × HasReceived bytes (S.remaining source.old) (S.passed source.old)
        (S.passed source.new) × FileAgrees id result (key_file bytes)) }
    ensures whole { IfRecordsRead result
        (IsReadWhole FILE_LIMIT (S.remaining source.old) (S.remaining source.new)
        (S.passed source.old) (S.passed source.new) (S.failures source.old)
        (S.failures source.new)) }
    ensures cause { IfErr result
        (λ fault. IsReadCause fault FILE_LIMIT (S.passed source.old) (S.passed source.new)
        (S.failures source.old) (S.failures source.new)) }
    ensures bound { S.passed source.new ≤ S.passed source.old + FILE_LIMIT + 1 }
{
    let bytes = match read_whole(alloc, source, FILE_LIMIT) {
        Ok(bytes) => bytes,
        Err(fault) => return Err(fault),
    };
    keys_in(alloc, &bytes)
}
