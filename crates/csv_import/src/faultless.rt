//! Registers without a fault, whose rows are looked at together once they stand in order.
ghost use Rattle.std.specs.Prelude.{◌≡◌, Ok, IfOk, IfSome, IsPermutation};
ghost use Rattle.csv_import.specs.RegisterFiles.{register_file};

use crate::fault::FileError;
use crate::register_file::{is_register_header, most_rows_in, next_spelled};
use crate::table::{Gather, rows_under_header};
use csv::ByteRecord;
use desk_words::{Register, RegisterRow};
use seq::ascend;
use std::alloc::{AllocError, Global};

/// The rows that records spell by themselves.
#[derive(Drop)]
struct SpelledRows {
    rows: Vec<RegisterRow>,
}

impl Gather for SpelledRows {
    ghost use Rattle.std.specs.Prelude.{length};
    ghost use Rattle.desk_words.specs.declared.records.RegisterRow.{RegisterRow};
    ghost use Rattle.csv_import.specs.RegisterFiles.{is_register_header, parsed_row_after};

    ghost Row = { RegisterRow };

    ghost seen = { λ spelled. spelled.rows.items };

    ghost names_columns = { is_register_header };

    ghost row_after = { λ line found fields. parsed_row_after line (length found) fields };

    fn is_header(fields: &ByteRecord) -> bool {
        is_register_header(fields)
    }

    fn none(alloc: Global, bytes: usize) -> Result<SpelledRows, AllocError> {
        Ok(SpelledRows {
            rows: Vec::with_capacity(alloc, most_rows_in(bytes))?,
        })
    }

    fn with_record(self, alloc: Global, fields: &ByteRecord) -> Result<SpelledRows, FileError> {
        let SpelledRows { mut rows } = self;
        let count = rows.len();
        let row = next_spelled(alloc, count as u64 + 2, count, fields)?;
        rows.push(row)?;
        Ok(SpelledRows { rows })
    }
}

/// A member's name as a number. Numbers stand in the order of the names, and are compared at once.
fn name_number(row: &RegisterRow) -> u128 {
    let name = row.member.as_str().as_bytes();
    let mut letters = [0; 16];
    let count = name.len().min(16);
    letters[..count].copy_from_slice(&name[..count]);
    u128::from_be_bytes(letters)
}

/// The same rows, in the order of members: that costs little here, and nothing where they stand so.
fn in_order(spelled: SpelledRows) -> Result<Vec<RegisterRow>, AllocError>
    ensures { IfOk result (λ rows. IsPermutation spelled.rows.items rows.items) }
{
    let SpelledRows { mut rows } = spelled;
    if !ascend(&rows) {
        rows.sort_by_cached_key(name_number)?;
    }
    Ok(rows)
}

/// The register that the bytes of a file spell, where it has no fault. Whether members stand twice
/// is seen of all rows together, once they are in order.
pub(crate) fn faultless_register(
    alloc: Global,
    bytes: &[u8],
) -> Result<Option<Register>, AllocError>
    ensures { IfOk result (λ found. IfSome found (λ register.
        register_file bytes.now ≡ Ok register)) }
{
    match rows_under_header::<SpelledRows>(alloc, bytes) {
        Ok(spelled) => {
            let rows = in_order(spelled)?;
            Ok(Register::new(rows).ok())
        }
        Err(FileError::Memory) => Err(AllocError),
        Err(_) => Ok(None),
    }
}
