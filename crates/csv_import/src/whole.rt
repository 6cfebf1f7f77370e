//! The reading of a whole file.
ghost use Rattle.std.specs.Prelude.{◌≡◌, ℕ, ◌+◌, ◌≤◌, length, IfOk, IfErr};
ghost use Rattle.csv_import.specs.WholeFiles.{IsReadCause, HasReceived, IsOfReading, IsReadWhole};

use crate::fault::FileError;
use byte_io::{FillError, Source, read_to_fill};
use std::alloc::Global;

/// The most bytes of a register file or a key file.
pub const FILE_LIMIT: usize = 16_777_216;

/// The most bytes of a file of closed days.
pub const DAY_FILE_LIMIT: usize = 65_536;

/// How many bytes are read at a time.
const CHUNK: usize = 65_536;

/// Reads all bytes of a source. The error is `ReadFault` where a read failed or one byte more came
/// than the limit, and never more than that one byte is taken; else it is `Memory`.
pub(crate) fn read_whole<S: Source>(
    alloc: Global,
    source: &mut S,
    limit: usize,
) -> Result<Vec<u8>, FileError>
    requires { limit ≤ FILE_LIMIT }
    ensures whole { IfOk result
        (λ bytes. IsReadWhole limit (S.remaining source.old) (S.remaining source.new)
        (S.passed source.old) (S.passed source.new) (S.failures source.old)
        (S.failures source.new)) }
    ensures few { IfOk result (λ bytes. length bytes.items ≤ limit) }
    ensures bytes { IfOk result
        (λ bytes. HasReceived bytes.items (S.remaining source.old) (S.passed source.old)
        (S.passed source.new)) }
    ensures cause { IfErr result
        (λ fault. IsOfReading fault
        × IsReadCause fault limit (S.passed source.old) (S.passed source.new)
        (S.failures source.old) (S.failures source.new)) }
    ensures bound { S.passed source.new ≤ S.passed source.old + limit + 1 }
{
    let mut bytes = Vec::new(alloc);
    let mut chunk = [0; CHUNK];
    while bytes.len() <= limit {
        let most = CHUNK.min(limit + 1 - bytes.len());
        match read_to_fill(source, &mut chunk[..most]) {
            Ok(count) => {
                bytes.extend_from_slice(&chunk[..count])?;
                if count < most {
                    return Ok(bytes);
                }
            }
            Err(FillError { .. }) => return Err(FileError::ReadFault),
        }
    }
    Err(FileError::ReadFault)
}
