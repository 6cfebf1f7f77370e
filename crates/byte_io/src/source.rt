//! What bytes are read from.
ghost use Rattle.std.specs.Prelude.{◌≡◌, ℕ, ◌+◌, ◌<◌, ◌≤◌, List, Option, length, take, IfOk, OnOk, OnErr};
ghost use Rattle.std.specs.Io.KnownBytes.{Consumes, Keeps, IsAtEnd};
ghost use Rattle.byte_io.specs.Counts.{one_more};
ghost use Rattle.byte_io.specs.Filled.{count_read};

use crate::failure::{DeviceError, FillError};

/// What bytes are read from, in order, each once.
pub trait Source {
    /// The bytes that are still to come, or `None` where they are not known, which claims nothing.
    ghost remaining: { Self → Option (List ℕ) };

    /// How many bytes it has given so far.
    ghost passed: { Self → ℕ };

    /// How many of its calls have failed so far. The count stays at `u64::MAX` once it is there.
    ghost failures: { Self → ℕ };

    /// Reads into the front of the buffer, and returns how many bytes it read there.
    ///
    /// 0 says that the buffer is empty or that the source has ended. After an error the next call
    /// goes on where this one stood.
    fn read(&mut self, buffer: &mut [u8]) -> Result<usize, DeviceError>
        ensures bound { IfOk result (λ n. n ≤ length buffer.new) }
        ensures count { IfOk result (λ n. passed self.new ≡ passed self.old + n) }
        ensures bytes { IfOk result
            (λ n. Consumes (remaining self.old) (remaining self.new) (take n buffer.new)) }
        ensures end { IfOk result
            (λ n. n ≡ 0 → 0 < length buffer.old → IsAtEnd (remaining self.new)) }
        ensures works { OnOk result (failures self.new ≡ failures self.old) }

        // After an error nothing was read.
        ensures failed { OnErr result (failures self.new ≡ one_more (failures self.old)) }
        ensures none_passed { OnErr result (passed self.new ≡ passed self.old) }
        ensures none_lost { OnErr result (Keeps (remaining self.old) (remaining self.new)) };
}

impl<S: Source> Source for &mut S {
    ghost remaining = { λ s. S.remaining s.now };

    ghost passed = { λ s. S.passed s.now };

    ghost failures = { λ s. S.failures s.now };

    fn read(&mut self, buffer: &mut [u8]) -> Result<usize, DeviceError> {
        Source::read(&mut **self, buffer)
    }
}

/// Reads until the buffer is full or the source has ended, and returns how many bytes it read.
///
/// An error is one failed call of the source, and says how many bytes came before it. They stand at
/// the front of the buffer, and all others are still to come: a caller that goes on behind them
/// loses nothing.
pub fn read_to_fill<S: Source>(source: &mut S, buffer: &mut [u8]) -> Result<usize, FillError>
    // What was read, before a failure too.
    ensures bound { count_read result ≤ length buffer.new }
    ensures count { S.passed source.new ≡ S.passed source.old + count_read result }
    ensures bytes { Consumes (S.remaining source.old) (S.remaining source.new)
        (take (count_read result) buffer.new) }

    ensures end { IfOk result (λ n. n < length buffer.old → IsAtEnd (S.remaining source.new)) }
    ensures works { OnOk result (S.failures source.new ≡ S.failures source.old) }
    ensures failed { OnErr result (S.failures source.new ≡ one_more (S.failures source.old)) }
    ensures unfilled { OnErr result (count_read result < length buffer.new) }
{
    let mut filled = 0;
    while filled < buffer.len() {
        match source.read(&mut buffer[filled..]) {
            Ok(0) => break,
            Ok(count) => filled += count,
            Err(DeviceError) => return Err(FillError { filled }),
        }
    }
    Ok(filled)
}
