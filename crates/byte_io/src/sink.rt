//! What bytes are written to.
ghost use Rattle.std.specs.Prelude.{◌≡◌, ℕ, ◌<◌, ◌≤◌, List, Option, length, take, IfOk, OnOk, OnErr};
ghost use Rattle.std.specs.Io.KnownBytes.{Appends, Keeps};
ghost use Rattle.byte_io.specs.Counts.{one_more};
ghost use Rattle.byte_io.specs.Written.{AppendsPrefix};

use crate::failure::DeviceError;

/// What bytes are written to, in order.
pub trait Sink {
    /// All that was written so far, or `None` where that is not known, which claims nothing.
    ghost contents: { Self → Option (List ℕ) };

    /// How many of its calls have failed so far. The count stays at `u64::MAX` once it is there.
    ghost failures: { Self → ℕ };

    /// Writes bytes from the front of `bytes`, and returns how many it took.
    ///
    /// Of one byte or more it takes one at least: a write that takes none is a failure. After an
    /// error nothing was written.
    fn write(&mut self, bytes: &[u8]) -> Result<usize, DeviceError>
        ensures bound { IfOk result (λ n. n ≤ length bytes.now) }
        ensures written { IfOk result
            (λ n. Appends (contents self.old) (contents self.new) (take n bytes.now)) }
        ensures moves { IfOk result (λ n. 0 < length bytes.now → 0 < n) }
        ensures works { OnOk result (failures self.new ≡ failures self.old) }

        ensures failed { OnErr result (failures self.new ≡ one_more (failures self.old)) }
        ensures none_written { OnErr result (Keeps (contents self.old) (contents self.new)) };
}

impl<W: Sink> Sink for &mut W {
    ghost contents = { λ w. W.contents w.now };

    ghost failures = { λ w. W.failures w.now };

    fn write(&mut self, bytes: &[u8]) -> Result<usize, DeviceError> {
        Sink::write(&mut **self, bytes)
    }
}

/// Writes all the bytes, by as many calls as the sink needs.
///
/// An error is one failed call of the sink. The bytes that were written before it stay written, and
/// are never all.
pub fn write_all<W: Sink>(sink: &mut W, bytes: &[u8]) -> Result<(), DeviceError>
    ensures written { OnOk result (Appends (W.contents sink.old) (W.contents sink.new) bytes.now) }
    ensures works { OnOk result (W.failures sink.new ≡ W.failures sink.old) }
    ensures failed { OnErr result (W.failures sink.new ≡ one_more (W.failures sink.old)) }
    ensures partly { OnErr result
        (AppendsPrefix (W.contents sink.old) (W.contents sink.new) bytes.now) }
{
    let mut rest = bytes;
    while !rest.is_empty() {
        let count = sink.write(rest)?;
        rest = &rest[count..];
    }
    Ok(())
}
