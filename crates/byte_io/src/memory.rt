//! Sources and sinks over memory.
ghost use Rattle.std.specs.Prelude.{◌≡◌, ℕ, ◌≤◌, [], length, drop, Some};

use crate::failure::{DeviceError, counted};
use crate::sink::Sink;
use crate::source::Source;
use std::alloc::Global;
use std::marker::Model;

/// A source over bytes in memory. It gives all that is left or as much as fits, and never fails.
#[derive(Drop)]
pub struct SliceSource<'a> {
    bytes: &'a [u8],
    next: usize,
}

impl<'a> Model for SliceSource<'a> {
    ghost use Rattle.std.specs.Prelude.{◌≤◌, length, drop};
    ghost use Rattle.byte_io.specs.Memory.{SourceState};

    ghost Value = { SourceState };

    ghost view = { λ s. record { bytes = drop s.next s.bytes.now; passed = s.next } };

    ghost invariant = { λ s. s.next ≤ length s.bytes.now };
}

impl<'a> SliceSource<'a> {
    /// A source that gives these bytes from the first on.
    pub fn new(bytes: &'a [u8]) -> SliceSource<'a>
        ensures unread { result.bytes ≡ bytes.entry.now }
        ensures passed { result.passed ≡ 0 }
    {
        SliceSource { bytes, next: 0 }
    }
}

impl Source for SliceSource<'_> {
    ghost remaining = { λ s. Some s.bytes };

    ghost passed = { λ s. s.passed };

    ghost failures = { λ _. 0 };

    fn read(&mut self, buffer: &mut [u8]) -> Result<usize, DeviceError> {
        let rest = &self.bytes[self.next..];
        let count = rest.len().min(buffer.len());
        buffer[..count].copy_from_slice(&rest[..count]);
        self.next += count;
        Ok(count)
    }
}

/// A sink that keeps all the bytes in memory. A want of memory is a failure of the sink.
#[derive(Drop)]
pub struct VecSink {
    bytes: Vec<u8>,
    failures: u64,
}

impl Model for VecSink {
    ghost use Rattle.byte_io.specs.Memory.{Stored};

    ghost Value = { Stored };

    ghost view = { λ s. record { bytes = s.bytes.items; failures = s.failures } };
}

impl VecSink {
    /// An empty sink, which takes its memory from `alloc`.
    pub fn new(alloc: Global) -> VecSink
        ensures empty { result.bytes ≡ [] }
        ensures failures { result.failures ≡ 0 }
    {
        VecSink {
            bytes: Vec::new(alloc),
            failures: 0,
        }
    }

    /// All the bytes that were written.
    pub fn as_slice(&self) -> &[u8]
        ensures { result.now ≡ self.now.bytes }
    {
        self.bytes.as_slice()
    }
}

impl Sink for VecSink {
    ghost contents = { λ s. Some s.bytes };

    ghost failures = { λ s. s.failures };

    fn write(&mut self, bytes: &[u8]) -> Result<usize, DeviceError> {
        match self.bytes.extend_from_slice(bytes) {
            Ok(()) => Ok(bytes.len()),
            Err(_) => {
                self.failures = counted(self.failures);
                Err(DeviceError)
            }
        }
    }
}
