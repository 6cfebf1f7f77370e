//! Sources and sinks over std's readers and writers: files, standard streams and sockets.
ghost use Rattle.std.specs.Prelude.{◌≡◌};

use crate::failure::{DeviceError, counted};
use crate::sink::Sink;
use crate::source::Source;
use std::io::{Read, Write};

/// A source over any reader of std. Its bytes are known where the reader's are.
///
/// Each error of the reader is a failure, an interrupted call too. After `u64::MAX` bytes each
/// read fails.
#[derive(Drop)]
pub struct ReadDevice<R> {
    pub inner: R,
    /// How many bytes it has given.
    pub passed: u64,
    /// How many reads have failed. It stays at `u64::MAX`.
    pub failures: u64,
}

impl<R> ReadDevice<R> {
    /// A source that goes on where the reader stands.
    pub fn new(inner: R) -> ReadDevice<R>
        ensures inner { result.inner ≡ inner }
        ensures passed { result.passed ≡ 0 }
        ensures failures { result.failures ≡ 0 }
    {
        ReadDevice {
            inner,
            passed: 0,
            failures: 0,
        }
    }
}

impl<R: Read> Source for ReadDevice<R> {
    ghost remaining = { λ d. R.remaining d.inner };

    ghost passed = { λ d. d.passed };

    ghost failures = { λ d. d.failures };

    fn read(&mut self, buffer: &mut [u8]) -> Result<usize, DeviceError> {
        let most = (u64::MAX - self.passed).min(buffer.len() as u64) as usize;
        if most > 0 || buffer.is_empty() {
            if let Ok(count) = self.inner.read(&mut buffer[..most]) {
                self.passed += count as u64;
                return Ok(count);
            }
        }
        self.failures = counted(self.failures);
        Err(DeviceError)
    }
}

/// A sink over any writer of std. What it holds is known where the writer's contents are.
///
/// Each error of the writer is a failure, an interrupted call too, and so is a write that takes
/// none of one byte or more. Nothing flushes the writer: give it one that keeps no bytes back.
#[derive(Drop)]
pub struct WriteDevice<W> {
    pub inner: W,
    /// How many writes have failed. It stays at `u64::MAX`.
    pub failures: u64,
}

impl<W> WriteDevice<W> {
    /// A sink that goes on where the writer stands.
    pub fn new(inner: W) -> WriteDevice<W>
        ensures inner { result.inner ≡ inner }
        ensures failures { result.failures ≡ 0 }
    {
        WriteDevice { inner, failures: 0 }
    }
}

impl<W: Write> Sink for WriteDevice<W> {
    ghost contents = { λ d. W.contents d.inner };

    ghost failures = { λ d. d.failures };

    fn write(&mut self, bytes: &[u8]) -> Result<usize, DeviceError> {
        match self.inner.write(bytes) {
            Ok(count) if count > 0 || bytes.is_empty() => Ok(count),
            _ => {
                self.failures = counted(self.failures);
                Err(DeviceError)
            }
        }
    }
}
