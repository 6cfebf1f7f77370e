//! The errors of devices, and the count of failures.
ghost use Rattle.std.specs.Prelude.{◌≡◌};
ghost use Rattle.byte_io.specs.Counts.{one_more};

use std::error::Error;
use std::fmt;

/// A call of a reader or a writer failed. The device counts it.
#[derive(Clone, Copy, Debug, PartialEq, Eq)]
pub struct DeviceError;

impl fmt::Display for DeviceError {
    fn fmt<W: fmt::Write>(&self, f: &mut fmt::Formatter<W>) -> fmt::Result {
        f.write_str("a device failed")
    }
}

impl Error for DeviceError {}

/// A call of a reader failed before a buffer was full. The device counts it as a `DeviceError`.
#[derive(Clone, Copy, Debug, PartialEq, Eq)]
pub struct FillError {
    /// How many bytes came before the failure. They stand at the front of the buffer.
    pub filled: usize,
}

impl fmt::Display for FillError {
    fn fmt<W: fmt::Write>(&self, f: &mut fmt::Formatter<W>) -> fmt::Result {
        f.write_str("a device failed before the buffer was full")
    }
}

impl Error for FillError {}

/// Why a text was not printed.
#[derive(Clone, Copy, PartialEq, Eq)]
pub enum PrintError {
    /// A write failed. What was written is a part of the text from its front, and never all of it.
    WriteFault,
    /// An allocation was refused. Nothing was written.
    Memory,
}

/// The count of failures after one more. It stays at `u64::MAX`.
pub(crate) fn counted(failures: u64) -> u64
    ensures { result ≡ one_more failures }
{
    failures.saturating_add(1)
}
