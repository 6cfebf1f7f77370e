//! What a call of the line reader answers.
use byte_io::DeviceError;
use std::error::Error;
use std::fmt;

/// What stands next in the input.
#[derive(Clone, Copy, PartialEq, Eq)]
pub enum NextLine {
    /// A line of at most 65,536 bytes, which the reader shows.
    Whole,
    /// A line of more than 65,536 bytes, which was passed over.
    TooLong,
    /// No further line.
    End,
}

/// Why the input could not be read on.
#[derive(Clone, Copy, Debug, PartialEq, Eq)]
pub enum ReadFault {
    /// A call of the source failed.
    Device,
    /// The input has more than 16,777,216 bytes.
    TooMuch,
}

impl From<DeviceError> for ReadFault {
    ghost use Rattle.std.specs.Prelude.{◌≡◌};
    ghost use Rattle.line_reader.specs.declared.outcome.ReadFault.{ReadFault};

    ghost from_gives = { λ _ fault. fault ≡ ReadFault.Device };

    fn from(_: DeviceError) -> ReadFault {
        ReadFault::Device
    }
}

impl fmt::Display for ReadFault {
    fn fmt<W: fmt::Write>(&self, f: &mut fmt::Formatter<W>) -> fmt::Result {
        f.write_str(match self {
            ReadFault::Device => "the input could not be read",
            ReadFault::TooMuch => "the input is too long",
        })
    }
}

impl Error for ReadFault {}
