//! The streams that the program prints on.
ghost use Rattle.std.specs.Prelude.{◌≡◌, ◌<◌, true, false, [], length, OnOk, OnErr};
ghost use Rattle.std.specs.Io.KnownBytes.{Appends};
ghost use Rattle.byte_io.specs.Counts.{one_more};
ghost use Rattle.byte_io.specs.Written.{AppendsPrefix};
ghost use Rattle.host.specs.PrintedLines.{printed};

use byte_io::{DeviceError, Sink};
use cli_exit::Line;

/// Whether nothing is printed of a line, so that its printing cannot fail.
pub fn prints_nothing(line: &Line) -> bool
    ensures nothing { result ≡ true → printed line.now ≡ [] }
    ensures something { result ≡ false → 0 < length (printed line.now) }
{
    match line {
        Line::Words(text) => text.len() == 0,
        _ => false,
    }
}

/// A stream that lines are printed on, which needs no memory.
pub trait Console: Sink {
    /// Prints a line and its line feed. After an error a part of it from its front was printed.
    fn print_line(&mut self, line: &Line) -> Result<(), DeviceError>
        ensures printed { OnOk result
            (Appends (Self.contents self.old) (Self.contents self.new) (printed line.now)) }
        ensures works { OnOk result (Self.failures self.new ≡ Self.failures self.old) }
        ensures partly { OnErr result
            (AppendsPrefix (Self.contents self.old) (Self.contents self.new) (printed line.now)) }
        ensures failed { OnErr result
            (Self.failures self.new ≡ one_more (Self.failures self.old)) };
}
