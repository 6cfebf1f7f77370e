//! The line that the program prints as it ends.
ghost use Rattle.std.specs.Prelude.{Some};
ghost use Rattle.cli_exit.specs.Endings.{line_text};

use csv_import::Why;
use std::fmt;
use vocabulary::Refusal;

/// The line that the program prints as it ends, without its line feed; what the reader of the words
/// says ends with one. It is written with no memory.
#[derive(Drop)]
pub enum Line {
    /// A name by itself.
    Name(&'static str),
    /// A request that the desk refuses.
    Refused(Refusal),
    /// A record or a line of a file that is not what it must be.
    BadRow { line: u64, why: Why },
    /// A member, a party or a key that stands twice in a file.
    Twice { line: u64 },
    /// What the reader of the words says.
    Words(String),
}

impl fmt::Display for Line {
    ghost output = { λ line. Some (line_text line) };

    fn fmt<W: fmt::Write>(&self, f: &mut fmt::Formatter<W>) -> fmt::Result {
        match self {
            Line::Name(name) => write!(f, "{name}"),
            Line::Refused(refusal) => {
                write!(f, "refused {} {}", refusal.number(), refusal.name())
            }
            Line::BadRow { line, why } => write!(f, "BadRow {line} {}", why.word()),
            Line::Twice { line } => write!(f, "Twice {line}"),
            Line::Words(text) => write!(f, "{text}"),
        }
    }
}
