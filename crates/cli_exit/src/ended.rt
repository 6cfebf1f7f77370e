//! How the program ends.
ghost use Rattle.std.specs.Prelude.{◌≡◌};
ghost use Rattle.cli_exit.specs.Endings.{ended_view, success, ending, fault_word, ended_by, ended_by_failure, ended_by_refusal, ended_by_file, ended_by_print, ended_by_words};

use crate::line::Line;
use crate::words::WordsFault;
use byte_io::PrintError;
use csv_import::FileError;
use desk_words::Failure;
use vocabulary::Refusal;

/// How the program ends: its status, and the line that it prints, if any: with status 0 on standard
/// output, else on standard error.
#[derive(Drop)]
pub struct Ended {
    pub status: u8,
    pub line: Option<Line>,
}

/// What fails of the desk's file and of the devices that the program works with.
#[derive(Clone, Copy, PartialEq, Eq)]
pub enum ExitError {
    /// The desk's file cannot be opened, read or written.
    Store,
    /// An allocation was refused.
    Memory,
    /// The file is no desk.
    NotADesk,
    /// The desk was written by a later version of the program.
    NewerVersion,
    /// The file of a new desk is not empty.
    NotEmpty,
    /// A file or standard input cannot be read, or has more bytes than it may have.
    ReadFault,
    /// Standard output cannot be written.
    WriteFault,
    /// A socket fails.
    Socket,
    /// The clock cannot be read, or shows a moment before 1900 or after 2999.
    Clock,
}

impl ExitError {
    /// The word for it.
    pub fn word(self) -> &'static str
        ensures { result.now ≡ fault_word self }
    {
        match self {
            ExitError::Store => "Store",
            ExitError::Memory => "Memory",
            ExitError::NotADesk => "NotADesk",
            ExitError::NewerVersion => "NewerVersion",
            ExitError::NotEmpty => "NotEmpty",
            ExitError::ReadFault => "ReadFault",
            ExitError::WriteFault => "WriteFault",
            ExitError::Socket => "Socket",
            ExitError::Clock => "Clock",
        }
    }
}

impl Ended {
    /// The end of a command that did its work: status 0, and no line.
    pub fn done() -> Ended
        ensures { ended_view result ≡ success }
    {
        Ended {
            status: 0,
            line: None,
        }
    }

    /// The end of a command that did its work and says so: status 0, and the word.
    pub fn with_word(word: &'static str) -> Ended
        ensures { ended_view result ≡ ending 0 word.now }
    {
        Ended {
            status: 0,
            line: Some(Line::Name(word)),
        }
    }

    /// A fault ends with status 3 and its word.
    pub fn by(fault: ExitError) -> Ended
        ensures { ended_view result ≡ ended_by fault }
    {
        Ended {
            status: 3,
            line: Some(Line::Name(fault.word())),
        }
    }

    /// A call without an answer ends as its fault: the store failed, or memory ran out.
    pub fn by_failure(failure: Failure) -> Ended
        ensures { ended_view result ≡ ended_by_failure failure }
    {
        match failure {
            Failure::Store => Ended::by(ExitError::Store),
            Failure::Memory => Ended::by(ExitError::Memory),
        }
    }

    /// A refusal ends with status 1, and `refused` with its number and its name.
    pub fn by_refusal(refusal: Refusal) -> Ended
        ensures { ended_view result ≡ ended_by_refusal refusal }
    {
        Ended {
            status: 1,
            line: Some(Line::Refused(refusal)),
        }
    }

    /// A fault of a file that is handed in ends with status 3, and its line and cause.
    pub fn by_file(fault: FileError) -> Ended
        ensures { ended_view result ≡ ended_by_file fault }
    {
        match fault {
            FileError::BadRow { line, why } => Ended {
                status: 3,
                line: Some(Line::BadRow { line, why }),
            },
            FileError::Twice { line } => Ended {
                status: 3,
                line: Some(Line::Twice { line }),
            },
            FileError::ReadFault => Ended::by(ExitError::ReadFault),
            FileError::Memory => Ended::by(ExitError::Memory),
        }
    }

    /// A fault of the printing of results ends with status 3 and its word.
    pub fn by_print(fault: PrintError) -> Ended
        ensures { ended_view result ≡ ended_by_print fault }
    {
        match fault {
            PrintError::WriteFault => Ended::by(ExitError::WriteFault),
            PrintError::Memory => Ended::by(ExitError::Memory),
        }
    }

    /// Words that ask for nothing end with status 2, and the text of their reader, or `meeting`,
    /// `record` or `zone`; want of memory ends with status 3.
    pub fn by_words(fault: WordsFault) -> Ended
        ensures { ended_view result ≡ ended_by_words fault }
    {
        let line = match fault {
            WordsFault::Memory => return Ended::by(ExitError::Memory),
            WordsFault::Words(text) => Line::Words(text),
            WordsFault::Meeting => Line::Name("meeting"),
            WordsFault::Record => Line::Name("record"),
            WordsFault::Zone => Line::Name("zone"),
        };
        Ended {
            status: 2,
            line: Some(line),
        }
    }
}
