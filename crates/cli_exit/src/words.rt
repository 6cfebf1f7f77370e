//! Why the words of the program ask for nothing.

/// Why the words ask for nothing. The faults are found in this order.
#[derive(Drop)]
pub enum WordsFault {
    /// The words are not those of a command, or they ask for help. It holds the text to print,
    /// which ends with a line feed.
    Words(String),
    /// The word for the meeting is not the name of one.
    Meeting,
    /// The word for the record moment is no moment.
    Record,
    /// The zone is no POSIX rule.
    Zone,
    /// An allocation was refused.
    Memory,
}
