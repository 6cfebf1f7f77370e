//! Why the file of a desk is not made or opened.

/// Why the file of a desk is not made or opened.
#[derive(Clone, Copy, PartialEq, Eq)]
pub enum DeskFileError {
    /// It holds something, or the log of a desk stands beside its name.
    NotEmpty,
    /// It is no desk.
    NotADesk,
    /// It was written by a later version of the program.
    NewerVersion,
    /// It cannot be opened, read or written.
    Store,
    /// An allocation was refused.
    Memory,
}
