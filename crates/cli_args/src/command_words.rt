//! The words that are given to a command.

/// The words that are given to a command, each by what it stands for.
#[derive(Clone, Copy)]
pub struct CommandWords<'a> {
    /// The file of the desk.
    pub file: Option<&'a str>,
    /// A file of keys, or of a register.
    pub csv: Option<&'a str>,
    /// A file of closed days.
    pub txt: Option<&'a str>,
    /// The name of a meeting.
    pub meeting: Option<&'a str>,
    /// The record moment of a meeting.
    pub record_moment: Option<&'a str>,
    /// The port to listen on.
    pub port: Option<&'a str>,
    /// How many requests are served.
    pub requests: Option<&'a str>,
    /// The zone of the office's wall clock, as a POSIX rule.
    pub zone: Option<&'a str>,
}
