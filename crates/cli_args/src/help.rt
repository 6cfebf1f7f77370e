//! What the help of the program says.

pub(crate) const DESK: &str =
    "Keeps the desk of a company's general meetings: the register, proxies, polls and results.

A desk is one file. The office makes it once with `init`, loads keys, closed days and registers into it, and
lets parties reach it with `serve`. Each command ends with status 0 where it did its work; with 1 where the
desk refuses the request, which standard error names; with 2 where the words are wrong; and with 3 where a
file, memory, a socket or the clock fails.";

pub(crate) const INIT: &str =
    "Makes a new desk in a file that does not exist or is empty. Prints `created`.";

pub(crate) const KEYS: &str =
    "Loads the keys by which callers are known, in place of those held. The file is CSV as a spreadsheet saves
it: the line `party,key`, and then a line for each party, or for `OFFICE`, with its key of 16 to 64 letters,
digits and `-`. Prints `loaded`, or `same` where these are the keys held. A fault of the file ends with
status 3 and its line, as `BadRow 2 key` or `Twice 3`, and nothing is loaded.";

pub(crate) const DAYS: &str =
    "Loads the closed days, in place of those held: Christmas Day, Good Friday and the bank holidays (section
1173 of the Companies Act 2006). The file is text, a day such as 2026-12-25 on each line. Prints `loaded`,
or `same` where these are the days held. A line that is no day ends with status 3 and `BadRow` with its
number, and nothing is loaded.";

pub(crate) const REGISTER: &str =
    "Loads the register of members for a meeting, in place of the one held. The file is CSV as a spreadsheet
saves it: the line `member,kind,name,shares,paid`, and then a line for each holding. The kind is
`individual`, `corporation` or `treasury`; `paid` is the pence paid up on each share. Prints `loaded`, or
`same` where these are the rows held. A fault of the file ends with status 3 and its line, as
`BadRow 2 kind`, and nothing is loaded; a refusal ends with status 1, as `refused 20 Opened`.";

pub(crate) const SERVE: &str =
    "Serves the desk over HTTP, to this machine alone: listens on 127.0.0.1, prints `listening`, and answers one
connection after another, each with one request. It ends after as many as were asked for. While it runs, it
holds the file, and another command on the file ends with status 3 and `Store`. A port that cannot be had
ends with status 3 and `Socket`.";

pub(crate) const RESULTS: &str =
    "Prints the results of a meeting: the meeting, and each resolution with its state and, once its poll is
declared, the figures.";

pub(crate) const REPLAY: &str =
    "Answers a script of requests, line by line, from standard input on standard output, on a desk in memory
that is forgotten at the end.";

pub(crate) const FILE: &str = "The file of the desk";

pub(crate) const KEY_FILE: &str = "The file of keys";

pub(crate) const DAY_FILE: &str = "The file of closed days";

pub(crate) const REGISTER_FILE: &str = "The file of the register";

pub(crate) const MEETING: &str = "The name of the meeting: 1 to 16 of A to Z and 0 to 9";

pub(crate) const RECORD: &str = "The record moment of the meeting, as 2026-06-16T18:00:00";

pub(crate) const PORT: &str = "The port to listen on: 1 to 65535";

pub(crate) const REQUESTS: &str = "How many connections are answered: 1 to 1000000000";

pub(crate) const ZONE: &str = "The zone of the office's wall clock, as a POSIX rule";
