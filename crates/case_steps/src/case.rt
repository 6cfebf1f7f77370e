//! The form of a case.
//!
//! `$ COMMAND` asks something, and `> LINE` makes a call, in the form of a line of a replay. Under
//! it `| LINE` gives a line with a line feed, `|| LINE` a line with CR LF, `+ TEXT` a text with no
//! line end, and `& EF BB BF` bytes. Right under one of these `* FROM TO` gives it once for each of
//! these numbers, which stands in place of each `#`, and `* TO` begins at 1. `= LINE` is a line of
//! the answer, and `~ LINE` a line that stands somewhere in it. Empty lines and lines that begin
//! with `#` are comment.
use crate::given::{Given, Numbers, Piece, bytes_of};
use std::alloc::{AllocError, Global};

/// A line that the answer has, and its number in the file.
#[derive(Clone, Copy)]
pub(crate) struct Expected<'a> {
    pub line: u64,
    pub text: &'a str,
    /// Whether it may stand anywhere in the answer.
    pub is_among: bool,
}

/// A step of a case: what is asked, what is given, and what the answer has to be.
#[derive(Drop)]
pub struct Step<'a> {
    pub(crate) line: u64,
    pub command: &'a str,
    /// What stands behind the command.
    pub words: &'a str,
    given: Vec<Given<'a>>,
    pub(crate) expected: Vec<Expected<'a>>,
}

/// The steps of a case, and the numbers of the lines that have no form or no place.
#[derive(Drop)]
pub struct Case<'a> {
    pub steps: Vec<Step<'a>>,
    pub(crate) misplaced: Vec<u64>,
    pub(crate) last_line: u64,
}

/// What a line of a case says.
#[derive(Clone, Copy)]
enum Line<'a> {
    Comment,
    Asks(&'a str, &'a str),
    Gives(Piece<'a>),
    Repeats(Numbers),
    Expects(&'a str),
    ExpectsAmong(&'a str),
    Unknown,
}

/// The first word, and what stands behind its space.
pub fn parted(text: &str) -> (&str, &str) {
    text.split_once(' ').unwrap_or((text, ""))
}

fn read_line(line: &str) -> Line<'_> {
    if line.is_empty() || line.starts_with('#') {
        return Line::Comment;
    }
    let (mark, rest) = parted(line);
    let (command, words) = parted(rest);
    match mark {
        ">" => Line::Asks("call", rest),
        "$" => Line::Asks(command, words),
        "|" => Line::Gives(Piece::Text(rest, "\n")),
        "||" => Line::Gives(Piece::Text(rest, "\r\n")),
        "+" => Line::Gives(Piece::Text(rest, "")),
        "&" => match Piece::bytes(rest) {
            Some(piece) => Line::Gives(piece),
            None => Line::Unknown,
        },
        "*" => match Numbers::read(rest) {
            Some(numbers) => Line::Repeats(numbers),
            None => Line::Unknown,
        },
        "=" => Line::Expects(rest),
        "~" => Line::ExpectsAmong(rest),
        _ => Line::Unknown,
    }
}

impl<'a> Step<'a> {
    /// All bytes that are given.
    pub fn bytes(&self, alloc: Global) -> Result<Vec<u8>, AllocError> {
        bytes_of(alloc, &self.given)
    }

    fn expect(&mut self, line: u64, text: &'a str, is_among: bool) -> Result<bool, AllocError> {
        self.expected.push(Expected {
            line,
            text,
            is_among,
        })?;
        Ok(true)
    }

    /// Takes what a line under the first says, where it is in its place.
    fn take(&mut self, number: u64, line: Line<'a>) -> Result<bool, AllocError> {
        let is_giving = self.expected.is_empty();
        match line {
            Line::Gives(piece) if is_giving => {
                self.given.push(Given::once(piece))?;
                Ok(true)
            }
            Line::Repeats(numbers) if is_giving => Ok(
                self.given
                    .last_mut()
                    .is_some_and(|given| given.repeat(numbers)),
            ),
            Line::Expects(text) => self.expect(number, text, false),
            Line::ExpectsAmong(text) => self.expect(number, text, true),
            _ => Ok(false),
        }
    }
}

impl<'a> Case<'a> {
    /// Begins a step.
    fn begin(
        &mut self,
        alloc: Global,
        command: &'a str,
        words: &'a str,
    ) -> Result<bool, AllocError> {
        self.steps.push(Step {
            line: self.last_line,
            command,
            words,
            given: Vec::new(alloc),
            expected: Vec::new(alloc),
        })?;
        Ok(true)
    }

    fn take_line(&mut self, alloc: Global, line: &'a str) -> Result<(), AllocError> {
        let number = self.last_line;
        let is_placed = match read_line(line) {
            Line::Comment => true,
            Line::Asks(command, words) => self.begin(alloc, command, words)?,
            said => match self.steps.last_mut() {
                Some(step) => step.take(number, said)?,
                None => false,
            },
        };
        if !is_placed {
            self.misplaced.push(number)?;
        }
        Ok(())
    }
}

/// The case that a file holds. The error is want of memory.
pub fn read_case(alloc: Global, text: &str) -> Result<Case<'_>, AllocError> {
    let mut case = Case {
        steps: Vec::new(alloc),
        misplaced: Vec::new(alloc),
        last_line: 0,
    };
    for line in text.lines() {
        case.last_line = case.last_line.saturating_add(1);
        case.take_line(alloc, line)?;
    }
    Ok(case)
}
