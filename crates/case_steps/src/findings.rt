//! What is answered to the steps of a case, and what is found where it is compared with what the
//! case expects.
use crate::case::{Case, Expected, Step};
use std::alloc::{AllocError, Global};
use std::fmt;

/// The answer to a step.
#[derive(Drop)]
pub struct Answer {
    pub text: String,
    /// What is wrong beside that text, a line for each such thing.
    pub wrong: String,
    /// How often the same was asked with other devices, or stopped.
    pub tries: u64,
}

/// What was counted over a case, and what was not as expected, a line for each such thing.
#[derive(Drop)]
pub struct Findings<'a> {
    name: &'a str,
    answers: u64,
    tries: u64,
    written: String,
}

impl Answer {
    /// A text, and nothing wrong beside it.
    pub fn new(alloc: Global, text: String) -> Answer {
        Answer {
            text,
            wrong: String::new(alloc),
            tries: 0,
        }
    }

    /// A copy of a text, and nothing wrong beside it.
    pub fn of(alloc: Global, text: &str) -> Result<Answer, AllocError> {
        Ok(Answer::new(alloc, String::from_str(alloc, text)?))
    }
}

/// A line of an answer that is not the one that is wanted, and the number of the line that wants it.
#[derive(Clone, Copy)]
struct Other<'a> {
    line: u64,
    wanted: &'a str,
    got: &'a str,
}

/// What stands for a line where there is none.
const NO_LINE: &str = "no further line";

/// The first line of an answer that is not the one that is wanted, if there is one. An answer
/// without text is an empty line, or none.
fn first_other<'a>(step: &'a Step, answer: &'a str) -> Option<Other<'a>> {
    let mut lines = answer.lines();
    for Expected { line, text, .. } in step.expected.iter().filter(|line| !line.is_among) {
        let got = lines.next();
        let is_empty = answer.is_empty() && text.is_empty();
        if got != Some(*text) && !is_empty {
            return Some(Other {
                line: *line,
                wanted: text,
                got: got.unwrap_or(NO_LINE),
            });
        }
    }
    lines.next().map(|got| Other {
        line: step.line,
        wanted: NO_LINE,
        got,
    })
}

/// Whether a line stands somewhere in a text.
fn has_line(text: &str, wanted: &str) -> bool {
    text.lines().any(|line| line == wanted)
}

impl<'a> Findings<'a> {
    /// Nothing is found yet in the case of this name.
    pub fn new(alloc: Global, name: &'a str) -> Findings<'a> {
        Findings {
            name,
            answers: 0,
            tries: 0,
            written: String::new(alloc),
        }
    }

    /// Whether there was an answer, and nothing but what is expected.
    pub fn is_all_expected(&self) -> bool {
        self.answers > 0 && self.written.is_empty()
    }

    /// Tells what is wrong at a line of the file.
    fn report(&mut self, line: u64, what: &str) -> Result<(), AllocError> {
        writeln!(self.written, "{}:{line}: {what}", self.name)
    }

    /// Tells the lines that have no form or no place.
    fn report_misplaced(&mut self, lines: &[u64]) -> Result<(), AllocError> {
        for line in lines {
            self.report(*line, "no line of a case, or not in its place")?;
        }
        Ok(())
    }

    /// Tells the steps that expect no answer.
    fn report_unanswered(&mut self, steps: &[Step]) -> Result<(), AllocError> {
        for step in steps {
            if step.expected.is_empty() {
                self.report(step.line, "no line of the answer is expected")?;
            }
        }
        Ok(())
    }

    /// Tells the lines that have no form or no place, and the steps that expect no answer.
    pub fn look_over(&mut self, case: &Case) -> Result<(), AllocError> {
        self.report_misplaced(&case.misplaced)?;
        self.report_unanswered(&case.steps)?;
        if case.steps.is_empty() {
            self.report(case.last_line, "no step in the whole file")?;
        }
        Ok(())
    }

    /// Tells the first line of an answer that is not the one that is wanted, if there is one.
    fn compare_whole(
        &mut self,
        alloc: Global,
        step: &Step,
        answer: &str,
    ) -> Result<(), AllocError> {
        let Some(Other { line, wanted, got }) = first_other(step, answer) else {
            return Ok(());
        };
        let what = format!(in alloc; "wanted {wanted}, got {got}")?;
        self.report(line, &what)
    }

    /// Tells each line that has to stand somewhere in an answer, and does not.
    fn compare_among(&mut self, step: &Step, answer: &str) -> Result<(), AllocError> {
        for expected in &step.expected {
            if expected.is_among && !has_line(answer, expected.text) {
                self.report(expected.line, "no line of the answer is this")?;
            }
        }
        Ok(())
    }

    /// Counts an answer, and tells what differs in it. Where it is said by lines that stand somewhere
    /// in it alone, it may have others.
    pub fn compare(
        &mut self,
        alloc: Global,
        step: &Step,
        answer: &Answer,
    ) -> Result<(), AllocError> {
        self.answers = self.answers.saturating_add(1);
        self.tries = self.tries.saturating_add(answer.tries);
        if !step.expected.iter().all(|line| line.is_among) {
            self.compare_whole(alloc, step, &answer.text)?;
        }
        self.compare_among(step, &answer.text)?;
        for what in answer.wrong.lines() {
            self.report(step.line, what)?;
        }
        Ok(())
    }
}

impl fmt::Display for Findings<'_> {
    fn fmt<W: fmt::Write>(&self, f: &mut fmt::Formatter<W>) -> fmt::Result {
        let ended = if self.is_all_expected() {
            "all as expected"
        } else {
            "not as expected"
        };
        let Findings {
            name,
            answers,
            tries,
            written,
        } = self;
        write!(
            f,
            "{written}{name}: {answers} answers, {tries} tries, {ended}"
        )
    }
}
