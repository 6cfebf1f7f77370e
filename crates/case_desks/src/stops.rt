//! Commands on a desk in two files, which are stopped, and requests whose devices fail.
use crate::asked::{Asked, Outcome, is_call, outcome_bytes};
use crate::desk_files::DeskFiles;
use crate::devices::{Request, request_text};
use crate::trial::{Held, Trial, Tries};
use case_steps::{Answer, parted};
use std::alloc::{AllocError, Global};

/// Two files in memory, and the calls whose replies tell which office they hold.
#[derive(Drop)]
pub(crate) struct Stops<'a, D> {
    alloc: Global,
    watched: Vec<&'a str>,
    disks: D,
}

fn asked_of(text: &str) -> Asked<'_> {
    match text {
        "create" => Asked::Create,
        "open" => Asked::Open,
        "open-file" => Asked::OpenFile,
        line => match line.split_once(' ') {
            Some(("sql", statement)) => Asked::Statement(statement),
            Some(("rows", statement)) => Asked::Rows(statement),
            _ => Asked::Call(line),
        },
    }
}

/// The answer to a request: what stands behind the head of its reply.
fn body_of(text: &str) -> &str {
    match text.split_once("\r\n\r\n") {
        Some((_, body)) => body,
        None => text,
    }
}

impl<'a, D: DeskFiles> Stops<'a, D> {
    /// Two empty files.
    pub(crate) fn new(alloc: Global) -> Stops<'a, D> {
        Stops {
            alloc,
            watched: Vec::new(alloc),
            disks: D::new(alloc),
        }
    }

    /// Takes a call whose reply tells which office it is.
    pub(crate) fn watch(&mut self, line: &'a str) -> Result<Answer, AllocError> {
        if !is_call(self.alloc, line) {
            return Answer::of(self.alloc, "no call");
        }
        self.watched.push(line)?;
        Answer::of(self.alloc, "watched")
    }

    fn text_of(&self, outcome: &Outcome) -> Result<String, AllocError> {
        String::from_utf8_lossy(self.alloc, outcome_bytes(outcome))
    }

    /// Gives a command.
    pub(crate) fn give(&mut self, text: &str) -> Result<Answer, AllocError> {
        let outcome = self.disks.ask(&asked_of(text));
        Ok(Answer::new(self.alloc, self.text_of(&outcome)?))
    }

    /// The office in the files now.
    fn held(&self) -> Result<Held<D>, AllocError> {
        Held::of(&self.disks, &self.watched)
    }

    /// Tries a command again that came to this outcome, and stops it at each call of its files.
    fn stop_again(
        &self,
        asked: &Asked,
        is_change: bool,
        before: &Held<D>,
        outcome: &Outcome,
    ) -> Result<Answer, AllocError> {
        let after = self.held()?;
        let trial = Trial {
            watched: &self.watched,
            outcome: outcome_bytes(outcome),
            before,
            after: &after,
        };
        let mut tries = Tries::new(self.alloc);
        trial.stop_each(asked, is_change, &mut tries)?;
        Ok(tries.beside(self.text_of(outcome)?))
    }

    /// Gives a command, which changes some reply or none, and then stops it at each call of its
    /// files.
    pub(crate) fn stop(&mut self, text: &str, is_change: bool) -> Result<Answer, AllocError> {
        let asked = asked_of(text);
        let before = self.held()?;
        let outcome = self.disks.ask(&asked);
        self.stop_again(&asked, is_change, &before, &outcome)
    }

    /// Serves a request again that had this reply, by devices that fail.
    fn fail_again(
        &self,
        request: &Request,
        before: &Held<D>,
        outcome: &Outcome,
    ) -> Result<Answer, AllocError> {
        let after = self.held()?;
        let trial = Trial {
            watched: &self.watched,
            outcome: outcome_bytes(outcome),
            before,
            after: &after,
        };
        let mut tries = Tries::new(self.alloc);
        trial.fail_each(self.alloc, request, &mut tries)?;
        let reply = self.text_of(outcome)?;
        Ok(tries.beside(String::from_str(self.alloc, body_of(&reply))?))
    }

    /// Serves a request, and then fails its devices and stops its files.
    pub(crate) fn fail(&mut self, text: &str) -> Result<Answer, AllocError> {
        let (moment, words) = parted(text);
        let text = request_text(self.alloc, words)?;
        let request = Request {
            moment,
            text: text.as_bytes(),
            read: 0,
            write: 0,
        };
        let before = self.held()?;
        let outcome = self.disks.ask(&Asked::Request(request));
        self.fail_again(&request, &before, &outcome)
    }
}
