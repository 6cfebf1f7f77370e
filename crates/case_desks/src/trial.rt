//! A command on a desk in two files that is given again and again, and fails each time.
use crate::asked::{Asked, Outcome, outcome_bytes};
use crate::desk_files::{DeskFiles, Stop};
use crate::devices::{Request, served_text};
use case_steps::Answer;
use std::alloc::{AllocError, Global};

/// No command makes so many calls of its files.
const MANY: u64 = 100_000;

/// An office: the files that hold it, and its replies.
#[derive(Drop)]
pub(crate) struct Held<D> {
    disks: D,
    shown: Outcome,
}

/// What is tried: what it came to at first, and the office before it and the one after it.
#[derive(Drop)]
pub(crate) struct Trial<'a, D> {
    /// The calls whose replies tell which office it is.
    pub watched: &'a [&'a str],
    pub outcome: &'a [u8],
    pub before: &'a Held<D>,
    pub after: &'a Held<D>,
}

/// What comes of the tries: how often a stop left the office as it was and how often not, and what
/// is wrong, a line for each such thing.
#[derive(Drop)]
pub(crate) struct Tries {
    before: u64,
    after: u64,
    wrong: String,
}

impl Tries {
    pub(crate) fn new(alloc: Global) -> Tries {
        Tries {
            before: 0,
            after: 0,
            wrong: String::new(alloc),
        }
    }

    fn report(&mut self, what: &str) -> Result<(), AllocError> {
        writeln!(self.wrong, "{what}")
    }

    /// Counts a stop that left the office after the command, or another one.
    fn count(&mut self, is_after: bool) {
        if is_after {
            self.after = self.after.saturating_add(1);
        } else {
            self.before = self.before.saturating_add(1);
        }
    }

    /// The stops are done; what changes something was to be stopped before its change was kept, and
    /// behind that.
    fn end(&mut self, is_change: bool) -> Result<(), AllocError> {
        if self.after == 0 || is_change && self.before == 0 {
            self.report("no stop leaves the office before the command, or none the one after it")
        } else {
            Ok(())
        }
    }

    /// The answer with this text of what was tried.
    pub(crate) fn beside(self, text: String) -> Answer {
        let Tries { wrong, .. } = self;
        Answer {
            text,
            wrong,
            tries: 1,
        }
    }
}

/// The replies of the office in two files: what its book replies to each of some calls.
fn shown<D: DeskFiles>(disks: &D, watched: &[&str]) -> Result<Outcome, AllocError> {
    Ok(disks.copy(Stop::Never)?.ask(&Asked::Book(watched)))
}

impl<D: DeskFiles> Held<D> {
    /// The office in two files, of which the replies to these calls tell.
    pub(crate) fn of(disks: &D, watched: &[&str]) -> Result<Held<D>, AllocError> {
        Ok(Held {
            disks: disks.copy(Stop::Never)?,
            shown: shown(disks, watched)?,
        })
    }

    /// Whether it is the one in two files. Files that hold the same bytes are not opened for that.
    fn is_in(&self, disks: &D, watched: &[&str]) -> Result<bool, AllocError> {
        Ok(disks.are_like(&self.disks) || shown(disks, watched)? == self.shown)
    }
}

impl<D: DeskFiles> Trial<'_, D> {
    /// Whether the replies before and after it are the same.
    fn is_same(&self) -> bool {
        self.before.shown == self.after.shown
    }

    /// Whether two files hold the office before it, and whether they hold the one after it.
    fn compare(&self, left: &D) -> Result<(bool, bool), AllocError> {
        if left.are_like(&self.before.disks) {
            Ok((true, self.is_same()))
        } else if left.are_like(&self.after.disks) {
            Ok((self.is_same(), true))
        } else {
            let shown = shown(left, self.watched)?;
            Ok((shown == self.before.shown, shown == self.after.shown))
        }
    }

    /// Looks at what a stop left: the office before the command or the one after it, and that one
    /// where the command was answered.
    fn judge(&self, left: &D, is_answered: bool, tries: &mut Tries) -> Result<(), AllocError> {
        let (is_before, is_after) = self.compare(left)?;
        tries.count(is_after);
        if is_after || is_before && !is_answered {
            Ok(())
        } else {
            tries.report("a stop leaves another office")
        }
    }

    /// Gives a command that is stopped, looks at what is left, as it was written and as a power cut
    /// leaves it, and tells whether a file stopped.
    fn stop(&self, asked: &Asked, stop: Stop, tries: &mut Tries) -> Result<bool, AllocError> {
        let mut left = self.before.disks.copy(stop)?;
        let outcome = left.ask(asked);
        let is_answered = outcome_bytes(&outcome) == self.outcome;
        let has_stopped = left.have_stopped();
        if !is_answered && (outcome != Err("Store") || !has_stopped) {
            tries.report("a stop leads to another answer")?;
        }
        self.judge(&left, is_answered, tries)?;
        left.cut_power();
        self.judge(&left, is_answered, tries)?;
        Ok(has_stopped)
    }

    /// Gives a command that is stopped at each call of the log, one after another, until none is,
    /// and then at each call of the database.
    fn stop_at_each(&self, asked: &Asked, tries: &mut Tries) -> Result<(), AllocError> {
        let mut stop = Stop::Log(0);
        for _ in 0..MANY {
            if let Stop::Never = stop {
                return Ok(());
            }
            let has_stopped = self.stop(asked, stop, tries)?;
            stop = stop.next(has_stopped);
        }
        tries.report("it makes too many calls")
    }

    /// Stops a command at each call of its files; it changes some reply, or none.
    pub(crate) fn stop_each(
        &self,
        asked: &Asked,
        is_change: bool,
        tries: &mut Tries,
    ) -> Result<(), AllocError> {
        if self.is_same() == is_change {
            tries.report("it changes no reply, or some reply")?;
        }
        self.stop_at_each(asked, tries)?;
        tries.end(is_change)
    }

    /// Serves a request by devices that fail: this is to be written, and this to be the office.
    fn serve(
        &self,
        request: &Request,
        written: &[u8],
        wanted: &Held<D>,
        tries: &mut Tries,
    ) -> Result<(), AllocError> {
        let mut left = self.before.disks.copy(Stop::Never)?;
        let outcome = left.ask(&Asked::Request(*request));
        if outcome_bytes(&outcome) == written && wanted.is_in(&left, self.watched)? {
            Ok(())
        } else {
            tries.report("a device that fails leads to another reply, or to another office")
        }
    }

    /// What is written, or the fault, where the read behind these bytes of a request fails. Only
    /// where the head has come and its key is nobody's is there a reply: that key is refused.
    fn written_after(&self, came: &[u8]) -> &[u8] {
        let is_unknown = self.outcome.starts_with(b"HTTP/1.1 401 ");
        if is_unknown && came.windows(4).any(|bytes| bytes == b"\r\n\r\n".as_slice()) {
            self.outcome
        } else {
            b"Read\n"
        }
    }

    /// Serves a request of which each read fails in turn, a byte a read: the office is as it was,
    /// and nothing is written but the refusal of a key.
    fn fail_reads(&self, request: &Request, tries: &mut Tries) -> Result<(), AllocError> {
        for count in 0..request.text.len() {
            let failing = Request {
                moment: request.moment,
                text: request.text,
                read: (count as u64).saturating_add(1),
                write: 0,
            };
            let written = self.written_after(&request.text[..count]);
            self.serve(&failing, written, self.before, tries)?;
        }
        Ok(())
    }

    /// Serves a request with each write of its reply failing in turn, a byte a write: what was
    /// written before is the front of the reply, and the office is the one after the request.
    fn fail_writes(
        &self,
        alloc: Global,
        request: &Request,
        tries: &mut Tries,
    ) -> Result<(), AllocError> {
        for count in 0..self.outcome.len() {
            let written = served_text(alloc, "Write\n", &self.outcome[..count])?;
            let failing = Request {
                moment: request.moment,
                text: request.text,
                read: 0,
                write: (count as u64).saturating_add(1),
            };
            self.serve(&failing, &written, self.after, tries)?;
        }
        Ok(())
    }

    /// Serves a request of which the read behind its last byte would fail: it is answered, since no
    /// byte more is awaited.
    fn fail_behind(&self, request: &Request, tries: &mut Tries) -> Result<(), AllocError> {
        let failing = Request {
            moment: request.moment,
            text: request.text,
            read: (request.text.len() as u64).saturating_add(1),
            write: 0,
        };
        self.serve(&failing, self.outcome, self.after, tries)
    }

    /// Serves a request with each read failing in turn, and each write, and then with a stop at
    /// each call of the files.
    pub(crate) fn fail_each(
        &self,
        alloc: Global,
        request: &Request,
        tries: &mut Tries,
    ) -> Result<(), AllocError> {
        self.fail_reads(request, tries)?;
        self.fail_behind(request, tries)?;
        self.fail_writes(alloc, request, tries)?;
        self.stop_at_each(&Asked::Request(*request), tries)?;
        tries.end(!self.is_same())
    }
}
