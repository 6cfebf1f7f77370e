//! The program over an office that a host in memory holds.
use crate::requests::{key_file, request_text};
use crate::runs::{Given, Ran, run, words_of};
use case_steps::Handed;
use desk_words::{Call, Caller, DeskRequest, KeyRows, Moment, Request};
use meeting_core::Book;
use memory_host::{OpenBook, Stored};
use replay::{Scratch, call_of};
use std::alloc::{AllocError, Global};
use std::mem;

/// The words by which one request is served.
const SERVE: &str = "serve g.desk --port 8080 --requests 1";

/// The program over a host in memory, whose one file for an office stays from run to run.
pub struct Hosted {
    alloc: Global,
    stored: Stored,
}

// It is written out, so that a caller does not prove again how each part is dropped.
impl Drop for Hosted {
    fn drop(self) {
        let Hosted {
            alloc: _,
            stored: _,
        } = self;
    }
}

/// What a run printed, its status before that, or before its errors alone.
fn ran_text(alloc: Global, ran: &Ran, is_status_first: bool) -> Result<String, AllocError> {
    let output = String::from_utf8_lossy(alloc, &ran.output)?;
    let errors = String::from_utf8_lossy(alloc, &ran.errors)?;
    let status = ran.status;
    if is_status_first {
        format!(in alloc; "status {status}\n{output}{errors}")
    } else {
        format!(in alloc; "{output}status {status}\n{errors}")
    }
}

/// Adds a line to what is wrong where a text is not the wanted one.
fn compare(text: &str, wanted: &str, wrong: &mut String) -> Result<(), AllocError> {
    if text == wanted {
        Ok(())
    } else {
        writeln!(
            wrong,
            "over a host in memory it is answered otherwise: {text}"
        )
    }
}

impl Hosted {
    /// A host whose file for an office holds nothing.
    pub fn new(alloc: Global) -> Hosted {
        Hosted {
            alloc,
            stored: Stored::Nothing,
        }
    }

    /// Takes a book as the office in the file.
    pub fn set_book(&mut self, book: Book) {
        self.stored = Stored::Office(OpenBook { book });
    }

    /// Runs the program with the words of a line.
    fn run(&mut self, line: &str, given: Given) -> Result<Ran, AllocError> {
        let words = words_of(self.alloc, line)?;
        let stored = mem::replace(&mut self.stored, Stored::Nothing);
        let mut ran = run(self.alloc, &words, stored, given);
        self.stored = mem::replace(&mut ran.stored, Stored::Nothing);
        Ok(ran)
    }

    /// Runs the program with a file that is handed in, and gives its status and what it printed.
    fn run_alone(
        &mut self,
        line: &str,
        moments: &[Moment],
        file: &[u8],
        is_status_first: bool,
    ) -> Result<String, AllocError> {
        let given = Given {
            moments,
            file,
            request: b"",
        };
        let ran = self.run(line, given)?;
        ran_text(self.alloc, &ran, is_status_first)
    }

    /// Makes an office in an empty file by `init`.
    pub fn create(&mut self, wrong: &mut String) -> Result<(), AllocError> {
        self.stored = Stored::Nothing;
        let text = self.run_alone("init g.desk", &[], b"", true)?;
        compare(&text, "status 0\ncreated\n", wrong)
    }

    /// Makes a call without HTTP.
    fn perform(&mut self, call: Call) -> Result<(), AllocError> {
        if let Stored::Office(office) = &mut self.stored {
            office.book.step(call)?;
        }
        Ok(())
    }

    /// Gives the office these keys again, in place of the one by which a call was made.
    pub fn give_keys(&mut self, moment: Moment, keys: KeyRows) -> Result<(), AllocError> {
        self.perform(Call {
            moment,
            caller: Caller::Office,
            request: Request::Desk(DeskRequest::Keys(keys)),
        })
    }

    /// Loads a file by a command and the words of its step, and adds a line to what is wrong where
    /// the run ends otherwise than this text says.
    pub fn load(
        &mut self,
        command: &str,
        words: &str,
        handed: &Handed,
        wanted: &str,
        wrong: &mut String,
    ) -> Result<(), AllocError> {
        let (_, named) = words.split_once(' ').unwrap_or(("", ""));
        let line = format!(in self.alloc; "{command} g.desk {named} handed")?;
        let text = self.run_alone(&line, &[handed.now], handed.bytes, true)?;
        compare(&text, wanted, wrong)
    }

    /// Prints the results of a meeting, and adds a line to what is wrong where they are not this
    /// text, or the run ends otherwise.
    pub fn results(
        &mut self,
        meeting: &str,
        wanted: &str,
        wrong: &mut String,
    ) -> Result<(), AllocError> {
        let line = format!(in self.alloc; "results g.desk {meeting}")?;
        let text = self.run_alone(&line, &[], b"", false)?;
        compare(&text, wanted, wrong)
    }

    /// Serves a request at a moment, and gives the whole reply. A line is added to what is wrong
    /// where the run does not end well.
    fn serve(
        &mut self,
        moment: Moment,
        request: &[u8],
        wrong: &mut String,
    ) -> Result<String, AllocError> {
        let given = Given {
            moments: &[moment],
            file: b"",
            request,
        };
        let ran = self.run(SERVE, given)?;
        let text = ran_text(self.alloc, &ran, true)?;
        compare(&text, "status 0\nlistening\n", wrong)?;
        String::from_utf8_lossy(self.alloc, ran.reply.as_slice())
    }

    /// Serves a request at a moment, and adds a line to what is wrong where the reply is not this.
    pub fn serve_alike(
        &mut self,
        moment: Moment,
        request: &[u8],
        wanted: &str,
        wrong: &mut String,
    ) -> Result<(), AllocError> {
        let reply = self.serve(moment, request, wrong)?;
        compare(&reply, wanted, wrong)
    }

    /// Serves the request of a line by the key of its caller, which is loaded first. The reply has
    /// to have this JSON.
    fn serve_by_key(
        &mut self,
        line: &str,
        moment: Moment,
        request: &[u8],
        json: &[u8],
        wrong: &mut String,
    ) -> Result<(), AllocError> {
        let keys = key_file(self.alloc, line)?;
        self.run_alone("keys g.desk handed", &[moment], keys.as_bytes(), true)?;
        let reply = self.serve(moment, request, wrong)?;
        let (_, body) = reply.split_once("\r\n\r\n").unwrap_or(("", ""));
        if body.as_bytes() == json {
            Ok(())
        } else {
            compare(&reply, "", wrong)
        }
    }

    /// Makes the call of a line by a request that is served, and adds a line to what is wrong where
    /// the reply has not this JSON. A call whose verb has no method is made without HTTP.
    pub fn call(&mut self, line: &str, json: &[u8], wrong: &mut String) -> Result<(), AllocError> {
        let mut scratch = Scratch::new(self.alloc);
        let Ok(call) = call_of(self.alloc, &mut scratch, line.as_bytes()) else {
            return Ok(());
        };
        match request_text(self.alloc, line)? {
            Some(request) => {
                self.serve_by_key(line, call.moment, request.as_bytes(), json, wrong)
            }
            None => self.perform(call),
        }
    }
}
