//! A desk that is asked over HTTP, beside the one that is asked by calls.
use crate::memory_desk::MemoryDesk;
use byte_io::VecSink;
use case_hosts::{KEY, request_text};
use case_steps::Handed;
use desk_words::{
    Call, Caller, DeskRequest, KeyRow, KeyRows, ListFault, Moment, Request, read_key,
};
use replay::{Scratch, call_of};
use std::alloc::{AllocError, Global};

/// A desk over a database in memory that is asked over HTTP wherever a verb has a method. It knows
/// the caller of the call that is made, and nobody else.
#[derive(Drop)]
pub(crate) struct Served<T> {
    alloc: Global,
    tables: T,
}

/// The call of the office by which a caller has the key, and nobody else one.
fn call_of_key(alloc: Global, moment: Moment, caller: Caller) -> Result<Option<Call>, AllocError> {
    let Some(secret) = read_key(KEY.as_bytes()) else {
        return Ok(None);
    };
    match KeyRows::new(vec![in alloc; KeyRow { caller, secret }]?) {
        Ok(rows) => Ok(Some(Call {
            moment,
            caller: Caller::Office,
            request: Request::Desk(DeskRequest::Keys(rows)),
        })),
        Err(ListFault::Limit) => Ok(None),
        Err(ListFault::Memory) => Err(AllocError),
    }
}

impl<T: MemoryDesk> Served<T> {
    /// A database without tables.
    pub(crate) fn new(alloc: Global) -> Result<Served<T>, AllocError> {
        Ok(Served {
            alloc,
            tables: T::new(alloc)?,
        })
    }

    /// Does what is done to the database itself.
    pub(crate) fn alter(&mut self, command: &str, rest: &str) {
        match command {
            "create" => self.tables.create(),
            "open" => self.tables.open(),
            "close" => self.tables.close(),
            "sql" => self.tables.execute(rest),
            _ => "no command",
        };
    }

    /// Loads a file by a command of the office.
    pub(crate) fn load(&mut self, handed: &Handed) {
        self.tables.load(handed);
    }

    /// Gives a caller the key, and nobody else one.
    fn give_key(&mut self, moment: Moment, caller: Caller) -> Result<(), AllocError> {
        if let Some(keys) = call_of_key(self.alloc, moment, caller)? {
            self.tables.perform(keys, true);
        }
        Ok(())
    }

    /// Serves a request, and adds a line to what is wrong where the reply has not this JSON.
    fn compare(
        &mut self,
        moment: Moment,
        request: &[u8],
        json: &[u8],
        wrong: &mut String,
    ) -> Result<(), AllocError> {
        let mut sink = VecSink::new(self.alloc);
        self.tables.serve(moment, request, &mut sink);
        let text = String::from_utf8_lossy(self.alloc, sink.as_slice())?;
        let (_, body) = text.split_once("\r\n\r\n").unwrap_or(("", ""));
        if body.as_bytes() != json {
            writeln!(wrong, "over HTTP it is answered otherwise: {text}")?;
        }
        Ok(())
    }

    /// Makes the call of a line, and adds a line to what is wrong where the reply over HTTP has not
    /// this JSON. A call whose verb has no method is made without HTTP, and its reply not asked.
    pub(crate) fn call(
        &mut self,
        line: &str,
        json: &[u8],
        wrong: &mut String,
    ) -> Result<(), AllocError> {
        let mut scratch = Scratch::new(self.alloc);
        let Ok(call) = call_of(self.alloc, &mut scratch, line.as_bytes()) else {
            return Ok(());
        };
        let Some(request) = request_text(self.alloc, line)? else {
            self.tables.perform(call, true);
            return Ok(());
        };
        self.give_key(call.moment, call.caller)?;
        self.compare(call.moment, request.as_bytes(), json, wrong)
    }
}
