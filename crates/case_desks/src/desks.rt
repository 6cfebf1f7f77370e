//! A desk over a database in memory, with a book, a desk that is asked over HTTP and the program over
//! a host in memory beside it.
//!
//! The book makes the same calls, and has to answer alike; after each call, each file that is
//! loaded and each opening the two have to hold the same, as `beside` tells, and the desk has to
//! read just that where it reads one meeting or one party alone. The second desk is asked the same
//! over HTTP, wherever a verb has a method, and has to reply with the same JSON. The program holds
//! the same office: it serves the same requests, loads the same files and prints the same results,
//! each by a run of its own, and has to end and to print alike. Where statements changed the tables,
//! the next opening gives it the desk's book.
use crate::asked::failure_word;
use crate::beside::Beside;
use crate::memory_desk::MemoryDesk;
use crate::served::Served;
use byte_io::VecSink;
use case_hosts::Hosted;
use case_steps::{Answer, Handed, ended_text};
use cli_exit::Ended;
use desk_words::{Call, Caller, Moment, read_key, read_meeting, read_moment};
use replay::{Scratch, call_of};
use std::alloc::{AllocError, Global};

/// What is replied where a request is not served.
const NO_REPLY: &str = "no reply";

/// A desk over a database in memory, and a book and a further desk that make the same calls.
#[derive(Drop)]
pub(crate) struct Desks<T> {
    alloc: Global,
    tables: T,
    beside: Beside,
    served: Served<T>,
    hosted: Hosted,
    /// Whether a statement was run since a desk last had the database.
    is_altered: bool,
}

impl<T: MemoryDesk> Desks<T> {
    /// Databases without tables, and an empty book.
    pub(crate) fn new(alloc: Global) -> Result<Desks<T>, AllocError> {
        Ok(Desks {
            alloc,
            tables: T::new(alloc)?,
            beside: Beside::new(alloc),
            served: Served::new(alloc)?,
            hosted: Hosted::new(alloc),
            is_altered: false,
        })
    }

    /// Whether the desk holds what the book beside it holds, and reads just that.
    fn is_like_its_book(&mut self) -> Result<bool, AllocError> {
        match self.tables.book() {
            Some(Ok(book)) => self.beside.is_like(&book, &mut self.tables),
            Some(Err(_)) => Ok(false),
            None => Ok(true),
        }
    }

    /// Tells where the book beside the desk holds something else.
    fn compare(&mut self, wrong: &mut String) -> Result<(), AllocError> {
        if !self.is_like_its_book()? {
            wrong.push_str("the book beside it holds something else\n")?;
        }
        Ok(())
    }

    /// Begins anew, with a database without tables.
    fn renew(&mut self) -> Result<Answer, AllocError> {
        *self = Desks::new(self.alloc)?;
        Answer::of(self.alloc, "a database without tables")
    }

    /// Takes the desk's own book as the one beside it, where statements changed the tables.
    fn take_altered(&mut self) {
        if self.is_altered {
            if let (Some(Ok(book)), Some(Ok(again))) = (self.tables.book(), self.tables.book()) {
                self.beside.set_book(book);
                self.hosted.set_book(again);
                self.is_altered = false;
            }
        }
    }

    /// Makes a desk of the database, and where that is done an office that the program holds.
    fn create(&mut self) -> Result<Answer, AllocError> {
        self.served.alter("create", "");
        let word = self.tables.create();
        let mut answer = Answer::of(self.alloc, word)?;
        if word == "created" {
            self.hosted.create(&mut answer.wrong)?;
        }
        Ok(answer)
    }

    /// Opens the database as a desk.
    fn open(&mut self) -> Result<Answer, AllocError> {
        self.served.alter("open", "");
        let word = self.tables.open();
        let mut answer = Answer::of(self.alloc, word)?;
        self.take_altered();
        self.compare(&mut answer.wrong)?;
        Ok(answer)
    }

    /// Runs a statement on a database that no desk has.
    fn execute(&mut self, sql: &str) -> &'static str {
        self.is_altered = true;
        self.tables.execute(sql)
    }

    /// What the desk answers to a call, whose reply can be shown or not for want of memory.
    fn answer_to(&mut self, call: Call, is_shown: bool) -> Result<String, AllocError> {
        match self.tables.perform(call, is_shown) {
            Some(Ok(text)) => String::from_utf8_lossy(self.alloc, &text),
            Some(Err(failure)) => String::from_str(self.alloc, failure_word(failure)),
            None => String::from_str(self.alloc, "no desk"),
        }
    }

    /// Makes a call that the desk answered by the book and the desk beside it.
    fn call_beside(
        &mut self,
        line: &str,
        call: Call,
        answer: &mut Answer,
    ) -> Result<(), AllocError> {
        let reply = self.beside.perform(call)?;
        if answer.text.as_bytes() != reply.as_slice() {
            answer
                .wrong
                .push_str("the book beside it answers otherwise\n")?;
        }
        self.served.call(line, &reply, &mut answer.wrong)?;
        self.hosted.call(line, &reply, &mut answer.wrong)
    }

    /// The answer to a call, whose reply can be shown or not for want of memory; then the book
    /// and the desk beside it do not make it.
    fn call(&mut self, text: &str, is_shown: bool) -> Result<Answer, AllocError> {
        let line = text.as_bytes();
        let mut scratch = Scratch::new(self.alloc);
        let (Ok(call), Ok(again)) = (
            call_of(self.alloc, &mut scratch, line),
            call_of(self.alloc, &mut scratch, line),
        ) else {
            return Answer::of(self.alloc, "no call");
        };
        self.beside.take_names(&call, line)?;
        let mut answer = Answer::new(self.alloc, self.answer_to(call, is_shown)?);
        if is_shown {
            self.call_beside(text, again, &mut answer)?;
        }
        self.compare(&mut answer.wrong)?;
        Ok(answer)
    }

    /// The caller whose key it is.
    fn caller(&mut self, key: &str) -> &'static str {
        let Some(key) = read_key(key.as_bytes()) else {
            return "no key";
        };
        match self.tables.caller_of(&key) {
            Some(Ok(None)) => "nobody",
            Some(Ok(Some(Caller::Office))) => "the office",
            Some(Ok(Some(Caller::Party(_)))) => "a party",
            Some(Err(failure)) => failure_word(failure),
            None => "no desk",
        }
    }

    /// Tells where a command that loads a file would end otherwise by the book beside the desk, or
    /// where that book holds something else afterwards.
    fn compare_load(&mut self, handed: &Handed, answer: &mut Answer) -> Result<(), AllocError> {
        let ended = self.beside.load(handed)?;
        if answer.text != ended_text(self.alloc, ended)? {
            answer
                .wrong
                .push_str("the book beside it answers otherwise\n")?;
        }
        self.compare(&mut answer.wrong)
    }

    /// Gives the program's office the keys that it loaded last, in place of that of a call.
    fn give_keys(&mut self, moment: Moment) -> Result<(), AllocError> {
        let keys = self.beside.keys()?;
        self.hosted.give_keys(moment, keys)
    }

    /// Loads the file by a command of the office.
    fn load(&mut self, command: &str, words: &str, file: &[u8]) -> Result<Answer, AllocError> {
        let Some(handed) = Handed::read(command, words, file) else {
            return Answer::of(self.alloc, "no command");
        };
        self.served.load(&handed);
        let Some(ended) = self.tables.load(&handed) else {
            return Answer::of(self.alloc, "no desk");
        };
        let mut answer = Answer::new(self.alloc, ended_text(self.alloc, ended)?);
        self.give_keys(handed.now)?;
        self.hosted
            .load(command, words, &handed, &answer.text, &mut answer.wrong)?;
        self.compare_load(&handed, &mut answer)?;
        Ok(answer)
    }

    /// What is printed, and below it how the command ends.
    fn printed(&self, text: &[u8], ended: Ended) -> Result<Answer, AllocError> {
        let mut answer = String::from_utf8_lossy(self.alloc, text)?;
        answer.push_str(&ended_text(self.alloc, ended)?)?;
        Ok(Answer::new(self.alloc, answer))
    }

    /// The results that are printed of a meeting, and how the command ends. It is wrong where the
    /// book beside the desk prints something else, or else than the front of it where a write fails.
    fn results(&mut self, words: &str) -> Result<Answer, AllocError> {
        let Some(meeting) = read_meeting(words.as_bytes()) else {
            return Answer::of(self.alloc, "no meeting");
        };
        let mut sink = VecSink::new(self.alloc);
        let Some(ended) = self.tables.results(meeting, &mut sink) else {
            return Answer::of(self.alloc, "no desk");
        };
        let mut answer = self.printed(sink.as_slice(), ended)?;
        self.beside
            .compare_results(meeting, sink.as_slice(), &mut answer.wrong)?;
        self.hosted.results(words, &answer.text, &mut answer.wrong)?;
        Ok(answer)
    }

    /// The whole reply over HTTP to these bytes at a moment.
    fn reply_to(&mut self, moment: Moment, request: &[u8]) -> Result<String, AllocError> {
        let mut sink = VecSink::new(self.alloc);
        if !self.tables.serve(moment, request, &mut sink) {
            return String::from_str(self.alloc, NO_REPLY);
        }
        String::from_utf8_lossy(self.alloc, sink.as_slice())
    }

    /// Tells each prefix of a request with another reply, from the empty one to the one that lacks
    /// the last byte.
    fn compare_prefixes(
        &mut self,
        moment: Moment,
        request: &[u8],
        answer: &mut Answer,
    ) -> Result<(), AllocError> {
        for count in 0..request.len() {
            let other = self.reply_to(moment, &request[..count])?;
            if other != answer.text {
                writeln!(
                    answer.wrong,
                    "after {count} bytes it is answered otherwise: {other}"
                )?;
            }
        }
        Ok(())
    }

    /// The whole reply to a request over HTTP at a moment. Where the request is cut, the reply to
    /// the empty input, and it is wrong where a prefix has another reply. The book and the desk
    /// beside do not answer it, so it must not change the office.
    fn http(&mut self, moment: &str, request: &[u8], is_cut: bool) -> Result<Answer, AllocError> {
        let Some(moment) = read_moment(moment.as_bytes()) else {
            return Answer::of(self.alloc, "no moment");
        };
        let reply = self.reply_to(moment, if is_cut { b"" } else { request })?;
        let mut answer = Answer::new(self.alloc, reply);
        if is_cut {
            self.compare_prefixes(moment, request, &mut answer)?;
        } else if answer.text.as_str() != NO_REPLY {
            self.give_keys(moment)?;
            self.hosted
                .serve_alike(moment, request, &answer.text, &mut answer.wrong)?;
        }
        self.compare(&mut answer.wrong)?;
        Ok(answer)
    }

    /// The answer in one word to what is done to the database itself, or asked of a key.
    fn word(&mut self, command: &str, rest: &str) -> &'static str {
        self.served.alter(command, rest);
        match command {
            "close" => self.tables.close(),
            "sql" => self.execute(rest),
            "caller" => self.caller(rest),
            _ => "no command",
        }
    }

    /// The answer to a command, or to what is done to the database itself.
    pub(crate) fn command(
        &mut self,
        command: &str,
        words: &str,
        file: &[u8],
    ) -> Result<Answer, AllocError> {
        match command {
            "new" => self.renew(),
            "create" => self.create(),
            "open" => self.open(),
            "call" => self.call(words, true),
            "unshown" => self.call(words, false),
            "results" => self.results(words),
            "http" => self.http(words, file, false),
            "cut" => self.http(words, file, true),
            "keys" | "days" | "register" => self.load(command, words, file),
            _ => Answer::of(self.alloc, self.word(command, words)),
        }
    }
}
