//! The reader of lines.
ghost use Rattle.std.specs.Prelude.{◌≡◌, ◌≢◌, ℕ, ◌+◌, ◌<◌, ◌≤◌, [], length, drop, take, Ok, Err, IfSome, IfOk, IfErr, IsOk, OnOk, OnErr, MatchOption, IsTrue, ◌↔◌};
ghost use Rattle.std.specs.Io.KnownBytes.{Consumes, Keeps, IsAtEnd};
ghost use Rattle.byte_io.specs.Counts.{one_more};
ghost use Rattle.line_reader.specs.Lines.{feed_place, HasFeed};
ghost use Rattle.line_reader.specs.NextLine.{NextIs, HasCause, MovesOn, SameWhole, unread, longest_line, longest_input};

use crate::outcome::{NextLine, ReadFault};
use crate::scan;
use crate::window::{CAPACITY, FRONT, Window};
use byte_io::Source;
use std::marker::Model;

/// The most bytes that an input has.
const LONGEST_INPUT: usize = 16_777_216;

/// The most bytes that a line has.
const LONGEST_LINE: usize = 65_536;

/// How the reading towards the end of a line ended.
enum Front {
    /// A line feed stands at this place.
    Feed(usize),
    /// The line is too long, and its line feed is still to come.
    Long,
    /// The source has ended before a line feed came.
    Ended,
}

/// Reads the lines of one source, through one buffer.
#[derive(Drop)]
pub struct LineReader {
    window: Window,
    searched: usize,
    taken: usize,
}

impl Model for LineReader {
    ghost use Rattle.std.specs.Prelude.{◌+◌, ◌≤◌};
    ghost use Rattle.line_reader.specs.LineState.{LineReading};
    ghost use Rattle.line_reader.specs.Lines.{feed_place};

    ghost Value = { LineReading };

    ghost view = { λ r. record {
      line = r.window.line;
      pending = r.window.pending;
      taken = r.taken;
    } };

    ghost invariant = { λ r. (r.searched ≤ feed_place r.window.pending) × (r.taken ≤ 16777217) };
}

impl LineReader {
    ghost use Rattle.line_reader.specs.FirstLine.{ReadsOn, LineFront, GivesFirst, SameLines, StaysInLine, LosesLine};

    /// A reader that has read nothing. It holds its one buffer in itself, and takes no memory.
    pub fn new() -> Self
        ensures line { result.line ≡ [] }
        ensures pending { result.pending ≡ [] }
        ensures taken { result.taken ≡ 0 }
    {
        LineReader {
            window: Window::new(),
            searched: 0,
            taken: 0,
        }
    }

    /// The last line, without its line feed and a carriage return right before that.
    pub fn line(&self) -> &[u8]
        ensures { result.now ≡ self.now.line }
    {
        self.window.line()
    }

    /// How many bytes were read from the source in all.
    pub fn taken(&self) -> usize
        ensures taken { result ≡ self.now.taken }
        ensures bound { result ≤ longest_input + 1 }
    {
        self.taken
    }

    /// Whether the line feed of the next line was read ahead, so that `next_line` will not touch the
    /// source.
    pub fn is_line_ahead(&mut self) -> bool
        ensures ahead { IsTrue result ↔ HasFeed self.old.pending }
        ensures same { self.new ≡ self.old }
        ensures bound { self.old.taken ≤ longest_input + 1 }
    {
        self.find_feed().is_some()
    }

    /// Takes the next line of the input from its front, and shows a whole one by `line`.
    ///
    /// A line that is too long is passed over. An input that is too long is a fault once no whole
    /// line is left of its first 16,777,217 bytes. Where the end of a line was read ahead, the
    /// source is not touched. After an error the same lines are still to come: a later call goes on
    /// where this one stood. Of a line that is too long some bytes may be lost then, and it is
    /// still too long.
    pub fn next_line<S: Source>(&mut self, source: &mut S) -> Result<NextLine, ReadFault>
        ensures given { IfOk result (λ next. NextIs next
            (unread self.old.pending (S.remaining source.old))
            (unread self.new.pending (S.remaining source.new)) self.new.line) }
        ensures works { OnOk result (S.failures source.new ≡ S.failures source.old) }

        // Why it fails, and what is left then: the same lines, and no end of a line came or is
        // pending.
        ensures fault { IfErr result
            (λ e. HasCause e (S.failures source.old) (S.failures source.new) self.new.taken) }
        ensures same { OnErr result (SameLines
            (unread self.old.pending (S.remaining source.old))
            (unread self.new.pending (S.remaining source.new))) }
        ensures unfed { OnErr result (StaysInLine (unread self.old.pending (S.remaining source.old))
            (S.remaining source.new)) }
        ensures err { OnErr result (feed_place self.new.pending ≡ length self.new.pending) }

        // More bytes came than an input has only where it is that long.
        ensures long_input { result ≡ Err ReadFault.TooMuch → IfSome (S.remaining source.old)
            (λ bytes. longest_input < self.old.taken + length bytes) }

        // What is counted.
        ensures counted { self.new.taken + S.passed source.old
            ≡ self.old.taken + S.passed source.new }
        ensures whole { SameWhole self.old.taken (S.remaining source.old)
            self.new.taken (S.remaining source.new) }

        ensures bound { self.new.taken ≤ longest_input + 1 }
        ensures end { result ≡ Ok NextLine.End → self.new.taken ≤ longest_input }

        // Each line comes nearer to the end: more bytes than before were read and are not pending.
        ensures moves { IfOk result (λ next. next ≢ NextLine.End → MovesOn self.old self.new) }

        // An end of a line that was read ahead is answered without a read.
        ensures ahead { HasFeed self.old.pending → IsOk result × (source.new ≡ source.old) }
        ensures line_ahead { HasFeed self.old.pending → result ≢ Ok NextLine.End }
    {
        match self.find_feed() {
            Some(place) => Ok(self.give_fed_line(place)),
            None => self.read_line(source),
        }
    }

    /// The place of the first line feed among the pending bytes. The bytes before it are searched
    /// once.
    #[inline(always)]
    fn find_feed(&mut self) -> Option<usize>
        ensures place { MatchOption result (feed_place self.old.pending ≡ length self.old.pending)
            (λ place. (place ≡ feed_place self.old.pending) × (place < length self.old.pending)) }
        ensures bound { length self.old.pending ≤ CAPACITY }
        ensures input { self.old.taken ≤ longest_input + 1 }
        ensures same { self.new ≡ self.old }
    {
        let pending = self.window.pending();
        let found = scan::find_feed(pending, self.searched);
        self.searched = found.unwrap_or(pending.len());
        found
    }

    /// Reads once into the buffer, which has room, and returns how many bytes came.
    fn read_more<S: Source>(&mut self, source: &mut S) -> Result<usize, ReadFault>
        requires { length self.old.pending < CAPACITY }
        ensures reads { ReadsOn self.old self.new (S.remaining source.old) (S.remaining source.new)
            (S.passed source.old) (S.passed source.new) }
        ensures end { IfOk result (λ n. n ≡ 0 → IsAtEnd (S.remaining source.new)) }
        ensures few { OnOk result (self.old.taken ≤ longest_input) }
        ensures none { IfOk result (λ n. n ≡ 0 → self.new.pending ≡ self.old.pending) }
        ensures count { IfOk result (λ n. self.new.taken ≡ self.old.taken + n) }
        ensures more { IfOk result (λ n. length self.new.pending ≡ length self.old.pending + n) }
        ensures bound { self.new.taken ≤ longest_input + 1 }
        ensures works { OnOk result (S.failures source.new ≡ S.failures source.old) }
        ensures fault { IfErr result
            (λ e. HasCause e (S.failures source.old) (S.failures source.new) self.new.taken) }
        ensures err { OnErr result (self.new.pending ≡ self.old.pending) }
        ensures behind { take (length self.old.pending) self.new.pending ≡ self.old.pending }
        ensures line { OnOk result (self.new.line ≡ []) }
    {
        if self.taken > LONGEST_INPUT {
            return Err(ReadFault::TooMuch);
        }
        let count = self.window.fill(source, LONGEST_INPUT + 1 - self.taken)?;
        self.taken += count;
        Ok(count)
    }

    /// Whether so many bytes are pending that a line which they begin is too long.
    fn is_long(&self) -> bool
        ensures long { IsTrue result ↔ (FRONT ≤ length self.now.pending) }
        ensures input { self.now.taken ≤ longest_input + 1 }
    {
        self.window.pending().len() >= FRONT
    }

    /// Reads until the pending bytes hold a line feed, or begin a line that is too long, or the
    /// source has ended.
    fn read_on<S: Source>(&mut self, source: &mut S) -> Result<Front, ReadFault>
        requires { feed_place self.old.pending ≡ length self.old.pending }
        ensures front { IfOk result
            (λ front. LineFront front self.new.pending (S.remaining source.new)) }
        ensures reads { ReadsOn self.old self.new (S.remaining source.old) (S.remaining source.new)
            (S.passed source.old) (S.passed source.new) }
        ensures works { OnOk result (S.failures source.new ≡ S.failures source.old) }
        ensures fault { IfErr result
            (λ e. HasCause e (S.failures source.old) (S.failures source.new) self.new.taken) }
        ensures bound { self.new.taken ≤ longest_input + 1 }
        ensures end { result ≡ Ok Front.Ended → self.new.taken ≤ longest_input }
        ensures err { OnErr result (feed_place self.new.pending ≡ length self.new.pending) }
    {
        while !self.is_long() {
            if self.read_more(source)? == 0 {
                return Ok(Front::Ended);
            }
            if let Some(place) = self.find_feed() {
                return Ok(Front::Feed(place));
            }
        }
        Ok(Front::Long)
    }

    /// Gives the first pending bytes, and the front of them as the line, unless that is too long.
    fn give_line(&mut self, given: usize, line_len: usize) -> NextLine
        requires given { given ≤ length self.old.pending }
        requires line { line_len ≤ given }
        ensures whole { line_len ≤ longest_line
            → (result ≡ NextLine.Whole) × (self.new.line ≡ take line_len self.old.pending) }
        ensures too_long { longest_line < line_len
            → (result ≡ NextLine.TooLong) × (self.new.line ≡ []) }
        ensures pending { self.new.pending ≡ drop given self.old.pending }
        ensures left { length self.new.pending + given ≡ length self.old.pending }
        ensures taken { self.new.taken ≡ self.old.taken }
    {
        self.searched = 0;
        if line_len > LONGEST_LINE {
            self.window.give(given, 0);
            NextLine::TooLong
        } else {
            self.window.give(given, line_len);
            NextLine::Whole
        }
    }

    /// Gives the line that ends in the line feed at this place.
    fn give_fed_line(&mut self, place: usize) -> NextLine
        requires first { place ≡ feed_place self.old.pending }
        requires inside { place < length self.old.pending }
        ensures gives { GivesFirst result self.old.pending self.new.pending self.new.line }
        ensures left { length self.new.pending < length self.old.pending }
        ensures taken { self.new.taken ≡ self.old.taken }
    {
        let line_len = scan::len_without_return(&self.window.pending()[..place]);
        self.give_line(place + 1, line_len)
    }

    /// Gives the pending bytes as the last line, or no line where there is none.
    fn give_last_line(&mut self) -> NextLine
        requires { feed_place self.old.pending ≡ length self.old.pending }
        ensures gives { 0 < length self.old.pending
            → GivesFirst result self.old.pending self.new.pending self.new.line }
        ensures end { self.old.pending ≡ [] → (result ≡ NextLine.End) × (self.new.line ≡ []) }
        ensures pending { self.new.pending ≡ [] }
        ensures taken { self.new.taken ≡ self.old.taken }
    {
        let len = self.window.pending().len();
        if len == 0 {
            self.window.forget_line();
            return NextLine::End;
        }
        self.give_line(len, len)
    }

    /// Drops all pending bytes and the last line.
    fn drop_pending(&mut self)
        ensures line { self.new.line ≡ [] }
        ensures pending { self.new.pending ≡ [] }
        ensures taken { self.new.taken ≡ self.old.taken }
    {
        let len = self.window.pending().len();
        self.window.give(len, 0);
        self.searched = 0;
    }

    /// Keeps no more of the pending bytes than show that the line which they begin is too long.
    fn keep_front(&mut self)
        requires long { FRONT ≤ length self.old.pending }
        requires unfed { feed_place self.old.pending ≡ length self.old.pending }
        ensures pending { self.new.pending ≡ take FRONT self.old.pending }
        ensures front { length self.new.pending ≡ FRONT }
        ensures unfed { feed_place self.new.pending ≡ length self.new.pending }
        ensures taken { self.new.taken ≡ self.old.taken }
    {
        self.window.keep(FRONT);
        self.searched = FRONT;
    }

    /// Passes over the line that is too long, up to its line feed or the end of the source. Its
    /// front stays pending until then.
    fn skip_line<S: Source>(&mut self, source: &mut S) -> Result<(), ReadFault>
        requires long { FRONT ≤ length self.old.pending }
        requires unfed { feed_place self.old.pending ≡ length self.old.pending }
        ensures skips { OnOk result (LosesLine (unread self.old.pending (S.remaining source.old))
            (unread self.new.pending (S.remaining source.new))) }
        ensures line { OnOk result (self.new.line ≡ []) }
        ensures same { OnErr result (SameLines (unread self.old.pending (S.remaining source.old))
            (unread self.new.pending (S.remaining source.new))) }
        ensures unfed { OnErr result (StaysInLine (unread self.old.pending (S.remaining source.old))
            (S.remaining source.new)) }
        ensures counted { self.new.taken + S.passed source.old
            ≡ self.old.taken + S.passed source.new }
        ensures whole { SameWhole self.old.taken (S.remaining source.old)
            self.new.taken (S.remaining source.new) }
        ensures works { OnOk result (S.failures source.new ≡ S.failures source.old) }
        ensures fault { IfErr result
            (λ e. HasCause e (S.failures source.old) (S.failures source.new) self.new.taken) }
        ensures bound { self.new.taken ≤ longest_input + 1 }
        ensures read { OnOk result (self.old.taken + length self.new.pending ≤ self.new.taken) }
        ensures err { OnErr result (feed_place self.new.pending ≡ length self.new.pending) }
    {
        self.keep_front();
        while self.read_more(source)? > 0 {
            if let Some(place) = self.find_feed() {
                let _ = self.give_line(place + 1, 0);
                return Ok(());
            }
            self.keep_front();
        }
        self.drop_pending();
        Ok(())
    }

    /// Reads on, and gives the line whose front is pending.
    fn read_line<S: Source>(&mut self, source: &mut S) -> Result<NextLine, ReadFault>
        requires { feed_place self.old.pending ≡ length self.old.pending }
        ensures given { IfOk result (λ next. NextIs next
            (unread self.old.pending (S.remaining source.old))
            (unread self.new.pending (S.remaining source.new)) self.new.line) }
        ensures same { OnErr result (SameLines
            (unread self.old.pending (S.remaining source.old))
            (unread self.new.pending (S.remaining source.new))) }
        ensures unfed { OnErr result (StaysInLine (unread self.old.pending (S.remaining source.old))
            (S.remaining source.new)) }
        ensures counted { self.new.taken + S.passed source.old
            ≡ self.old.taken + S.passed source.new }
        ensures whole { SameWhole self.old.taken (S.remaining source.old)
            self.new.taken (S.remaining source.new) }
        ensures works { OnOk result (S.failures source.new ≡ S.failures source.old) }
        ensures fault { IfErr result
            (λ e. HasCause e (S.failures source.old) (S.failures source.new) self.new.taken) }
        ensures bound { self.new.taken ≤ longest_input + 1 }
        ensures end { result ≡ Ok NextLine.End → self.new.taken ≤ longest_input }
        ensures moves { IfOk result (λ next. next ≢ NextLine.End → MovesOn self.old self.new) }
        ensures err { OnErr result (feed_place self.new.pending ≡ length self.new.pending) }
    {
        match self.read_on(source)? {
            Front::Feed(place) => Ok(self.give_fed_line(place)),
            Front::Long => {
                self.skip_line(source)?;
                Ok(NextLine::TooLong)
            }
            Front::Ended => Ok(self.give_last_line()),
        }
    }
}
