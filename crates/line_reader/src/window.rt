//! The one buffer: the last line, and the bytes behind it that were read ahead.
ghost use Rattle.std.specs.Prelude.{◌≡◌, ℕ, ◌+◌, ◌-◌, ◌<◌, ◌≤◌, [], length, take, drop, IfOk, OnOk, OnErr};
ghost use Rattle.std.specs.Io.KnownBytes.{Consumes, Keeps, IsAtEnd};
ghost use Rattle.byte_io.specs.Counts.{one_more};
ghost use Rattle.line_reader.specs.Window.{Arrives};

use byte_io::{DeviceError, Source};
use std::marker::Model;

/// So many bytes with no line feed begin a line that is too long: the longest line, a carriage
/// return and one byte more.
pub const FRONT: usize = 65_538;

/// How many bytes the buffer holds: such a front, and 16,384 bytes behind it.
pub const CAPACITY: usize = 81_922;

/// The bytes of the last line, and those that were read and not yet given.
#[derive(Drop)]
pub struct Window {
    buffer: [u8; CAPACITY],
    line_start: usize,
    line_len: usize,
    start: usize,
    end: usize,
}

impl Model for Window {
    ghost use Rattle.std.specs.Prelude.{◌-◌, length, take, drop};
    ghost use Rattle.line_reader.specs.Window.{HeldLine, IsWindow};

    ghost Value = { HeldLine };

    ghost view = { λ w. record {
      line = take w.line_len (drop w.line_start w.buffer);
      pending = take (w.end - w.start) (drop w.start w.buffer);
    } };

    ghost invariant = { λ w. IsWindow w.line_start w.line_len w.start w.end (length w.buffer) };
}

impl Window {
    /// An empty buffer.
    pub fn new() -> Self
        ensures line { result.line ≡ [] }
        ensures pending { result.pending ≡ [] }
    {
        Window {
            buffer: [0; CAPACITY],
            line_start: 0,
            line_len: 0,
            start: 0,
            end: 0,
        }
    }

    /// The last line.
    pub fn line(&self) -> &[u8]
        ensures { result.now ≡ self.now.line }
    {
        &self.buffer[self.line_start..self.line_start + self.line_len]
    }

    /// The bytes that were read and not yet given.
    pub fn pending(&self) -> &[u8]
        ensures bytes { result.now ≡ self.now.pending }
        ensures bound { length self.now.pending ≤ CAPACITY }
    {
        &self.buffer[self.start..self.end]
    }

    /// Forgets the last line.
    pub fn forget_line(&mut self)
        ensures line { self.new.line ≡ [] }
        ensures pending { self.new.pending ≡ self.old.pending }
    {
        self.line_len = 0;
    }

    /// Gives the first bytes that are pending, and makes the front of them the last line.
    pub fn give(&mut self, given: usize, line_len: usize)
        requires given { given ≤ length self.old.pending }
        requires line { line_len ≤ given }
        ensures line { self.new.line ≡ take line_len self.old.pending }
        ensures pending { self.new.pending ≡ drop given self.old.pending }
    {
        self.line_start = self.start;
        self.line_len = line_len;
        self.start += given;
    }

    /// Keeps the first bytes that are pending, and drops the others and the last line.
    pub fn keep(&mut self, count: usize)
        requires { count ≤ length self.old.pending }
        ensures line { self.new.line ≡ [] }
        ensures pending { self.new.pending ≡ take count self.old.pending }
    {
        move_to_front(&mut self.buffer, self.start, count);
        self.line_len = 0;
        self.start = 0;
        self.end = count;
    }

    /// Reads at most `most` bytes behind those that are pending, and returns how many came.
    ///
    /// 0 says that the source has ended. The last line is forgotten.
    pub fn fill<S: Source>(&mut self, source: &mut S, most: usize) -> Result<usize, DeviceError>
        requires room { length self.old.pending < CAPACITY }
        requires some { 0 < most }
        ensures line { self.new.line ≡ [] }
        ensures bound { IfOk result (λ n. n ≤ most) }
        ensures arrives { IfOk result (λ n. Arrives
            self.old.pending self.new.pending (S.remaining source.old) (S.remaining source.new) n) }
        ensures count { IfOk result (λ n. S.passed source.new ≡ S.passed source.old + n) }
        ensures end { IfOk result (λ n. n ≡ 0 → IsAtEnd (S.remaining source.new)) }
        ensures works { OnOk result (S.failures source.new ≡ S.failures source.old) }

        ensures failed { OnErr result (S.failures source.new ≡ one_more (S.failures source.old)) }
        ensures none_passed { OnErr result (S.passed source.new ≡ S.passed source.old) }
        ensures none_lost { OnErr result (Keeps (S.remaining source.old) (S.remaining source.new)) }
        ensures unchanged { OnErr result (self.new.pending ≡ self.old.pending) }
    {
        self.line_len = 0;
        (self.start, self.end) = make_room(&mut self.buffer, self.start, self.end);
        let room = most.min(CAPACITY - self.end);
        let count = read_at(source, &mut self.buffer, self.end, room)?;
        self.end += count;
        Ok(count)
    }
}

/// Where the bytes between two places stand once there is room behind them.
///
/// They are moved to the front only where they reach the end of the buffer.
fn make_room(buffer: &mut [u8], start: usize, end: usize) -> (usize, usize)
    requires in_order { start ≤ end }
    requires inside { end ≤ length buffer.old }
    requires room { end - start < length buffer.old }
    ensures len { length buffer.new ≡ length buffer.old }
    ensures count { result.1 ≡ result.0 + (end - start) }
    ensures room { result.1 < length buffer.new }
    ensures bytes { take (end - start) (drop result.0 buffer.new)
        ≡ take (end - start) (drop start buffer.old) }
{
    if end < buffer.len() {
        return (start, end);
    }
    buffer.copy_within(start..end, 0);
    (0, end - start)
}

/// Moves bytes to the front of the buffer, where they do not stand there.
fn move_to_front(buffer: &mut [u8], start: usize, count: usize)
    requires { start + count ≤ length buffer.old }
    ensures len { length buffer.new ≡ length buffer.old }
    ensures bytes { take count buffer.new ≡ take count (drop start buffer.old) }
{
    if start > 0 {
        buffer.copy_within(start..start + count, 0);
    }
}

/// Reads at most `most` bytes into the buffer from this place on.
fn read_at<S: Source>(
    source: &mut S,
    buffer: &mut [u8],
    place: usize,
    most: usize,
) -> Result<usize, DeviceError>
    requires { place + most ≤ length buffer.old }
    ensures len { length buffer.new ≡ length buffer.old }
    ensures before { take place buffer.new ≡ take place buffer.old }
    ensures bound { IfOk result (λ n. n ≤ most) }
    ensures count { IfOk result (λ n. S.passed source.new ≡ S.passed source.old + n) }
    ensures bytes { IfOk result (λ n. Consumes
        (S.remaining source.old) (S.remaining source.new) (take n (drop place buffer.new))) }
    ensures end { IfOk result (λ n. n ≡ 0 → 0 < most → IsAtEnd (S.remaining source.new)) }
    ensures works { OnOk result (S.failures source.new ≡ S.failures source.old) }
    ensures failed { OnErr result (S.failures source.new ≡ one_more (S.failures source.old)) }
    ensures none_passed { OnErr result (S.passed source.new ≡ S.passed source.old) }
    ensures none_lost { OnErr result (Keeps (S.remaining source.old) (S.remaining source.new)) }
{
    source.read(&mut buffer[place..place + most])
}
