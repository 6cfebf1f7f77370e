//! Devices for tests: one that fails at a chosen call, and one that gives little at a time.
ghost use Rattle.std.specs.Prelude.{◌≡◌, ◌≢◌, ℕ, ◌+◌, ◌-◌, ◌<◌, ◌≤◌, length, take, IfOk, IsErr, IsTrue, if◌then◌else◌, ◌==◌, ◌↔◌, OnOk, OnErr};
ghost use Rattle.std.specs.Io.KnownBytes.{Appends, Consumes, Keeps, IsAtEnd};
ghost use Rattle.byte_io.specs.Counts.{one_more, total_count};

use crate::failure::{DeviceError, counted};
use crate::sink::Sink;
use crate::source::Source;

/// A source or a sink that fails at one call, and passes every other call on to `inner`.
#[derive(Drop)]
pub struct FailAt<D> {
    pub inner: D,
    /// Which of the calls to come fails: 1 is the next one, and at 0 none fails.
    pub failing_call: u64,
    /// How many calls failed without reaching `inner`. It stays at `u64::MAX`.
    pub own_failures: u64,
}

impl<D> FailAt<D> {
    /// Fails the call of this number, counted from 1. At 0 it fails none.
    pub fn new(inner: D, failing_call: u64) -> FailAt<D>
        ensures inner { result.inner ≡ inner }
        ensures call { result.failing_call ≡ failing_call }
        ensures failures { result.own_failures ≡ 0 }
    {
        FailAt {
            inner,
            failing_call,
            own_failures: 0,
        }
    }

    /// Counts one call, and says whether it is the one that fails.
    fn count_call(&mut self) -> bool
        ensures fails { IsTrue result ↔ (self.old.failing_call ≡ 1) }
        ensures counts_down { self.new.failing_call ≡ self.old.failing_call - 1 }
        ensures failures { self.new.own_failures
            ≡ (if result then one_more self.old.own_failures else self.old.own_failures) }
        ensures same_inner { self.new.inner ≡ self.old.inner }
    {
        let fails = self.failing_call == 1;
        self.failing_call = self.failing_call.saturating_sub(1);
        if fails {
            self.own_failures = counted(self.own_failures);
        }
        fails
    }
}

impl<S: Source> Source for FailAt<S> {
    ghost remaining = { λ d. S.remaining d.inner };

    ghost passed = { λ d. S.passed d.inner };

    ghost failures = { λ d. total_count d.own_failures (S.failures d.inner) };

    fn read(&mut self, buffer: &mut [u8]) -> Result<usize, DeviceError>
        ensures bound { IfOk result (λ n. n ≤ length buffer.new) }
        ensures count { IfOk result (λ n. S.passed self.new.inner ≡ S.passed self.old.inner + n) }
        ensures bytes { IfOk result
            (λ n. Consumes (S.remaining self.old.inner) (S.remaining self.new.inner)
            (take n buffer.new)) }
        ensures end { IfOk result
            (λ n. n ≡ 0 → 0 < length buffer.old → IsAtEnd (S.remaining self.new.inner)) }
        ensures works { OnOk result
            (total_count self.new.own_failures (S.failures self.new.inner)
            ≡ total_count self.old.own_failures (S.failures self.old.inner)) }
        ensures failed { OnErr result
            (total_count self.new.own_failures (S.failures self.new.inner)
            ≡ one_more (total_count self.old.own_failures (S.failures self.old.inner))) }
        ensures none_passed { OnErr result (S.passed self.new.inner ≡ S.passed self.old.inner) }
        ensures none_lost { OnErr result
            (Keeps (S.remaining self.old.inner) (S.remaining self.new.inner)) }

        // The chosen call fails, and does not reach the inner source.
        ensures fails { self.old.failing_call ≡ 1 → IsErr result }
        ensures stopped { self.old.failing_call ≡ 1 → self.new.inner ≡ self.old.inner }
        ensures passed_on { self.old.failing_call ≢ 1
            → self.new.own_failures ≡ self.old.own_failures }
        ensures counts_down { self.new.failing_call ≡ self.old.failing_call - 1 }
    {
        if self.count_call() {
            return Err(DeviceError);
        }
        self.inner.read(buffer)
    }
}

impl<W: Sink> Sink for FailAt<W> {
    ghost contents = { λ d. W.contents d.inner };

    ghost failures = { λ d. total_count d.own_failures (W.failures d.inner) };

    fn write(&mut self, bytes: &[u8]) -> Result<usize, DeviceError>
        ensures bound { IfOk result (λ n. n ≤ length bytes.now) }
        ensures written { IfOk result
            (λ n. Appends (W.contents self.old.inner) (W.contents self.new.inner)
            (take n bytes.now)) }
        ensures moves { IfOk result (λ n. 0 < length bytes.now → 0 < n) }
        ensures works { OnOk result
            (total_count self.new.own_failures (W.failures self.new.inner)
            ≡ total_count self.old.own_failures (W.failures self.old.inner)) }
        ensures failed { OnErr result
            (total_count self.new.own_failures (W.failures self.new.inner)
            ≡ one_more (total_count self.old.own_failures (W.failures self.old.inner))) }
        ensures none_written { OnErr result
            (Keeps (W.contents self.old.inner) (W.contents self.new.inner)) }

        // The chosen call fails, and does not reach the inner sink.
        ensures fails { self.old.failing_call ≡ 1 → IsErr result }
        ensures stopped { self.old.failing_call ≡ 1 → self.new.inner ≡ self.old.inner }
        ensures passed_on { self.old.failing_call ≢ 1
            → self.new.own_failures ≡ self.old.own_failures }
        ensures counts_down { self.new.failing_call ≡ self.old.failing_call - 1 }
    {
        if self.count_call() {
            return Err(DeviceError);
        }
        self.inner.write(bytes)
    }
}

/// A source that gives at most `most` bytes a read.
#[derive(Drop)]
pub struct ShortReads<S> {
    pub inner: S,
    pub most: usize,
    pub ghost gives_some: { 0 < most },
}

impl<S> ShortReads<S> {
    /// A source that gives at most `most` bytes a read, which are one at least.
    pub fn new(inner: S, most: usize) -> ShortReads<S>
        requires { 0 < most }
        ensures inner { result.inner ≡ inner }
        ensures most { result.most ≡ most }
    {
        ShortReads { inner, most }
    }
}

impl<S: Source> Source for ShortReads<S> {
    ghost remaining = { λ s. S.remaining s.inner };

    ghost passed = { λ s. S.passed s.inner };

    ghost failures = { λ s. S.failures s.inner };

    fn read(&mut self, buffer: &mut [u8]) -> Result<usize, DeviceError>
        ensures bound { IfOk result (λ n. n ≤ length buffer.new) }
        ensures count { IfOk result (λ n. S.passed self.new.inner ≡ S.passed self.old.inner + n) }
        ensures bytes { IfOk result
            (λ n. Consumes (S.remaining self.old.inner) (S.remaining self.new.inner)
            (take n buffer.new)) }
        ensures end { IfOk result
            (λ n. n ≡ 0 → 0 < length buffer.old → IsAtEnd (S.remaining self.new.inner)) }
        ensures works { OnOk result (S.failures self.new.inner ≡ S.failures self.old.inner) }
        ensures failed { OnErr result
            (S.failures self.new.inner ≡ one_more (S.failures self.old.inner)) }
        ensures none_passed { OnErr result (S.passed self.new.inner ≡ S.passed self.old.inner) }
        ensures none_lost { OnErr result
            (Keeps (S.remaining self.old.inner) (S.remaining self.new.inner)) }

        ensures short { IfOk result (λ n. n ≤ self.old.most) }
        ensures same_most { self.new.most ≡ self.old.most }
    {
        let most = self.most.min(buffer.len());
        self.inner.read(&mut buffer[..most])
    }
}
