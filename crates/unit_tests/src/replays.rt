//! Readers and writers that fail in the middle of the script.
use crate::script::{LINES, REPLIES, first_line, first_replies};
use byte_io::{DeviceError, FailAt, ShortReads, Sink, SliceSource, VecSink};
use replay::{ReplayFault, replay};
use std::alloc::Global;
use std::test::Fail;

/// How many lines end in the bytes.
fn count_feeds(bytes: &[u8]) -> usize {
    bytes.iter().filter(|byte| **byte == b'\n').count()
}

/// How the replay ends, and what is written, where the read of that number fails, of so many bytes
/// each.
fn read_failing(alloc: Global, most: usize, failing: u64) -> (Result<(), ReplayFault>, VecSink) {
    let short = ShortReads::new(SliceSource::new(LINES.as_bytes()), most.max(1));
    let mut sink = VecSink::new(alloc);
    let outcome = replay(alloc, &mut FailAt::new(short, failing), &mut sink);
    (outcome, sink)
}

/// How many replies are due where so many reads of so many bytes went well.
fn replies_due(most: usize, reads: u64) -> usize {
    let passed = most.saturating_mul(reads as usize).min(LINES.len());
    count_feeds(&LINES.as_bytes()[..passed])
}

/// Whether just these replies are due where so many reads of so many bytes went well.
fn is_due(alloc: Global, most: usize, reads: u64, written: &[u8]) -> Result<bool, Fail> {
    let replies = first_replies(alloc, replies_due(most, reads))?;
    Ok(written == replies.as_bytes())
}

// Where a read gives just the first line, its answer comes before the second read fails.
#[test]
fn one_read_fails(rt: HostRuntime) -> Result<(), Fail> {
    for most in [1, 7, 100, first_line(), 65_538] {
        for reads in 0u64..1_000 {
            let (outcome, sink) = read_failing(rt.alloc(), most, reads.saturating_add(1));
            if outcome == Ok(()) {
                assert!(rt; sink.as_slice() == REPLIES.as_bytes(), "of {most}");
                break;
            }
            let is_due = is_due(rt.alloc(), most, reads, sink.as_slice())?;
            assert!(rt;
                outcome == Err(ReplayFault::Read) && is_due,
                "after {reads} of {most}"
            );
        }
    }
    Ok(())
}

// The answers to the lines of one read are written together: no second write is made.
#[test]
fn lines_of_one_read_take_one_write(rt: HostRuntime) {
    let mut sink = FailAt::new(VecSink::new(rt.alloc()), 2);
    let outcome = replay(
        rt.alloc(),
        &mut SliceSource::new(LINES.as_bytes()),
        &mut sink,
    );
    assert!(rt; outcome == Ok(()) && sink.inner.as_slice() == REPLIES.as_bytes());
}

/// A sink that takes one byte a write.
#[derive(Drop)]
struct ByteByByte<W> {
    inner: W,
}

impl<W: Sink> Sink for ByteByByte<W> {
    ghost contents = { λ s. W.contents s.inner };

    ghost failures = { λ s. W.failures s.inner };

    fn write(&mut self, bytes: &[u8]) -> Result<usize, DeviceError> {
        let count = bytes.len().min(1);
        self.inner.write(&bytes[..count])
    }
}

#[test]
fn a_write_fails_within_a_reply(rt: HostRuntime) {
    for written in 0..REPLIES.len() {
        let slow = ByteByByte {
            inner: VecSink::new(rt.alloc()),
        };
        let mut sink = FailAt::new(slow, (written as u64).saturating_add(1));
        let outcome = replay(
            rt.alloc(),
            &mut SliceSource::new(LINES.as_bytes()),
            &mut sink,
        );
        let front = &REPLIES.as_bytes()[..written];
        assert!(rt; outcome == Err(ReplayFault::Write), "after {written} bytes");
        assert!(rt;
            sink.inner.inner.as_slice() == front,
            "after {written} bytes"
        );
    }
}
