//! Lines of a source that gives one byte a read, or fails.
use byte_io::{FailAt, ShortReads, SliceSource, Source};
use line_reader::{LineReader, NextLine};
use std::alloc::Global;
use std::test::Fail;

/// The lines of a source, each with a `|` behind it, `#` for one that is too long, and `!` where
/// the reader failed.
fn sent<S: Source>(alloc: Global, source: &mut S) -> Result<Vec<u8>, Fail> {
    let mut reader = LineReader::new();
    let mut sent = Vec::new(alloc);
    for _ in 0..u32::MAX {
        match reader.next_line(source) {
            Ok(NextLine::Whole) => sent.extend_from_slice(reader.line())?,
            Ok(NextLine::TooLong) => sent.push(b'#')?,
            Ok(NextLine::End) => break,
            Err(_) => {
                sent.push(b'!')?;
                break;
            }
        }
        sent.push(b'|')?;
    }
    Ok(sent)
}

const CASES: &[(&[u8], &[u8])] = &[
    (b"", b""),
    (b"a", b"a|"),
    (b"a\n", b"a|"),
    (b"a\nb", b"a|b|"),
    (b"a\r\nb\r\n", b"a|b|"),
    (b"a\r", b"a\r|"),
    (b"a\r\r\n", b"a\r|"),
    (b"\n", b"|"),
    (b"\r\n\n", b"||"),
    (b"\r", b"\r|"),
    (b"a\rb\n\nc", b"a\rb||c|"),
    (b"one\ntwo\r\nthree", b"one|two|three|"),
];

#[test]
fn lines_of_single_bytes(rt: HostRuntime) -> Result<(), Fail> {
    for &(input, lines) in CASES {
        let sent = sent(rt.alloc(), &mut ShortReads::new(SliceSource::new(input), 1))?;
        assert!(rt; sent.as_slice() == lines);
    }
    Ok(())
}

/// What is told where no read fails, the first, the second and the third.
const WANTS: &[&[u8]] = &[b"one|two|", b"!", b"one|!", b"one|two|!"];

#[test]
fn a_read_that_fails(rt: HostRuntime) -> Result<(), Fail> {
    for (failing, want) in WANTS.iter().enumerate() {
        let slow = ShortReads::new(SliceSource::new(b"one\ntwo\n"), 4);
        let sent = sent(rt.alloc(), &mut FailAt::new(slow, failing as u64))?;
        assert!(rt; sent.as_slice() == *want, "at {failing}");
    }
    Ok(())
}

#[test]
fn bytes_that_are_taken_are_counted(rt: HostRuntime) {
    let mut source = SliceSource::new(b"one\r\ntwo");
    let mut reader = LineReader::new();
    let first = reader.next_line(&mut source);
    let second = reader.next_line(&mut source);
    assert!(rt; first == Ok(NextLine::Whole) && second == first && reader.taken() == 8);
}
