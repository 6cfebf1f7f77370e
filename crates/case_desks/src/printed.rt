//! What is printed of a book, by a device that fails.
use crate::devices::ByteByByte;
use byte_io::{FailAt, VecSink};
use desk_papers::{PrintError, print_results};
use desk_words::MeetingId;
use meeting_core::Book;
use std::alloc::{AllocError, Global};

/// Whether just so many bytes from the front of a meeting's results are printed where the next
/// write fails; or all of them, where there is no next one.
fn prints_front(
    alloc: Global,
    book: &Book,
    meeting: MeetingId,
    text: &[u8],
    written: usize,
) -> bool {
    let slow = ByteByByte {
        inner: VecSink::new(alloc),
    };
    let mut sink = FailAt::new(slow, (written as u64).saturating_add(1));
    let outcome = print_results(alloc, &book.public_of(meeting), &mut sink);
    let is_ended_so = if written < text.len() {
        outcome == Err(PrintError::WriteFault)
    } else {
        outcome == Ok(())
    };
    is_ended_so && Some(sink.inner.inner.as_slice()) == text.get(..written)
}

/// Prints the results of a meeting of a book with each write failing in turn, and with none, and
/// adds a line to what is wrong where what is written is not the front of this text, or all of it.
pub(crate) fn print_failing(
    alloc: Global,
    book: &Book,
    meeting: MeetingId,
    text: &[u8],
    wrong: &mut String,
) -> Result<(), AllocError> {
    for written in 0..text.len().saturating_add(1) {
        if !prints_front(alloc, book, meeting, text, written) {
            writeln!(
                wrong,
                "the book beside it prints not just {written} bytes of this"
            )?;
        }
    }
    Ok(())
}
