//! What files spell.
//!
//! A small file is read in several ways: whole, a few bytes at a time, and with each read failing
//! in turn. It has to spell the same however the bytes come, and a read that fails is reported,
//! whatever the file says.
use crate::endings::ended_text;
use crate::findings::Answer;
use byte_io::{FailAt, ShortReads, SliceSource};
use cli_exit::Ended;
use desk_papers::{FileError, read_days, read_keys, read_register};
use desk_words::{Caller, DayList, KeyRows, Register, write_day};
use std::alloc::{AllocError, Global};

/// The most bytes of a file that is read in several ways.
const SMALL: usize = 256;

/// A kind of files that the office hands in.
#[derive(Clone, Copy)]
enum FileKind {
    Register,
    Keys,
    Days,
}

fn register_text(alloc: Global, register: &Register) -> Result<String, AllocError> {
    let mut text = format!(in alloc; "{} rows\n", register.rows().len())?;
    for row in register.rows() {
        let member = row.member.as_str();
        let kind = row.kind.word();
        let name = row.name.as_str();
        writeln!(text, "{member} {kind} {} {} {name}", row.shares, row.paid)?;
    }
    Ok(text)
}

fn keys_text(alloc: Global, keys: &KeyRows) -> Result<String, AllocError> {
    let mut text = format!(in alloc; "{} keys\n", keys.as_slice().len())?;
    for row in keys.as_slice() {
        let secret = row.secret.as_str();
        match &row.caller {
            Caller::Office => writeln!(text, "OFFICE {secret}")?,
            Caller::Party(party) => writeln!(text, "{} {secret}", party.as_str())?,
        }
    }
    Ok(text)
}

fn days_text(alloc: Global, days: &DayList) -> Result<String, AllocError> {
    let mut text = format!(in alloc; "{} days\n", days.as_slice().len())?;
    for day in days.as_slice() {
        let written = write_day(*day);
        writeln!(text, "{}", String::from_utf8_lossy(alloc, &written)?)?;
    }
    Ok(text)
}

fn fault_text(alloc: Global, fault: FileError) -> Result<String, AllocError> {
    ended_text(alloc, Ended::by_file(fault))
}

/// What the bytes of a file spell, or its fault, where at most so many of them come at a time, and
/// the read of that number fails, or none where it is 0.
fn spelled(
    alloc: Global,
    kind: FileKind,
    bytes: &[u8],
    most: usize,
    failing: u64,
) -> Result<String, AllocError> {
    let short = ShortReads::new(SliceSource::new(bytes), most.max(1));
    let mut source = FailAt::new(short, failing);
    let found = match kind {
        FileKind::Register => read_register(alloc, &mut source).map(|register| register_text(
            alloc, &register,
        )),
        FileKind::Keys => read_keys(alloc, &mut source).map(|keys| keys_text(alloc, &keys)),
        FileKind::Days => read_days(alloc, &mut source).map(|days| days_text(alloc, &days)),
    };
    match found {
        Ok(text) => text,
        Err(fault) => fault_text(alloc, fault),
    }
}

/// Reads a small file a few bytes at a time, first with no failure and then with each read failing
/// in turn, the one that finds the end among them, and tells each answer that is not due.
fn read_by(
    alloc: Global,
    kind: FileKind,
    bytes: &[u8],
    most: usize,
    answer: &mut Answer,
) -> Result<(), AllocError> {
    let failed = fault_text(alloc, FileError::ReadFault)?;
    let reads = bytes.len().div_ceil(most.max(1)).saturating_add(1) as u64;
    for failing in 0..=reads.saturating_add(1) {
        let spelled = spelled(alloc, kind, bytes, most, failing)?;
        let is_due = if 1 <= failing && failing <= reads {
            spelled == failed
        } else {
            spelled == answer.text
        };
        answer.tries = answer.tries.saturating_add(1);
        if !is_due {
            writeln!(
                answer.wrong,
                "read by {most} bytes, the read {failing} failing: {spelled}"
            )?;
        }
    }
    Ok(())
}

/// What the bytes of a file of this kind spell, or its fault.
pub(crate) fn file_answer(alloc: Global, kind: &str, bytes: &[u8]) -> Result<Answer, AllocError> {
    let kind = match kind {
        "register" => FileKind::Register,
        "keys" => FileKind::Keys,
        "days" => FileKind::Days,
        _ => return Answer::of(alloc, "no kind of files"),
    };
    let text = spelled(alloc, kind, bytes, bytes.len(), 0)?;
    let mut answer = Answer::new(alloc, text);
    if bytes.len() <= SMALL {
        for most in [1, 7] {
            read_by(alloc, kind, bytes, most, &mut answer)?;
        }
    }
    Ok(answer)
}
