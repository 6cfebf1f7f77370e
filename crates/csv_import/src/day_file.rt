//! Files of closed days.
ghost use Rattle.std.specs.Prelude.{◌≡◌, ℕ, ◌+◌, ◌≤◌, List, length, position, Ok, IfOk, IfErr};
ghost use Rattle.std.specs.BTreeSet.{keys, IsOrdered};
ghost use Rattle.std.specs.Ordering.{nat_cmp};
ghost use Rattle.vocabulary.specs.Identity.{id};
ghost use Rattle.csv.specs.Reading.{is_bom, strip_bom};
ghost use Rattle.line_reader.specs.Lines.{is_feed, without_return, first_line, after_line};
ghost use Rattle.csv_import.specs.DayFiles.{with_day, with_line, day_file};
ghost use Rattle.csv_import.specs.FileErrors.{FileAgrees, IfRecordsRead};
ghost use Rattle.csv_import.specs.WholeFiles.{IsReadCause, HasReceived, IsReadWhole};

use crate::fault::{FileError, Why};
use crate::whole::{DAY_FILE_LIMIT, read_whole};
use byte_io::Source;
use desk_words::limits::MOST_CLOSED_DAYS;
use desk_words::{Day, DayList, ListFault, read_day};
use std::alloc::{AllocError, Global};
use std::collections::BTreeSet;

fn is_mark(first: u8, second: u8, third: u8) -> bool
    ensures { result ≡ is_bom first second third }
{
    first == 0xEF && second == 0xBB && third == 0xBF
}

/// The bytes without a byte order mark at their front.
fn without_mark(bytes: &[u8]) -> &[u8]
    ensures { result.now ≡ strip_bom bytes.now }
{
    if bytes.len() < 3 {
        return bytes;
    }
    if is_mark(bytes[0], bytes[1], bytes[2]) {
        &bytes[3..]
    } else {
        bytes
    }
}

fn feed_place(bytes: &[u8]) -> Option<usize>
    ensures { result ≡ position is_feed bytes.now }
{
    bytes.iter().position(|byte| *byte == b'\n')
}

fn without_return(bytes: &[u8]) -> &[u8]
    ensures { result.now ≡ without_return bytes.now }
{
    match bytes {
        [line @ .., b'\r'] => line,
        _ => bytes,
    }
}

/// The first line, and what stands after the line feed that ends it. A carriage return right before
/// that line feed is no part of the line.
fn split_line(bytes: &[u8]) -> (&[u8], &[u8])
    ensures line { result.0.now ≡ first_line bytes.now }
    ensures rest { result.1.now ≡ after_line bytes.now }
{
    match feed_place(bytes) {
        None => (bytes, &[]),
        Some(place) => (without_return(&bytes[..place]), &bytes[place + 1..]),
    }
}

/// The days so far, in order, each once, and one day more.
#[tactic(auto, unfolding(crate::specs::DayFiles::with_day))]
fn with_day(line: u64, so_far: BTreeSet<Day>, day: Day) -> Result<BTreeSet<Day>, FileError>
    ensures days { FileAgrees keys result (with_day line (keys so_far) day) }
    ensures few { IfOk result (λ days. length (keys days) ≤ MOST_CLOSED_DAYS) }
{
    let mut days = so_far;
    days.insert(day)?;
    if days.len() > MOST_CLOSED_DAYS {
        return Err(FileError::BadRow {
            line,
            why: Why::Rows,
        });
    }
    Ok(days)
}

/// The days so far, and that of one line more.
#[tactic(auto, unfolding(crate::specs::DayFiles::with_line))]
fn with_line(line: u64, so_far: BTreeSet<Day>, text: &[u8]) -> Result<BTreeSet<Day>, FileError>
    requires { length (keys so_far) ≤ MOST_CLOSED_DAYS }
    ensures days { FileAgrees keys result (with_line line (keys so_far) text.now) }
    ensures few { IfOk result (λ days. length (keys days) ≤ MOST_CLOSED_DAYS) }
{
    if text.is_empty() {
        return Ok(so_far);
    }
    match read_day(text) {
        Some(day) => with_day(line, so_far, day),
        None => Err(FileError::BadRow {
            line,
            why: Why::Day,
        }),
    }
}

fn listed(alloc: Global, days: &BTreeSet<Day>) -> Result<Vec<Day>, AllocError>
    ensures value { IfOk result (λ listed. listed.items ≡ keys days.now) }
    ensures ordered { IsOrdered nat_cmp days.now }
{
    days.iter().copied().collect(alloc)
}

fn day_list(alloc: Global, days: BTreeSet<Day>) -> Result<DayList, FileError>
    requires { length (keys days) ≤ MOST_CLOSED_DAYS }
    ensures { FileAgrees id result (Ok (keys days)) }
{
    let listed = listed(alloc, &days)?;
    match DayList::new(listed) {
        Ok(days) => Ok(days),
        // There are at most `MOST_CLOSED_DAYS`.
        Err(ListFault::Limit) => Err(FileError::BadRow {
            line: 1,
            why: Why::Rows,
        }),
        Err(ListFault::Memory) => Err(FileError::Memory),
    }
}

/// The days that the bytes of a file spell, or its first fault.
fn days_in(alloc: Global, bytes: &[u8]) -> Result<DayList, FileError>
    requires { length bytes.now ≤ DAY_FILE_LIMIT }
    ensures { FileAgrees id result (day_file bytes.now) }
{
    let mut rest = without_mark(bytes);
    let mut days = BTreeSet::new(alloc);
    let mut line = 1;
    while !rest.is_empty() {
        let (text, after) = split_line(rest);
        days = match with_line(line, days, text) {
            Ok(more) => more,
            Err(fault) => return Err(fault),
        };
        rest = after;
        line += 1;
    }
    day_list(alloc, days)
}

/// Reads the closed days (section 1173) that a file spells, a day `YYYY-MM-DD` on each line. Empty
/// lines are passed over, and a day may stand on several lines.
///
/// The file has at most 65,536 bytes. The first fault is answered: `Day` for a line that is no day,
/// and `Rows` for the line that brings the 2,001st different day. Lines are counted from 1, empty
/// ones too. `ReadFault` says that a read failed or that more bytes came, of which it takes one;
/// `Memory`, that an allocation was refused.
pub fn read_days<S: Source>(alloc: Global, source: &mut S) -> Result<DayList, FileError>
    ensures spelled { IfRecordsRead result
        ((bytes : List ℕ) × HasReceived bytes (S.remaining source.old) (S.passed source.old)
        (S.passed source.new) × FileAgrees id result (day_file bytes)) }
    ensures whole { IfRecordsRead result
        (IsReadWhole DAY_FILE_LIMIT (S.remaining source.old) (S.remaining source.new)
        (S.passed source.old) (S.passed source.new) (S.failures source.old)
        (S.failures source.new)) }
    ensures cause { IfErr result
        (λ fault. IsReadCause fault DAY_FILE_LIMIT (S.passed source.old) (S.passed source.new)
        (S.failures source.old) (S.failures source.new)) }
    ensures bound { S.passed source.new ≤ S.passed source.old + DAY_FILE_LIMIT + 1 }
{
    let bytes = match read_whole(alloc, source, DAY_FILE_LIMIT) {
        Ok(bytes) => bytes,
        Err(fault) => return Err(fault),
    };
    days_in(alloc, &bytes)
}
