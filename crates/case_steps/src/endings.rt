//! How the program ends.
use crate::findings::Answer;
use cli_exit::{Ended, ExitError};
use desk_words::Refusal;
use std::alloc::{AllocError, Global};

const FAULTS: [ExitError; 9] = [
    ExitError::Store,
    ExitError::Memory,
    ExitError::NotADesk,
    ExitError::NewerVersion,
    ExitError::NotEmpty,
    ExitError::ReadFault,
    ExitError::WriteFault,
    ExitError::Socket,
    ExitError::Clock,
];

const REFUSALS: [Refusal; 34] = [
    Refusal::Key,
    Refusal::Route,
    Refusal::Method,
    Refusal::TooLarge,
    Refusal::Unreadable,
    Refusal::OfficeOnly,
    Refusal::PartyOnly,
    Refusal::NoMeeting,
    Refusal::Exists,
    Refusal::ShortNotice,
    Refusal::NoResolution,
    Refusal::BadRange,
    Refusal::SelfNamed,
    Refusal::BadInstructions,
    Refusal::TooMany,
    Refusal::NoSuchNumber,
    Refusal::AlreadyEnded,
    Refusal::NoRegister,
    Refusal::OtherRecord,
    Refusal::Opened,
    Refusal::NotOpened,
    Refusal::Early,
    Refusal::NoQuorum,
    Refusal::NotPresent,
    Refusal::NoRight,
    Refusal::PollOrdered,
    Refusal::NoPoll,
    Refusal::DemandTooSmall,
    Refusal::PollNotOpen,
    Refusal::PollClosed,
    Refusal::NotClosed,
    Refusal::Declared,
    Refusal::NotYours,
    Refusal::AgainstInstruction,
];

/// The status, and under it the line on standard error if there is one.
pub fn ended_text(alloc: Global, ended: Ended) -> Result<String, AllocError> {
    let Ended { status, line } = ended;
    match line {
        Some(line) => format!(in alloc; "status {status}\n{line}\n"),
        None => format!(in alloc; "status {status}\n"),
    }
}

fn ended_answer(alloc: Global, ended: Ended) -> Result<Answer, AllocError> {
    Ok(Answer::new(alloc, ended_text(alloc, ended)?))
}

/// The end by the fault of this word.
pub(crate) fn fault_answer(alloc: Global, word: &str) -> Result<Answer, AllocError> {
    match FAULTS.iter().find(|fault| fault.word() == word) {
        Some(fault) => ended_answer(alloc, Ended::by(*fault)),
        None => Answer::of(alloc, "no fault has this word"),
    }
}

/// The end by the refusal of this number.
pub(crate) fn refusal_answer(alloc: Global, number: &str) -> Result<Answer, AllocError> {
    let number = number.parse::<usize>().ok();
    match number.and_then(|number| REFUSALS.get(number.checked_sub(1)?)) {
        Some(refusal) => ended_answer(alloc, Ended::by_refusal(*refusal)),
        None => Answer::of(alloc, "no refusal has this number"),
    }
}

/// The end once the work is done.
pub(crate) fn well_ended(alloc: Global) -> Result<Answer, AllocError> {
    ended_answer(alloc, Ended::done())
}
