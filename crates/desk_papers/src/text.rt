//! The text of the results.
ghost use Rattle.std.specs.Prelude.{◌≡◌, ◌++◌, IfOk, OnOk, codes};
ghost use Rattle.desk_papers.specs.PrintedResults.{line, not_voted, tally_text, figures, heading, resolution_text, resolutions_text, opening, session_text, sessions_text, head_text, meeting_text, results_of};

use crate::number::{push_figure, push_number};
use crate::state::{State, state_of, state_word};
use desk_words::{
    Meeting, Moment, Poll, Resolution, Session, Tally, find_poll, write_day, write_moment,
};
use party_views::PublicRecord;
use std::alloc::{AllocError, Global};

/// Adds a line with a label and a value.
fn push_line(text: &mut Vec<u8>, label: &str, value: &[u8]) -> Result<(), AllocError>
    ensures { OnOk result (text.new.items ≡ text.old.items ++ line label.now value.now) }
{
    text.extend_from_slice(label.as_bytes())?;
    text.push(b' ')?;
    text.extend_from_slice(value)?;
    text.push(b'\n')?;
    Ok(())
}

fn not_voted(tally: &Tally) -> u64
    ensures { result ≡ not_voted tally.now }
{
    tally
        .eligible
        .saturating_sub(tally.votes_for)
        .saturating_sub(tally.votes_against)
        .saturating_sub(tally.withheld)
}

fn push_tally(alloc: Global, text: &mut Vec<u8>, tally: &Tally) -> Result<(), AllocError>
    ensures { OnOk result (text.new.items ≡ text.old.items ++ tally_text tally.now) }
{
    push_figure(alloc, text, "for       ", tally.votes_for)?;
    push_figure(alloc, text, "against   ", tally.votes_against)?;
    push_figure(alloc, text, "withheld  ", tally.withheld)?;
    push_figure(alloc, text, "not voted ", not_voted(tally))?;
    push_figure(alloc, text, "eligible  ", tally.eligible)
}

fn push_figures(alloc: Global, text: &mut Vec<u8>, state: State) -> Result<(), AllocError>
    ensures { OnOk result (text.new.items ≡ text.old.items ++ figures state) }
{
    match state {
        State::Declared(declaration) => push_tally(alloc, text, &declaration.tally),
        _ => Ok(()),
    }
}

fn heading(
    alloc: Global,
    number: u64,
    resolution: &Resolution,
    state: State,
) -> Result<Vec<u8>, AllocError>
    ensures { IfOk result (λ value. value.items ≡ heading number resolution.now state) }
{
    let mut value = Vec::new(alloc);
    push_number(alloc, &mut value, number)?;
    value.push(b' ')?;
    value.extend_from_slice(resolution.kind.word().as_bytes())?;
    value.push(b' ')?;
    value.extend_from_slice(state_word(state).as_bytes())?;
    Ok(value)
}

fn push_resolution(
    alloc: Global,
    text: &mut Vec<u8>,
    number: u64,
    resolution: &Resolution,
    state: State,
) -> Result<(), AllocError>
    ensures { OnOk result
        (text.new.items ≡ text.old.items ++ resolution_text number resolution.now state) }
{
    let heading = heading(alloc, number, resolution, state)?;
    push_line(text, "resolution", &heading)?;
    push_line(text, "text", resolution.text.as_str().as_bytes())?;
    push_figures(alloc, text, state)
}

fn push_opening(text: &mut Vec<u8>, opened: Option<Moment>) -> Result<(), AllocError>
    ensures { OnOk result
        (text.new.items ≡ text.old.items ++ line (codes "opened") (opening opened)) }
{
    match opened {
        None => push_line(text, "opened", b"-"),
        Some(moment) => push_line(text, "opened", &write_moment(moment)),
    }
}

/// The number, the appointed time and the opening of a session.
fn session_text(alloc: Global, number: u64, session: &Session) -> Result<Vec<u8>, AllocError>
    ensures { IfOk result (λ value. value.items ≡ session_text number session.now) }
{
    let mut value = Vec::new(alloc);
    push_number(alloc, &mut value, number)?;
    value.push(b' ')?;
    value.extend_from_slice(&write_moment(session.appointed))?;
    value.push(b' ')?;
    match session.opened {
        None => value.push(b'-')?,
        Some(moment) => value.extend_from_slice(&write_moment(moment))?,
    }
    Ok(value)
}

/// Adds a line for each of the sessions to which the meeting was adjourned.
fn push_sessions(alloc: Global, text: &mut Vec<u8>, sessions: &[Session]) -> Result<(), AllocError>
    ensures { OnOk result
        (text.new.items ≡ text.old.items ++ sessions_text 2 sessions.now) }
{
    let mut number = 2;
    for session in sessions {
        let value = session_text(alloc, number, session)?;
        push_line(text, "session", &value)?;
        number += 1;
    }
    Ok(())
}

fn push_head(text: &mut Vec<u8>, meeting: &Meeting) -> Result<(), AllocError>
    ensures { OnOk result (text.new.items ≡ text.old.items ++ head_text meeting.now) }
{
    push_line(text, "meeting", meeting.id.as_str().as_bytes())?;
    push_line(text, "company", meeting.company.word().as_bytes())?;
    push_line(text, "kind", meeting.kind.word().as_bytes())?;
    push_line(text, "given", &write_day(meeting.given))?;
    push_line(text, "appointed", &write_moment(meeting.first.appointed))?;
    push_opening(text, meeting.first.opened)
}

fn push_resolutions(
    alloc: Global,
    text: &mut Vec<u8>,
    polls: &[Poll],
    resolutions: &[Resolution],
) -> Result<(), AllocError>
    ensures { OnOk result
        (text.new.items ≡ text.old.items ++ resolutions_text polls.now 1 resolutions.now) }
{
    let mut number = 1;
    for resolution in resolutions {
        let state = state_of(resolution.kind, find_poll(polls, number));
        push_resolution(alloc, text, number, resolution, state)?;
        number += 1;
    }
    Ok(())
}

/// The text of the results that a public record shows. The error is want of memory.
pub(crate) fn results_text(alloc: Global, public: &PublicRecord<'_>) -> Result<Vec<u8>, AllocError>
    ensures { IfOk result (λ text. text.items ≡ results_of public.now) }
{
    let mut text = Vec::new(alloc);
    if let Some(meeting) = public.meeting() {
        push_head(&mut text, meeting)?;
        push_sessions(alloc, &mut text, meeting.later.as_slice())?;
        push_resolutions(
            alloc,
            &mut text,
            public.polls(),
            meeting.resolutions.as_slice(),
        )?;
    }
    Ok(text)
}
