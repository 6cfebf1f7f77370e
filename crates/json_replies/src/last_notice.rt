//! The last notice and its text, since most notices that are asked for are the same one again.
ghost use Rattle.std.specs.Prelude.{◌≡◌, IfOk, IfSome, IsTrue};
ghost use Rattle.json_replies.specs.NoticeJson.{notice_data};
ghost use Rattle.serde_json.specs.Written.{compact_text};

use desk_words::{
    Company, Declaration, MeetingKind, Notice, NoticedPoll, NoticedResolution, NoticedSession,
    ResKind, Tally,
};
use std::alloc::{AllocError, Global};
use std::marker::Model;

/// A notice, which contracts see, and its text.
#[derive(Drop)]
pub struct LastNotice {
    notice: Notice,
    text: Vec<u8>,
}

impl Model for LastNotice {
    ghost use Rattle.std.specs.Prelude.{◌≡◌};
    ghost use Rattle.desk_words.specs.declared.reply.Notice.{Notice};
    ghost use Rattle.json_replies.specs.NoticeJson.{notice_data};
    ghost use Rattle.serde_json.specs.Written.{compact_text};

    ghost Value = { Notice };

    ghost view = { λ k. k.notice };

    ghost invariant = { λ k. k.text.items ≡ compact_text (notice_data k.notice) };
}

fn is_same_company(one: Company, other: Company) -> bool
    ensures { IsTrue result → one ≡ other }
{
    one == other
}

fn is_same_kind(one: MeetingKind, other: MeetingKind) -> bool
    ensures { IsTrue result → one ≡ other }
{
    one == other
}

fn is_same_session(one: &NoticedSession, other: &NoticedSession) -> bool
    ensures { IsTrue result → one.now ≡ other.now }
{
    one == other
}

fn is_same_tally(one: Tally, other: Tally) -> bool
    ensures { IsTrue result → one ≡ other }
{
    one == other
}

fn has_same_result(one: Option<Declaration>, other: Option<Declaration>) -> bool
    ensures { IsTrue result → one ≡ other }
{
    match (one, other) {
        (None, None) => true,
        (Some(one), Some(other)) => {
            one.carried == other.carried && is_same_tally(one.tally, other.tally)
        }
        _ => false,
    }
}

fn has_same_order(one: &NoticedPoll, other: &NoticedPoll) -> bool
    ensures { IsTrue result → (one.now.session ≡ other.now.session)
        × (one.now.ordered ≡ other.now.ordered) × (one.now.take ≡ other.now.take)
        × (one.now.chair ≡ other.now.chair) }
{
    one.session == other.session
        && one.ordered == other.ordered
        && one.take == other.take
        && one.chair == other.chair
}

fn has_same_voting(one: &NoticedPoll, other: &NoticedPoll) -> bool
    ensures { IsTrue result → (one.now.started ≡ other.now.started)
        × (one.now.closed ≡ other.now.closed) × (one.now.late ≡ other.now.late)
        × (one.now.cutoff ≡ other.now.cutoff) }
{
    one.started == other.started
        && one.closed == other.closed
        && one.late == other.late
        && one.cutoff == other.cutoff
}

fn is_same_poll(one: &NoticedPoll, other: &NoticedPoll) -> bool
    ensures { IsTrue result → one.now ≡ other.now }
{
    has_same_order(one, other)
        && has_same_voting(one, other)
        && has_same_result(one.result, other.result)
}

fn has_same_poll(one: &Option<NoticedPoll>, other: &Option<NoticedPoll>) -> bool
    ensures { IsTrue result → one.now ≡ other.now }
{
    match (one, other) {
        (None, None) => true,
        (Some(one), Some(other)) => is_same_poll(one, other),
        _ => false,
    }
}

fn is_same_resolution_kind(one: ResKind, other: ResKind) -> bool
    ensures { IsTrue result → one ≡ other }
{
    one == other
}

fn is_same_resolution(one: &NoticedResolution, other: &NoticedResolution) -> bool
    ensures { IsTrue result → one.now ≡ other.now }
{
    one.number == other.number
        && is_same_resolution_kind(one.kind, other.kind)
        && has_same_poll(&one.poll, &other.poll)
        && one.text.is(&other.text)
}

fn are_same_resolutions(ones: &[NoticedResolution], others: &[NoticedResolution]) -> bool
    ensures { IsTrue result → ones.now ≡ others.now }
{
    if ones.len() != others.len() {
        return false;
    }
    for place in 0..ones.len() {
        if !is_same_resolution(&ones[place], &others[place]) {
            return false;
        }
    }
    true
}

fn has_same_heading(one: &Notice, other: &Notice) -> bool
    ensures { IsTrue result → (one.now.meeting ≡ other.now.meeting)
        × (one.now.company ≡ other.now.company) × (one.now.kind ≡ other.now.kind)
        × (one.now.given ≡ other.now.given) }
{
    one.meeting == other.meeting
        && is_same_company(one.company, other.company)
        && is_same_kind(one.kind, other.kind)
        && one.given == other.given
}

/// Whether both have the same sessions, of which there is one, and the same register. Of a meeting
/// that was adjourned it tells nothing.
fn has_same_sessions(one: &Notice, other: &Notice) -> bool
    ensures { IsTrue result → (one.now.first ≡ other.now.first) × (one.now.later ≡ other.now.later)
        × (one.now.record_moment ≡ other.now.record_moment) × (one.now.loaded ≡ other.now.loaded) }
{
    is_same_session(&one.first, &other.first)
        && one.later.is_empty()
        && other.later.is_empty()
        && one.record_moment == other.record_moment
        && one.loaded == other.loaded
}

/// Whether both are the same notice. Of a meeting that was adjourned it tells nothing.
fn is_same_notice(one: &Notice, other: &Notice) -> bool
    ensures { IsTrue result → one.now ≡ other.now }
{
    has_same_heading(one, other)
        && has_same_sessions(one, other)
        && are_same_resolutions(one.resolutions.as_slice(), other.resolutions.as_slice())
}

/// The same notice again.
fn copy_of(notice: &Notice) -> Result<Notice, AllocError>
    ensures { IfOk result (λ copy. copy ≡ notice.now) }
{
    notice.clone()
}

impl LastNotice {
    /// A notice and its text. The error is want of memory.
    pub(crate) fn new(alloc: Global, notice: &Notice, text: &[u8]) -> Result<LastNotice, AllocError>
        requires { text.now ≡ compact_text (notice_data notice.now) }
        ensures { IfOk result (λ last. last ≡ notice.now) }
    {
        Ok(LastNotice {
            notice: copy_of(notice)?,
            text: Vec::from_slice(alloc, text)?,
        })
    }

    /// The text of a notice, where it is this one.
    pub(crate) fn text_of(&self, notice: &Notice) -> Option<&[u8]>
        ensures { IfSome result (λ text. text.now ≡ compact_text (notice_data notice.now)) }
    {
        if is_same_notice(&self.notice, notice) {
            Some(&self.text)
        } else {
            None
        }
    }
}
