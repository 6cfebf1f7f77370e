//! Answers in a meeting, as answers of the office.
ghost use Rattle.std.specs.Prelude.{◌≡◌, IfOk, IsTrue};
ghost use Rattle.desk_words.specs.Changes.{applied_if_any};
ghost use Rattle.desk_words.specs.Office.{is_office};
ghost use Rattle.desk_words.specs.Rulings.{ruled_answer, map_change};
ghost use Rattle.desk_words.specs.ViewTypes.{Party};
ghost use Rattle.desk_words.specs.declared.change.Change.TheVariants as change;
ghost use Rattle.desk_words.specs.declared.change.MeetingChange.TheVariants as meeting_change;
ghost use Rattle.desk_words.specs.declared.office.OfficeLists.{OfficeLists};
ghost use Rattle.caller_view.specs.PartyRulings.{party_ruling};
ghost use Rattle.party_views.specs.OwnViews.{own_from};
ghost use Rattle.party_views.specs.RowsRead.{own_rows_read};
ghost use Rattle.party_views.specs.declared.own_rows.OwnRows.{OwnRows};
ghost use Rattle.meeting_core.specs.Decisions.{AreRead, party_call};
ghost use Rattle.meeting_core.specs.Step.{decided};

use caller_view::answer;
use desk_words::{
    Answer, Change, Entry, MeetingChange, MeetingId, Moment, PartyRequest, reply_unchanged,
};
use party_views::{OwnRows, PublicRecord, own_for};
use std::alloc::{AllocError, Global};

/// An answer whose change is made in that meeting.
pub(crate) fn in_meeting(meeting: MeetingId, answer: Answer<MeetingChange>) -> Answer<Change>
    ensures { result ≡ map_change (change.InMeeting meeting) answer }
{
    let Answer { reply, change } = answer;
    match change {
        None => reply_unchanged(reply),
        Some(change) => Answer {
            reply,
            change: Some(Change::InMeeting { meeting, change }),
        },
    }
}

/// An answer whose change is entered into the lists of that meeting.
pub(crate) fn entering(meeting: MeetingId, answer: Answer<Entry>) -> Answer<Change>
    ensures { result ≡ map_change (λ entry. change.InMeeting meeting (meeting_change.Enter entry))
        answer }
{
    let Answer { reply, change } = answer;
    match change {
        None => reply_unchanged(reply),
        Some(entry) => {
            let change = MeetingChange::Enter(entry);
            Answer {
                reply,
                change: Some(Change::InMeeting { meeting, change }),
            }
        }
    }
}

/// The answer to a party, from the public record and those of its rows that it reads. The error is
/// want of memory.
pub(crate) fn answer_from(
    alloc: Global,
    public: &PublicRecord,
    rows: OwnRows,
    now: Moment,
    asked: &PartyRequest,
) -> Result<Answer<Entry>, AllocError>
    ensures { IfOk result (λ a. (all : OwnRows) → rows ≡ own_rows_read asked.now all
        → a ≡ ruled_answer (party_ruling public.now (own_from all public.now now) now asked.now)) }
{
    let own = own_for(alloc, rows, public, now, asked)?;
    answer(alloc, public, own, now, asked)
}

/// What is decided of what a party asks in a meeting, from the public record and what of its rows the
/// answer reads: it is so in every office of which these are read, and what it changes leaves the
/// lists of an office. The error is want of memory.
pub fn decide_from_rows(
    alloc: Global,
    meeting: MeetingId,
    public: &PublicRecord,
    rows: OwnRows,
    now: Moment,
    asked: &PartyRequest,
) -> Result<Answer<Change>, AllocError>
    ensures decided { IfOk result (λ a. (office : OfficeLists) (party : Party)
        → AreRead office party meeting asked.now public.now rows
        → a ≡ decided office (party_call party meeting now asked.now)) }
    ensures valid { IfOk result (λ a. (office : OfficeLists) (party : Party)
        → AreRead office party meeting asked.now public.now rows → IsTrue (is_office office)
        → IsTrue (is_office (applied_if_any office a.change))) }
{
    let answer = answer_from(alloc, public, rows, now, asked)?;
    Ok(entering(meeting, answer))
}
