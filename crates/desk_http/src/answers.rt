//! What an office answers to a request.
ghost use Rattle.std.specs.Prelude.{◌≡◌, IfErr, IfOk, OnErr, OnOk, Some, None, true};
ghost use Rattle.any_office.specs.StoredOffice.{HoldsOfOffice, office_after};
ghost use Rattle.any_office.specs.CrashedOffice.{LeadsOn};
ghost use Rattle.any_office.specs.OfficeRuns.{LeavesOffice};
ghost use Rattle.desk_http.specs.AskedOffice.{asked_by};
ghost use Rattle.desk_http.specs.HttpAnswers.{IsAnswer, IsCutOff, AnswerMayFail, MakesCall, ShowsReply};
ghost use Rattle.desk_http.specs.HttpAnswers.{call_of, call_received, unread_fault, if_ok};
ghost use Rattle.desk_http.specs.HttpAnswers.{reply_in, reply_of, unread_reply};
ghost use Rattle.desk_http.specs.declared.answers.AnswerError.TheVariants.{CutOff};
ghost use Rattle.desk_http.specs.declared.answers.AnswerError.TheVariants as unanswered;
ghost use Rattle.http_requests.specs.ReceivedRequests.{is_cut_off, source_failed};
ghost use Rattle.vocabulary.specs.declared.refusal.Refusal.TheVariants.{Key};
ghost use Rattle.desk_words.specs.declared.reply.Failure.TheVariants as failure;
ghost use Rattle.desk_words.specs.declared.reply.Reply.TheVariants as reply;
ghost use Rattle.http_requests.specs.declared.received.ReceivedRequest.TheVariants.{With};

use any_office::Office;
use desk_words::{Call, Caller, Failure, Moment, Refusal, Reply, Request, SecretKey};
use http_requests::{ReceiveError, ReceivedRequest};
use http_routes::{StatusCode, status_of};
use json_replies::reply_text;
use std::alloc::{AllocError, Global};

/// A reply, as it is sent.
#[derive(Drop)]
pub struct Answered {
    /// The status of the reply.
    pub status: StatusCode,
    /// The reply's JSON text.
    pub body: Vec<u8>,
}

/// Why there is no reply.
#[derive(Clone, Copy, PartialEq, Eq)]
pub enum AnswerError {
    /// The office could not be read or written, or memory was refused.
    Failure(Failure),
    /// The request's body did not come whole, since its source failed.
    CutOff,
}

impl From<Failure> for AnswerError {
    ghost from_gives = { λ failure why. why ≡ unanswered.Failure failure };

    fn from(failure: Failure) -> AnswerError {
        AnswerError::Failure(failure)
    }
}

impl From<AllocError> for AnswerError {
    ghost from_gives = { λ _ why. why ≡ unanswered.Failure failure.Memory };

    fn from(_: AllocError) -> AnswerError {
        AnswerError::Failure(Failure::Memory)
    }
}

/// A reply, as it is sent. The error is want of memory alone.
pub(crate) fn shown(alloc: Global, reply: &Reply) -> Result<Answered, AllocError>
    ensures { IfOk result (ShowsReply reply.now) }
{
    let body = reply_text(alloc, reply)?;
    let status = status_of(reply);
    Ok(Answered { status, body })
}

/// A refusal, as it is sent.
fn refused(alloc: Global, refusal: Refusal) -> Result<Answered, AnswerError>
    ensures shown { IfOk result (ShowsReply (reply.Refused refusal)) }
    ensures cause { IfErr result (λ why. why ≡ unanswered.Failure failure.Memory) }
{
    Ok(shown(alloc, &Reply::Refused(refusal))?)
}

/// The answer to an unreadable request.
fn answer_unreceived(alloc: Global, why: ReceiveError) -> Result<Answered, AnswerError>
    ensures shown { IfOk result (IsAnswer (unread_reply why)) }
    ensures cause { IfErr result (λ fault. fault ≡ unread_fault why) }
{
    match why {
        ReceiveError::Refused(refusal) => refused(alloc, refusal),
        ReceiveError::Memory => Err(AnswerError::Failure(Failure::Memory)),
        ReceiveError::Failed => Err(AnswerError::CutOff),
    }
}

/// The answer to what was received of a caller. A request is one call.
fn answer_to<O: Office>(
    alloc: Global,
    office: &mut O,
    moment: Moment,
    caller: Caller,
    content: Result<Request, ReceiveError>,
) -> Result<Answered, AnswerError>
    ensures done { HoldsOfOffice O.is_reliable O.stands office.old office.new (λ stored. IfOk result
        (λ a. IsAnswer (reply_of stored moment (Some caller) content) a
        × O.stands office.new (office_after stored (call_of moment (Some caller) content)))) }
    ensures leaves { LeavesOffice O.Office (if_ok result (call_of moment (Some caller) content))
        office.old office.new }
    ensures leads { LeadsOn O.Office office.old
        (asked_by (call_of moment (Some caller) content) result) office.new }
    ensures cause { IfErr result (AnswerMayFail content) }
    ensures cut_off { source_failed content ≡ true → OnOk result ⊥ }
{
    match content {
        Ok(request) => {
            let call = Call {
                moment,
                caller,
                request,
            };
            Ok(office.perform(call, |reply| shown(alloc, reply))?)
        }
        Err(why) => answer_unreceived(alloc, why),
    }
}

/// The answer to what was received with a key. Whose key that is comes before all that is asked.
fn answer_with<O: Office>(
    alloc: Global,
    office: &mut O,
    moment: Moment,
    key: SecretKey,
    content: Result<Request, ReceiveError>,
) -> Result<Answered, AnswerError>
    ensures done { HoldsOfOffice O.is_reliable O.stands office.old office.new (λ stored. IfOk result
        (λ a. IsAnswer (reply_in stored moment (With key content)) a × O.stands office.new
        (office_after stored (call_received stored moment (With key content))))) }
    ensures makes { MakesCall O.Office moment (With key content) office.old office.new }
    ensures unmade { OnErr result (LeavesOffice O.Office None office.old office.new) }
    ensures cause { IfErr result
        (λ why. why ≡ CutOff → IsCutOff O.Office (With key content) office.old office.new) }
    ensures cut_off { source_failed content ≡ true → IfOk result (ShowsReply (reply.Refused Key)) }
{
    match office.caller_of(&key)? {
        Some(caller) => answer_to(alloc, office, moment, caller, content),
        None => refused(alloc, Refusal::Key),
    }
}

/// Answers what was received, at a moment, by an office.
///
/// What was refused as it came is answered so, and the office is not asked. A key that is nobody's
/// is answered as `Key`, whatever else was received; with a key of the office's list, what was not
/// received is answered by its refusal, and a request is a call of that caller at that moment, made as
/// `Office::perform` makes it: the reply is made before the call is made to last.
///
/// At most that one call is tried, and it is answered or fails. `makes` says what was asked of the
/// office, event by event, so that it also says what a crash leaves.
///
/// The error is a failure of the office or want of memory, after which nothing has changed, or
/// `CutOff`, only where the source failed in the body and the key is a caller's. A body that was
/// cut off so has no other reply than `Key`.
pub fn answer<O: Office>(
    alloc: Global,
    office: &mut O,
    moment: Moment,
    received: ReceivedRequest,
) -> Result<Answered, AnswerError>
    ensures done { HoldsOfOffice O.is_reliable O.stands office.old office.new (λ stored. IfOk result
        (λ a. IsAnswer (reply_in stored moment received) a
        × O.stands office.new (office_after stored (call_received stored moment received)))) }
    ensures makes { MakesCall O.Office moment received office.old office.new }
    ensures unmade { OnErr result (LeavesOffice O.Office None office.old office.new) }
    ensures cause { IfErr result
        (λ why. why ≡ CutOff → IsCutOff O.Office received office.old office.new) }
    ensures cut_off { is_cut_off received ≡ true → IfOk result (ShowsReply (reply.Refused Key)) }
{
    match received {
        ReceivedRequest::Refused(refusal) => refused(alloc, refusal),
        ReceivedRequest::With { key, asked } => answer_with(alloc, office, moment, key, asked),
    }
}
