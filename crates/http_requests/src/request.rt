//! A request, read from a source.
ghost use Rattle.std.specs.Prelude.{◌≡◌, ◌++◌, ◌-◌, ◌≤◌, ℕ, List, true, false, length, IfOk, MatchResult, OnErr};
ghost use Rattle.json_requests.specs.RefusalResults.{or_unreadable};
ghost use Rattle.json_requests.specs.Requests.{asked_on_route};
ghost use Rattle.byte_io.specs.Counts.{one_more};
ghost use Rattle.http_heads.specs.declared.front.TheConstants.{LONGEST_HEAD};
ghost use Rattle.http_heads.specs.declared.length.TheConstants.{LONGEST_BODY};
ghost use Rattle.http_requests.specs.RequestOfHead.{has_front, request_by, request_in, size_on, size_read, way_in};
ghost use Rattle.http_requests.specs.ReceivedRequests.{HeadAsks, TakesAtMost, AgreesWith, IsBody, Spells, is_cut_off, source_failed};
ghost use Rattle.http_requests.specs.RequestOfHead.{is_whole};
ghost use Rattle.http_requests.specs.ReceivedRequests.{TakesBody, TakesRequest, most_body, most_read};

use crate::body::read_body;
use crate::head_request::{Way, key_in, way_in};
use crate::received::{ReceiveError, ReceivedRequest};
use byte_io::{DeviceError, Source};
use desk_words::{Refusal, Request};
use http_heads::{Front, HeadReader, LONGEST_BODY};
use json_requests::{Route, Scratch};
use std::alloc::Global;

/// The most bytes of a body that is read into a small room, as nearly all bodies are.
const SHORT_BODY: usize = 1_024;

/// What is asked on a route by a whole body. The room that reading needs is large, and no caller is
/// to pay for it.
#[inline(never)]
fn asked(alloc: Global, route: Route, body: &[u8]) -> Result<Request, ReceiveError>
    ensures asked { AgreesWith true (or_unreadable (asked_on_route route body.now)) result }
    ensures content { source_failed result ≡ false }
{
    let mut scratch = Scratch::new(alloc);
    Ok(route.request(alloc, &mut scratch, body)?)
}

/// What is asked on a route by a body, which may not be whole.
fn asked_by(alloc: Global, route: Route, whole: bool, body: &[u8]) -> Result<Request, ReceiveError>
    ensures asked { (behind : List ℕ) → IsBody whole body.now behind
        → AgreesWith (has_front (length body.now) behind)
        (request_by route (length body.now) behind) result }
    ensures content { source_failed result ≡ false }
{
    if whole {
        asked(alloc, route, body)
    } else {
        Err(ReceiveError::Refused(Refusal::Unreadable))
    }
}

/// What is asked on a way by the body that fills the buffer.
fn request_by<S: Source>(
    alloc: Global,
    way: Way,
    behind: &[u8],
    source: &mut S,
    body: &mut [u8],
) -> Result<Request, ReceiveError>
    requires { length body.old ≡ way.size }
    ensures came { TakesAtMost
        (λ bytes. AgreesWith (has_front way.size (behind.now ++ bytes))
        (request_by way.route way.size (behind.now ++ bytes)) result)
        (λ bytes. length bytes ≤ way.size - length behind.now)
        (S.remaining source.old) (S.remaining source.new)
        (S.passed source.old) (S.passed source.new) }
    ensures works { source_failed result ≡ false → S.failures source.new ≡ S.failures source.old }
    ensures failed { source_failed result ≡ true
        → S.failures source.new ≡ one_more (S.failures source.old) }
{
    match read_body(behind, source, body) {
        Ok(whole) => asked_by(alloc, way.route, whole, body),
        Err(DeviceError) => Err(ReceiveError::Failed),
    }
}

/// What is asked on a way by a long body. The room that it is read into is large, and no short one
/// is to pay for it.
#[inline(never)]
fn request_by_long<S: Source>(
    alloc: Global,
    way: Way,
    behind: &[u8],
    source: &mut S,
) -> Result<Request, ReceiveError>
    requires { way.size ≤ LONGEST_BODY }
    ensures came { TakesAtMost
        (λ bytes. AgreesWith (has_front way.size (behind.now ++ bytes))
        (request_by way.route way.size (behind.now ++ bytes)) result)
        (λ bytes. length bytes ≤ way.size - length behind.now)
        (S.remaining source.old) (S.remaining source.new)
        (S.passed source.old) (S.passed source.new) }
    ensures works { source_failed result ≡ false → S.failures source.new ≡ S.failures source.old }
    ensures failed { source_failed result ≡ true
        → S.failures source.new ≡ one_more (S.failures source.old) }
{
    let mut buffer = [0; LONGEST_BODY];
    request_by(alloc, way, behind, source, &mut buffer[..way.size])
}

/// What is asked on a way, whose body is read on.
fn request_on<S: Source>(
    alloc: Global,
    way: Way,
    behind: &[u8],
    source: &mut S,
) -> Result<Request, ReceiveError>
    requires { way.size ≤ LONGEST_BODY }
    ensures came { TakesAtMost
        (λ bytes. AgreesWith (has_front way.size (behind.now ++ bytes))
        (request_by way.route way.size (behind.now ++ bytes)) result)
        (λ bytes. length bytes ≤ way.size - length behind.now)
        (S.remaining source.old) (S.remaining source.new)
        (S.passed source.old) (S.passed source.new) }
    ensures works { source_failed result ≡ false → S.failures source.new ≡ S.failures source.old }
    ensures failed { source_failed result ≡ true
        → S.failures source.new ≡ one_more (S.failures source.old) }
{
    if way.size > SHORT_BODY {
        return request_by_long(alloc, way, behind, source);
    }
    let mut room = [0; SHORT_BODY];
    request_by(alloc, way, behind, source, &mut room[..way.size])
}

/// What is asked with a head, whose body is read on.
fn request_in<S: Source>(
    alloc: Global,
    head: &HeadReader,
    source: &mut S,
) -> Result<Request, ReceiveError>
    ensures came { TakesAtMost
        (λ bytes. AgreesWith (is_whole head.now.asked (head.now.rest ++ bytes))
        (request_in head.now.asked (head.now.rest ++ bytes)) result)
        (TakesBody (size_on (way_in head.now.asked)) head.now.rest (most_read result))
        (S.remaining source.old) (S.remaining source.new)
        (S.passed source.old) (S.passed source.new) }
    ensures works { source_failed result ≡ false → S.failures source.new ≡ S.failures source.old }
    ensures failed { source_failed result ≡ true
        → S.failures source.new ≡ one_more (S.failures source.old) }
{
    let way = way_in(head)?;
    request_on(alloc, way, head.rest(), source)
}

/// What a head asks, with the bytes behind it.
fn received<S: Source>(alloc: Global, head: &HeadReader, source: &mut S) -> ReceivedRequest
    ensures came { TakesAtMost
        (λ bytes. HeadAsks head.now.asked (head.now.rest ++ bytes) result)
        (TakesBody (size_read head.now.asked) head.now.rest (most_body result))
        (S.remaining source.old) (S.remaining source.new)
        (S.passed source.old) (S.passed source.new) }
    ensures works { is_cut_off result ≡ false → S.failures source.new ≡ S.failures source.old }
    ensures failed { is_cut_off result ≡ true
        → S.failures source.new ≡ one_more (S.failures source.old) }
{
    match key_in(head) {
        None => ReceivedRequest::Refused(Refusal::Key),
        Some(key) => {
            let asked = request_in(alloc, head, source);
            ReceivedRequest::With { key, asked }
        }
    }
}

/// Reads one request: its head, of at most 8,192 bytes, and, where its key, route, method and size
/// let it, its body of at most 65,536. No byte behind the request is asked for, though some may be
/// taken with the head, in its 8,192 bytes. It asks no table and no clock. A body that is cut is
/// unreadable, and memory is wanted for one that is whole alone.
///
/// The error is one failed call of the source before the whole head had come. A source that fails
/// in the body gives `Failed` beside the key.
pub fn read_request<S: Source>(
    alloc: Global,
    source: &mut S,
) -> Result<ReceivedRequest, DeviceError>
    // What the bytes spell that came, as those behind them do not tell otherwise.
    ensures came { TakesAtMost
        (λ input. IfOk result (λ received. Spells input received))
        (λ bytes. MatchResult result (λ received. TakesRequest received bytes)
        (λ _. length bytes ≤ LONGEST_HEAD))
        (S.remaining source.old) (S.remaining source.new)
        (S.passed source.old) (S.passed source.new) }
    ensures works { IfOk result (λ received. is_cut_off received ≡ false
        → S.failures source.new ≡ S.failures source.old) }
    ensures cut_off { IfOk result (λ received. is_cut_off received ≡ true
        → S.failures source.new ≡ one_more (S.failures source.old)) }
    ensures failed { OnErr result (S.failures source.new ≡ one_more (S.failures source.old)) }
{
    let mut head = HeadReader::new();
    match head.read(source)? {
        Front::Whole => Ok(received(alloc, &head, source)),
        Front::TooLarge => Ok(ReceivedRequest::Refused(Refusal::TooLarge)),
        Front::Unreadable => Ok(ReceivedRequest::Refused(Refusal::Unreadable)),
    }
}
