//! Requests, as a meeting, a verb and a body ask them.
ghost use Rattle.vocabulary.specs.Identity.{id};
ghost use Rattle.std.specs.Prelude.{◌≡◌, ◌≤◌, length, true};
ghost use Rattle.json_requests.specs.JsonFields.{fields_view};
ghost use Rattle.json_requests.specs.MemberFields.{all_differ, texts};
ghost use Rattle.json_requests.specs.declared.fields.TheConstants.{MOST_FIELDS};
ghost use Rattle.json_requests.specs.Bodies.{read_by};
ghost use Rattle.json_requests.specs.ParsedBodies.{BodyAgrees};
ghost use Rattle.json_requests.specs.PlainBodies.{all_plain};
ghost use Rattle.json_requests.specs.RefusalResults.{AskAgrees, or_unreadable};
ghost use Rattle.json_requests.specs.Requests.{asked_in, asked_on_route, is_bodiless, request_of, route_fields};
ghost use Rattle.json_requests.specs.Verbs.{office_fields, office_way, party_fields, party_way};

use crate::appointment::{APPOINT, END, appoint, end};
use crate::ask::{Ask, BodyError};
use crate::body::read_fields;
use crate::call::{CALL, call};
use crate::closed::{CLOSED, closed};
use crate::fields::{drop_owners, no_values};
use crate::keys::{KEYS, keys};
use crate::poll::{CAST, ORDER, POLL, cast, close, declare, demand, instructed, order, start};
use crate::presence::{ADJOURN, AUTHORISE, PRESENCE, adjourn, authorise, presence};
use crate::register::{LOAD, load};
use crate::route::{Route, route_of};
use crate::verb::{OfficeVerb, PartyVerb};
use desk_words::{DeskRequest, OfficeRequest, PartyRequest, Refusal, Request};
use json::{Scratch, Value};
use std::alloc::Global;
use std::mem::ManuallyDrop;

const ROUTE: Ask = Ask::Refused(Refusal::Route);

/// What the office asks in a meeting, as its fields say it.
fn by_office(
    alloc: Global,
    verb: OfficeVerb,
    fields: &[Option<Value<'_>>],
) -> Result<OfficeRequest, BodyError>
    ensures { BodyAgrees id result ((office_way verb).1 (fields_view fields.now)) }
{
    match verb {
        OfficeVerb::Presence => presence(fields),
        OfficeVerb::Register => load(alloc, fields),
        OfficeVerb::Open => Ok(OfficeRequest::OpenMeeting),
        OfficeVerb::Adjourn => adjourn(fields),
        OfficeVerb::Order => order(fields),
        OfficeVerb::Start => start(fields),
        OfficeVerb::Close => close(fields),
        OfficeVerb::Declare => declare(fields),
    }
}

/// What a party asks in a meeting, as its fields say it.
fn by_party(
    alloc: Global,
    verb: PartyVerb,
    fields: &[Option<Value<'_>>],
) -> Result<PartyRequest, BodyError>
    ensures { BodyAgrees id result ((party_way verb).1 (fields_view fields.now)) }
{
    match verb {
        PartyVerb::Notice => Ok(PartyRequest::Notice),
        PartyVerb::Mine => Ok(PartyRequest::Mine),
        PartyVerb::Appoint => appoint(alloc, fields),
        PartyVerb::End => end(fields),
        PartyVerb::Authorise => authorise(fields),
        PartyVerb::Attend => Ok(PartyRequest::Attend),
        PartyVerb::Demand => demand(fields),
        PartyVerb::Cast => cast(fields),
        PartyVerb::Instructed => instructed(fields),
    }
}

impl OfficeVerb {
    /// The fields that a body has where the office asks in a meeting.
    fn fields(self) -> &'static [&'static str]
        ensures few { length result.now ≤ MOST_FIELDS }
        ensures differ { all_differ (texts result.now) ≡ true }
        ensures plain { all_plain (texts result.now) ≡ true }
        ensures value { texts result.now ≡ office_fields self }
    {
        match self {
            OfficeVerb::Presence => PRESENCE,
            OfficeVerb::Register => LOAD,
            OfficeVerb::Open => &[],
            OfficeVerb::Adjourn => ADJOURN,
            OfficeVerb::Order => ORDER,
            OfficeVerb::Start | OfficeVerb::Close | OfficeVerb::Declare => POLL,
        }
    }
}

impl PartyVerb {
    /// The fields that a body has where a party asks in a meeting.
    fn fields(self) -> &'static [&'static str]
        ensures few { length result.now ≤ MOST_FIELDS }
        ensures differ { all_differ (texts result.now) ≡ true }
        ensures plain { all_plain (texts result.now) ≡ true }
        ensures value { texts result.now ≡ party_fields self }
    {
        match self {
            PartyVerb::Notice | PartyVerb::Mine | PartyVerb::Attend => &[],
            PartyVerb::Appoint => APPOINT,
            PartyVerb::End => END,
            PartyVerb::Authorise => AUTHORISE,
            PartyVerb::Demand | PartyVerb::Instructed => POLL,
            PartyVerb::Cast => CAST,
        }
    }
}

impl Route {
    /// The fields that a body has on a route.
    fn fields(&self) -> &'static [&'static str]
        ensures few { length result.now ≤ MOST_FIELDS }
        ensures differ { all_differ (texts result.now) ≡ true }
        ensures plain { all_plain (texts result.now) ≡ true }
        ensures value { texts result.now ≡ route_fields self.now }
    {
        match self {
            Route::Call(_) => CALL,
            Route::Closed => CLOSED,
            Route::Keys => KEYS,
            Route::Office { verb, .. } => verb.fields(),
            Route::Party { verb, .. } => verb.fields(),
        }
    }

    /// What is asked on a route, as its fields say it.
    fn asked_in(self, alloc: Global, fields: &[Option<Value<'_>>]) -> Result<Request, BodyError>
        ensures { BodyAgrees id result (asked_in self (fields_view fields.now)) }
    {
        match self {
            Route::Call(meeting) => {
                let new = call(alloc, meeting, fields)?;
                Ok(Request::Desk(DeskRequest::CallMeeting(new)))
            }
            Route::Closed => {
                let days = closed(alloc, fields)?;
                Ok(Request::Desk(DeskRequest::ClosedDays(days)))
            }
            Route::Keys => {
                let rows = keys(alloc, fields)?;
                Ok(Request::Desk(DeskRequest::Keys(rows)))
            }
            Route::Office { meeting, verb } => {
                let asked = by_office(alloc, verb, fields)?;
                Ok(Request::Office { meeting, asked })
            }
            Route::Party { meeting, verb } => {
                let asked = by_party(alloc, verb, fields)?;
                Ok(Request::Party { meeting, asked })
            }
        }
    }

    /// What is asked on a route, as a body says it.
    #[tactic(auto, unfolding(crate::specs::Bodies::read_by))]
    fn asked_by(
        self,
        alloc: Global,
        scratch: &mut Scratch,
        body: &str,
    ) -> Result<Request, BodyError>
        ensures { BodyAgrees id result (read_by (route_fields self) (asked_in self) body.now) }
    {
        let names = self.fields();
        let mut values = no_values();
        read_fields(alloc, scratch, names, &mut values, body)?;
        let asked = self.asked_in(alloc, &values[..names.len()]);
        // The other values own no memory, and a drop would look at each of them.
        drop_owners(&mut values);
        let _ = ManuallyDrop::new(values);
        asked
    }

    /// What is asked on a route, as a body says it that may be no text.
    fn asked_by_bytes(
        self,
        alloc: Global,
        scratch: &mut Scratch,
        body: &[u8],
    ) -> Result<Request, BodyError>
        ensures { BodyAgrees id result (read_by (route_fields self) (asked_in self) body.now) }
    {
        match str::from_utf8(body) {
            Ok(body) => self.asked_by(alloc, scratch, body),
            Err(_) => Err(BodyError::Unreadable),
        }
    }

    /// Whether no body is looked at.
    fn is_bodiless(&self) -> bool
        ensures { result ≡ is_bodiless self.now }
    {
        matches!(
            self,
            Route::Party {
                verb: PartyVerb::Notice | PartyVerb::Mine,
                ..
            }
        )
    }

    /// The request on a route, with what the body says of it. It is refused as `Unreadable` where
    /// the body does not say what the verb asks, and only there. For `notice` and `mine` the body
    /// is not looked at. Of a field that is repeated the last value counts, and an empty body
    /// stands for an object with no fields. The error is `Memory` only where an allocation was
    /// refused. The room that reading needs is kept in `scratch`, from one body to the next, and
    /// what it held before tells nothing.
    pub fn request(self, alloc: Global, scratch: &mut Scratch, body: &[u8]) -> Result<Request, Ask>
        ensures { AskAgrees id result (or_unreadable (asked_on_route self body.now)) }
    {
        let asked = if self.is_bodiless() {
            self.asked_in(alloc, &[])?
        } else {
            self.asked_by_bytes(alloc, scratch, body)?
        };
        Ok(asked)
    }

    /// The same, where the body is known to be text.
    #[inline(always)]
    fn request_in(self, alloc: Global, scratch: &mut Scratch, body: &str) -> Result<Request, Ask>
        ensures { AskAgrees id result (or_unreadable (asked_on_route self body.now)) }
    {
        let asked = if self.is_bodiless() {
            self.asked_in(alloc, &[])?
        } else {
            self.asked_by(alloc, scratch, body)?
        };
        Ok(asked)
    }
}

/// The request that a verb asks, with what the body says of it: of a meeting, or for `closed` and
/// `keys` of the whole desk, where `-` stands in place of a meeting.
///
/// It is refused as `Route` where no such verb is listed, no meeting can have that name, or
/// anything but `-` stands before `closed` and `keys`, and only else, as `Unreadable`, where the
/// body does not say what the verb asks. For `notice` and `mine` the body is not looked at. Of a
/// field that is repeated the last value counts, and an empty body stands for an object with no
/// fields. The error is `Memory` only where an allocation was refused. The room that reading needs
/// is kept in `scratch`, from one body to the next, and what it held before tells nothing.
#[tactic(auto, unfolding(crate::specs::Requests::request_of))]
#[inline(always)]
pub fn request_of(
    alloc: Global,
    scratch: &mut Scratch,
    meeting: &[u8],
    verb: &str,
    body: &str,
) -> Result<Request, Ask>
    ensures { AskAgrees id result (request_of meeting.now verb.now body.now) }
{
    let route = route_of(meeting, verb).ok_or(ROUTE)?;
    route.request_in(alloc, scratch, body)
}
