//! Polls, and the votes on them.
ghost use Rattle.std.specs.Prelude.{◌≡◌, IfErr};
ghost use Rattle.json_requests.specs.declared.ask.BodyError.TheVariants.{Unreadable};
ghost use Rattle.json_requests.specs.JsonFields.{fields_view};
ghost use Rattle.vocabulary.specs.Identity.{id};
ghost use Rattle.json_requests.specs.ParsedBodies.{BodyAgrees};
ghost use Rattle.json_requests.specs.PollBodies.{order_in, poll_body, start_in, close_in, declare_in, demand_body, cast_body, instructed_in};

use crate::ask::BodyError;
use crate::fields::at;
use crate::place::{capacity_in, flag_in, moment_in, number_in, party_in, way_in};
use desk_words::{NewCast, NewPoll, OfficeRequest, PartyRequest};
use json::Value;

/// The fields of the ordering of a poll: `resolution` (a number), `take` (a moment) and `chair` (true
/// or false).
pub(crate) const ORDER: &[&str] = &["resolution", "take", "chair"];

/// The poll that its fields order.
#[tactic(auto, unfolding(crate::specs::PollBodies::order_in))]
pub(crate) fn order(fields: &[Option<Value<'_>>]) -> Result<OfficeRequest, BodyError>
    ensures agrees { BodyAgrees id result (order_in (fields_view fields.now)) }
    ensures sure { IfErr result (λ why. why ≡ Unreadable) }
{
    let [resolution, take, chair] = fields else {
        return Err(BodyError::Unreadable);
    };
    let resolution = number_in(at(resolution))?;
    let take = moment_in(at(take))?;
    let chair = flag_in(at(chair))?;
    Ok(OfficeRequest::Order(NewPoll {
        resolution,
        take,
        chair,
    }))
}

/// The field of what names a poll: `resolution` (a number).
pub(crate) const POLL: &[&str] = &["resolution"];

/// The poll that the field names.
#[tactic(auto, unfolding(crate::specs::PollBodies::poll_body))]
fn poll_in(fields: &[Option<Value<'_>>]) -> Result<u64, BodyError>
    ensures agrees { BodyAgrees id result (poll_body (fields_view fields.now)) }
    ensures sure { IfErr result (λ why. why ≡ Unreadable) }
{
    let [resolution] = fields else {
        return Err(BodyError::Unreadable);
    };
    number_in(at(resolution))
}

#[tactic(auto, unfolding(crate::specs::PollBodies::start_in))]
pub(crate) fn start(fields: &[Option<Value<'_>>]) -> Result<OfficeRequest, BodyError>
    ensures agrees { BodyAgrees id result (start_in (fields_view fields.now)) }
    ensures sure { IfErr result (λ why. why ≡ Unreadable) }
{
    let resolution = poll_in(fields)?;
    Ok(OfficeRequest::Start(resolution))
}

#[tactic(auto, unfolding(crate::specs::PollBodies::close_in))]
pub(crate) fn close(fields: &[Option<Value<'_>>]) -> Result<OfficeRequest, BodyError>
    ensures agrees { BodyAgrees id result (close_in (fields_view fields.now)) }
    ensures sure { IfErr result (λ why. why ≡ Unreadable) }
{
    let resolution = poll_in(fields)?;
    Ok(OfficeRequest::Close(resolution))
}

#[tactic(auto, unfolding(crate::specs::PollBodies::declare_in))]
pub(crate) fn declare(fields: &[Option<Value<'_>>]) -> Result<OfficeRequest, BodyError>
    ensures agrees { BodyAgrees id result (declare_in (fields_view fields.now)) }
    ensures sure { IfErr result (λ why. why ≡ Unreadable) }
{
    let resolution = poll_in(fields)?;
    Ok(OfficeRequest::Declare(resolution))
}

#[tactic(auto, unfolding(crate::specs::PollBodies::demand_body))]
pub(crate) fn demand(fields: &[Option<Value<'_>>]) -> Result<PartyRequest, BodyError>
    ensures agrees { BodyAgrees id result (demand_body (fields_view fields.now)) }
    ensures sure { IfErr result (λ why. why ≡ Unreadable) }
{
    let resolution = poll_in(fields)?;
    Ok(PartyRequest::Demand(resolution))
}

#[tactic(auto, unfolding(crate::specs::PollBodies::instructed_in))]
pub(crate) fn instructed(fields: &[Option<Value<'_>>]) -> Result<PartyRequest, BodyError>
    ensures agrees { BodyAgrees id result (instructed_in (fields_view fields.now)) }
    ensures sure { IfErr result (λ why. why ≡ Unreadable) }
{
    let resolution = poll_in(fields)?;
    Ok(PartyRequest::Instructed(resolution))
}

/// The fields of a vote: `resolution`, `from` and `to` (numbers), `as` (`member`, `rep` or `proxy`),
/// `member` (a party) and `way` (`for`, `against` or `withheld`).
pub(crate) const CAST: &[&str] = &["resolution", "as", "member", "from", "to", "way"];

/// The vote that its fields cast.
#[tactic(auto, unfolding(crate::specs::PollBodies::cast_body))]
pub(crate) fn cast(fields: &[Option<Value<'_>>]) -> Result<PartyRequest, BodyError>
    ensures agrees { BodyAgrees id result (cast_body (fields_view fields.now)) }
    ensures sure { IfErr result (λ why. why ≡ Unreadable) }
{
    let [resolution, capacity, member, from, to, way] = fields else {
        return Err(BodyError::Unreadable);
    };
    let resolution = number_in(at(resolution))?;
    let capacity = capacity_in(at(capacity))?;
    let member = party_in(at(member))?;
    let from = number_in(at(from))?;
    let to = number_in(at(to))?;
    let way = way_in(at(way))?;
    Ok(PartyRequest::Cast(NewCast {
        resolution,
        capacity,
        member,
        from,
        to,
        way,
    }))
}
