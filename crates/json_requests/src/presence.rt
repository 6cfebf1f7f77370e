//! The adjournment of a meeting, presences, and the persons who are to represent parties.
ghost use Rattle.std.specs.Prelude.{◌≡◌, IfErr};
ghost use Rattle.json_requests.specs.declared.ask.BodyError.TheVariants.{Unreadable};
ghost use Rattle.json_requests.specs.JsonFields.{fields_view};
ghost use Rattle.vocabulary.specs.Identity.{id};
ghost use Rattle.json_requests.specs.PresenceBodies.{authorise_in};
ghost use Rattle.json_requests.specs.ParsedBodies.{BodyAgrees};
ghost use Rattle.json_requests.specs.PresenceBodies.{adjourn_in, presence_body};

use crate::ask::BodyError;
use crate::fields::at;
use crate::place::{moment_in, party_in};
use desk_words::{OfficeRequest, PartyRequest};
use json::Value;

/// The field of an adjournment: `appointed` (the moment at which the next session is to begin).
pub(crate) const ADJOURN: &[&str] = &["appointed"];

/// The adjournment of the meeting.
#[tactic(auto, unfolding(crate::specs::PresenceBodies::adjourn_in))]
pub(crate) fn adjourn(fields: &[Option<Value<'_>>]) -> Result<OfficeRequest, BodyError>
    ensures agrees { BodyAgrees id result (adjourn_in (fields_view fields.now)) }
    ensures sure { IfErr result (λ why. why ≡ Unreadable) }
{
    let [appointed] = fields else {
        return Err(BodyError::Unreadable);
    };
    let appointed = moment_in(at(appointed))?;
    Ok(OfficeRequest::Adjourn(appointed))
}

/// The field of a presence: `party` (a party).
pub(crate) const PRESENCE: &[&str] = &["party"];

/// The presence that the field notes.
#[tactic(auto, unfolding(crate::specs::PresenceBodies::presence_body))]
pub(crate) fn presence(fields: &[Option<Value<'_>>]) -> Result<OfficeRequest, BodyError>
    ensures agrees { BodyAgrees id result (presence_body (fields_view fields.now)) }
    ensures sure { IfErr result (λ why. why ≡ Unreadable) }
{
    let [party] = fields else {
        return Err(BodyError::Unreadable);
    };
    let party = party_in(at(party))?;
    Ok(OfficeRequest::Presence(party))
}

/// The field of an authority: `person` (a party).
pub(crate) const AUTHORISE: &[&str] = &["person"];

/// The authority that the field gives.
#[tactic(auto, unfolding(crate::specs::PresenceBodies::authorise_in))]
pub(crate) fn authorise(fields: &[Option<Value<'_>>]) -> Result<PartyRequest, BodyError>
    ensures agrees { BodyAgrees id result (authorise_in (fields_view fields.now)) }
    ensures sure { IfErr result (λ why. why ≡ Unreadable) }
{
    let [person] = fields else {
        return Err(BodyError::Unreadable);
    };
    let person = party_in(at(person))?;
    Ok(PartyRequest::Authorise(person))
}
