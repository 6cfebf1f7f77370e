//! Authorities that a party gives, its presence, and polls that it demands.
ghost use Rattle.std.specs.Prelude.{◌≡◌};
ghost use Rattle.desk_words.specs.Refusals.{first_refusal};
ghost use Rattle.desk_words.specs.Rulings.{ruled_answer};
ghost use Rattle.caller_view.specs.AttendanceRulings.{attend_ruling, authorise_cases, authorise_ruling, demand_cases, demand_ruling, gave_authority, governs_any, is_demand_now, is_present, own_demanded, may_demand, represents};

use crate::rights::governed_acts;
use desk_words::limits::MOST_AUTHORITIES;
use desk_words::{
    Answer, Authority, DemandMark, Entry, Meeting, Moment, Party, PresenceMark, Refusal, find_poll,
    noted, refuse,
};
use party_views::{OwnView, PublicRecord, holds_as_individual};

/// Whether the party gave the person its authority already.
fn gave_authority(own: &OwnView, person: Party) -> bool
    ensures { result ≡ gave_authority own.now person }
{
    let persons = own.persons.as_slice();
    persons.iter().any(|authority| authority.person.is(person))
}

fn authorise_refusal(own: &OwnView, person: Party) -> Option<Refusal>
    ensures { result ≡ first_refusal (authorise_cases own.now person) }
{
    if person.is(own.party) {
        return Some(Refusal::SelfNamed);
    }
    if !gave_authority(own, person) && own.persons.len() >= MOST_AUTHORITIES {
        return Some(Refusal::TooMany);
    }
    None
}

/// The answer to a party that authorises a person to represent it (section 323): `SelfNamed` where
/// it names itself, `TooMany` where it gave `MOST_AUTHORITIES` in the meeting and this is none of
/// them, and else `Noted`, which enters the authority unless it stands already. The register is not
/// looked at.
pub(crate) fn authorise(own: &OwnView, now: Moment, person: Party) -> Answer<Entry>
    ensures { result ≡ ruled_answer (authorise_ruling own.now now person) }
{
    if let Some(refusal) = authorise_refusal(own, person) {
        return refuse(refusal);
    }
    let authority = Authority {
        corporation: own.party,
        person,
        moment: now,
    };
    noted(gave_authority(own, person), Entry::Authority(authority))
}

/// Whether the party is marked present in the last session.
fn is_present(meeting: &Meeting, own: &OwnView) -> bool
    ensures { result ≡ is_present meeting.now own.now }
{
    let last = meeting.last_number();
    let presences = own.presences.as_slice();
    presences.iter().any(|session| *session == last)
}

/// The answer to a party that notes its own presence in the last session (section 318): `Noted`,
/// which enters the mark unless it stands already. A party that has no right to be present is noted
/// too.
#[inline(never)]
pub(crate) fn attend(meeting: &Meeting, own: &OwnView, now: Moment) -> Answer<Entry>
    ensures { result ≡ ruled_answer (attend_ruling meeting.now own.now now) }
{
    let presence = PresenceMark {
        session: meeting.last_number(),
        party: own.party,
        moment: now,
    };
    noted(is_present(meeting, own), Entry::Presence(presence))
}

/// Whether the party may act for a corporation of the register.
fn represents(own: &OwnView) -> bool
    ensures { result ≡ represents own.now }
{
    let authorised = own.authorised.as_slice();
    authorised.iter().any(|authority| authority.shares > 0)
}

/// Whether the party governs at least one share for acts in the last session.
fn governs_any(meeting: &Meeting, own: &OwnView) -> bool
    ensures { result ≡ governs_any meeting.now own.now }
{
    let last = meeting.last_number();
    let received = own.received.as_slice();
    received
        .iter()
        .any(|received| !governed_acts(last, received).is_empty())
}

/// Whether the party is a member, a representative or a proxy in the last session.
fn may_demand(meeting: &Meeting, own: &OwnView) -> bool
    ensures { result ≡ may_demand meeting.now own.now }
{
    holds_as_individual(&own.row) || represents(own) || governs_any(meeting, own)
}

/// Whether the demand was made in the last session, of a poll on the resolution.
fn is_demand_now(meeting: &Meeting, resolution: u64, demand: &DemandMark) -> bool
    ensures { result ≡ is_demand_now meeting.now resolution demand.now }
{
    demand.session == meeting.last_number() && demand.resolution == resolution
}

/// Whether the party has demanded a poll on the resolution already, in the last session.
fn has_demanded(meeting: &Meeting, own: &OwnView, resolution: u64) -> bool
    ensures { result ≡ own_demanded meeting.now own.now resolution }
{
    let demands = own.demands.as_slice();
    demands
        .iter()
        .any(|demand| is_demand_now(meeting, resolution, demand))
}

fn demand_refusal(
    public: &PublicRecord,
    meeting: &Meeting,
    own: &OwnView,
    resolution: u64,
) -> Option<Refusal>
    ensures { result ≡ first_refusal (demand_cases public.now meeting.now own.now resolution) }
{
    if !meeting.has_resolution(resolution) {
        return Some(Refusal::NoResolution);
    }
    if !meeting.loaded {
        return Some(Refusal::NoRegister);
    }
    if !meeting.last_session().is_opened() {
        return Some(Refusal::NotOpened);
    }
    if !is_present(meeting, own) {
        return Some(Refusal::NotPresent);
    }
    if !may_demand(meeting, own) {
        return Some(Refusal::NoRight);
    }
    if find_poll(public.polls(), resolution).is_some() {
        return Some(Refusal::PollOrdered);
    }
    None
}

/// The answer to a party that demands a poll (sections 321 and 329): the first that holds of
/// `NoResolution`, `NoRegister`, `NotOpened` where the last session is not opened, `NotPresent` where
/// its presence in it is not marked, `NoRight` where it is no individual member of the register, no
/// representative of a corporation there, and governs no share as a proxy for acts in this session,
/// and `PollOrdered`; and else `Noted`, which enters the demand unless it stands already in this
/// session. Whether the demands are enough is not said.
#[inline(never)]
pub(crate) fn demand(
    public: &PublicRecord,
    meeting: &Meeting,
    own: &OwnView,
    now: Moment,
    resolution: u64,
) -> Answer<Entry>
    ensures { result ≡ ruled_answer (demand_ruling public.now meeting.now own.now now resolution) }
{
    if let Some(refusal) = demand_refusal(public, meeting, own, resolution) {
        return refuse(refusal);
    }
    let demand = DemandMark {
        session: meeting.last_number(),
        resolution,
        party: own.party,
        moment: now,
    };
    noted(
        has_demanded(meeting, own, resolution),
        Entry::Demand(demand),
    )
}
