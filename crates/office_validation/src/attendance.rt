//! Whether authorities, presences and demands are those of a meeting.
ghost use Rattle.std.specs.Prelude.{◌≡◌, count_by, nat_le};
ghost use Rattle.std.specs.List.{list_all};
ghost use Rattle.seq.specs.Ordered.{differ_by};
ghost use Rattle.vocabulary.specs.Names.{same_name};
ghost use Rattle.desk_words.specs.declared.records.Authority.{Authority};
ghost use Rattle.desk_words.specs.declared.records.DemandMark.{DemandMark};
ghost use Rattle.desk_words.specs.declared.records.PresenceMark.{PresenceMark};
ghost use Rattle.desk_words.specs.declared.limits.TheConstants.{MOST_AUTHORITIES};
ghost use Rattle.desk_words.specs.Office.{are_authorities, same_authority};
ghost use Rattle.desk_words.specs.Office.{are_demands, are_presences, is_demand, same_demand};
ghost use Rattle.desk_words.specs.Office.{same_presence};
ghost use Rattle.desk_words.specs.Sessions.{is_session};

use crate::keys::{Marked, stand_once};
use desk_words::limits::MOST_AUTHORITIES;
use desk_words::{Authority, DemandMark, Filed, Meeting, Party, PresenceMark};

/// Whether the party that gave an authority gave `MOST_AUTHORITIES` at most.
fn gave_few(given: &Filed<Authority>, authority: &Authority) -> bool
    ensures { result ≡ nat_le (count_by (λ (b : Authority).
        same_name b.corporation authority.now.corporation) given.now) MOST_AUTHORITIES }
{
    given.places_by_first(authority.corporation).len() <= MOST_AUTHORITIES
}

fn all_gave_few(given: &Filed<Authority>) -> bool
    ensures { result ≡ list_all (λ (a : Authority). nat_le (count_by (λ (b : Authority).
        same_name b.corporation a.corporation) given.now) MOST_AUTHORITIES) given.now }
{
    given
        .as_slice()
        .iter()
        .all(|authority| gave_few(given, authority))
}

impl Marked for Authority {
    type Mark = Party;

    ghost mark_of = { λ authority. authority.person };

    fn mark(&self) -> Party {
        self.person
    }
}

/// Whether no party authorises a person twice.
fn authorities_differ(given: &Filed<Authority>) -> bool
    ensures { result ≡ differ_by same_authority given.now }
{
    stand_once(given)
}

/// Whether they are the authorities of a meeting (section 323).
pub(crate) fn are_authorities(given: &Filed<Authority>) -> bool
    ensures { result ≡ are_authorities given.now }
{
    all_gave_few(given) && authorities_differ(given)
}

impl Marked for PresenceMark {
    type Mark = u64;

    ghost mark_of = { λ presence. presence.session };

    fn mark(&self) -> u64 {
        self.session
    }
}

/// Whether no party is marked present twice in a session.
fn presences_differ(marks: &Filed<PresenceMark>) -> bool
    ensures { result ≡ differ_by same_presence marks.now }
{
    stand_once(marks)
}

/// Whether each party is marked present in a session of the meeting.
fn name_sessions(meeting: &Meeting, marks: &[PresenceMark]) -> bool
    ensures { result ≡ list_all (λ (p : PresenceMark). is_session meeting.now p.session)
        marks.now }
{
    marks.iter().all(|mark| meeting.has_session(mark.session))
}

/// Whether they are presences in the meeting.
pub(crate) fn are_presences(meeting: &Meeting, marks: &Filed<PresenceMark>) -> bool
    ensures { result ≡ are_presences meeting.now marks.now }
{
    name_sessions(meeting, marks.as_slice()) && presences_differ(marks)
}

impl Marked for DemandMark {
    type Mark = (u64, u64);

    ghost mark_of = { λ demand. (demand.session, demand.resolution) };

    fn mark(&self) -> (u64, u64) {
        (self.session, self.resolution)
    }
}

/// Whether no party demands a poll on a resolution twice in a session.
fn demands_differ(demands: &Filed<DemandMark>) -> bool
    ensures { result ≡ differ_by same_demand demands.now }
{
    stand_once(demands)
}

/// Whether it is a demand, in a session of the meeting, of a poll on one of its resolutions.
fn is_demand(meeting: &Meeting, demand: &DemandMark) -> bool
    ensures { result ≡ is_demand meeting.now demand.now }
{
    meeting.has_session(demand.session) && meeting.has_resolution(demand.resolution)
}

fn are_each_demands(meeting: &Meeting, demands: &[DemandMark]) -> bool
    ensures { result ≡ list_all (is_demand meeting.now) demands.now }
{
    demands.iter().all(|demand| is_demand(meeting, demand))
}

/// Whether they are demands of polls in the meeting (sections 321 and 329).
pub(crate) fn are_demands(meeting: &Meeting, demands: &Filed<DemandMark>) -> bool
    ensures { result ≡ are_demands meeting.now demands.now }
{
    are_each_demands(meeting, demands.as_slice()) && demands_differ(demands)
}
