//! Laws of the office: what a party may learn, how calls are refused and files loaded, and that
//! what is asked and replied in a meeting agrees with its rules.
#![tactic(auto)]

mod loads;
mod office_reads;
mod own_things;
mod proxies;
mod reads;
mod refusals;
mod runs;
mod sessions;
mod worlds;

ghost use Rattle.laws_step.specs.DemandsAndGoverning.{DemandsByCapacity};
ghost use Rattle.laws_step.specs.Secrecy.{TheOfficeLearnsNoVotes, VotesAreNotPublic};

pub use loads::{loads_act_once, wrong_loads_are_caught};
pub use office_reads::{unread_presence_is_caught, what_the_office_reads_is_enough};
pub use own_things::{
    others_things_are_caught, own_things_are_ones_own, own_things_show_what_governs,
    proxies_learn_what_is_left, replacing_appointments_are_caught,
};
pub use proxies::proxies_cast_by_the_rules;
pub use reads::{rows_give_own_things, too_little_read_is_caught, what_is_read_is_enough};
pub use refusals::{lowest_refusal, refused_calls_change_nothing};
pub use runs::runs_go_on;
pub use sessions::{
    capacities_by_votes_are_caught, later_endings_take_votes_alone, one_session_is_the_meeting,
};
use vote_rules::laws::tallies_read_their_own_casts;
pub use worlds::{names, running_total_is_caught, two_worlds};

/// A party may demand a poll, as is read from its own things alone, exactly where it has at least
/// one of the capacities in the last session by which the quorum counts persons.
pub fn demands_by_capacity()
    ensures { DemandsByCapacity }
{}

/// Whatever the office asks in a meeting but the declaration of a resolution is decided alike
/// whatever the votes on that resolution are, and votes stand in no public record.
pub fn votes_are_secret()
    ensures office { TheOfficeLearnsNoVotes }
    ensures public { VotesAreNotPublic }
{
    tallies_read_their_own_casts();
}
