//! Laws of whole lists of calls: what others do, and is not shown to a party, changes no reply to
//! it, and votes are shown to nobody before they are declared.
#![tactic(auto)]

mod votes;
mod wrong_ways;

ghost use Rattle.meeting_core.specs.Step.{decided};
ghost use Rattle.laws_run.specs.Isolation.{IsolatesCalls, IsolatesSteps, RunsAreTheDesks, StepsIsolateRuns};

pub use votes::{
    call_for_votes_is_caught, close_for_turnout_is_caught, result_for_turnout_is_caught, secrecy,
    shown_turnout_is_caught, turnout_of_others_is_caught,
};
pub use wrong_ways::{
    limits_over_all_are_caught, moved_record_moments_are_caught, numbers_of_rows_are_caught,
    numbers_over_all_are_caught, places_in_the_register_are_caught, running_total_is_caught,
    shown_demands_are_caught, turnout_for_a_vote_is_caught, votes_on_shares_are_caught,
};

/// What others do changes no reply to a party but by what the trace of the calls shows it. The
/// trace has the party's own calls whole, and what its sources give: the appointments, endings and
/// authorities of those who name it as proxy or authorise it. Of the calls of the office it has
/// the public records of all meetings after each, of a register the rows of the party and its
/// sources, and that the party is present; of keys, of the presence of others, and of all other
/// calls of others nothing.
///
/// Each step of the desk keeps the parts of two offices that concern the party equal, where the
/// calls show it the same, and gives it equal replies. Of any way to decide calls of which this
/// holds, two lists with one trace give the party the same replies, one for one, and leave offices
/// that are one to it. So on the desk two lists from the empty office do, with all sources of
/// either.
pub fn isolation()
    ensures steps { IsolatesSteps decided }
    ensures runs { StepsIsolateRuns }
    ensures calls { IsolatesCalls decided }
    ensures desk { RunsAreTheDesks }
{}
