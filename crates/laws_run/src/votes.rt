//! What runs tell of votes before they are declared: nothing.
ghost use Rattle.std.specs.Prelude.{[]};
ghost use Rattle.meeting_core.specs.Step.{decided};
ghost use Rattle.laws_step.specs.WrongAnswers.{office_with};
ghost use Rattle.laws_run.specs.RunSecrecy.{KeepsSecretsInRuns, KeepsSecretsInSteps, StepsKeepSecretsInRuns, VotesAreSecret};
ghost use Rattle.laws_run.specs.WrongCounts.{ShowsVotes, calls_without_votes, closes_after_votes, declares_after_five, four_votes, meeting_of_two, shows_turnout, shows_turnout_of_others, vote_and_call, vote_and_close, vote_and_declare, vote_and_declare_another};
ghost use Rattle.laws_step.specs.WrongOfficeReads.{lone_office};

use laws_step::{votes_are_secret, what_is_read_is_enough};

/// Votes are secret until the declaration. Of the votes of some voters on a resolution, be these
/// voters everybody, everybody but one party, or any others, each step of the desk tells nothing:
/// in two offices that are the same but for these votes and, where both have declared the
/// resolution, but for its count, a call leaves two such offices; one of these votes leaves such an
/// office; the office is given the same reply, its declaration of the resolution among them, which
/// is refused alike or accepted in both, and may differ in the count and in whether the resolution
/// is carried; and until the declaration every party that is none of the voters is given the same
/// reply.
///
/// Of any way to decide calls of which this holds, two lists of calls that differ in such votes
/// alone give the office the same replies, one for one, but for that count; until the declaration
/// they give every party that is none of the voters the same replies, one for one, and leave the
/// same public records. So it is on the desk, from any office, with and without the votes. It says
/// more than `votes_are_secret`: calls of the whole desk, whether the declaration is refused, and
/// offices that differ in what was declared are within it.
pub fn secrecy()
    ensures steps { KeepsSecretsInSteps decided }
    ensures runs { StepsKeepSecretsInRuns }
    ensures desk { KeepsSecretsInRuns decided }
    ensures left_out { VotesAreSecret decided }
{
    votes_are_secret();
    what_is_read_is_enough();
}

/// The law of the office can fail: a desk that tells it at the close of a poll how many votes there
/// are gives it another reply where a member voted before.
pub fn shown_turnout_is_caught()
    ensures apart { ShowsVotes shows_turnout (office_with []) vote_and_close }
    ensures caught { VotesAreSecret shows_turnout → ⊥ }
    ensures steps_caught { KeepsSecretsInSteps shows_turnout → ⊥ }
{}

/// The law of the office can fail: a desk that tells it at the declaration of one resolution how
/// many votes there are on another gives it another reply where a member voted on that.
pub fn turnout_of_others_is_caught()
    ensures apart { ShowsVotes shows_turnout_of_others (lone_office meeting_of_two)
        vote_and_declare_another }
    ensures caught { VotesAreSecret shows_turnout_of_others → ⊥ }
    ensures steps_caught { KeepsSecretsInSteps shows_turnout_of_others → ⊥ }
{}

/// The law of the office can fail: a desk that closes a poll only where there are votes gives it
/// another reply where a member voted before.
pub fn close_for_turnout_is_caught()
    ensures apart { ShowsVotes closes_after_votes (office_with []) vote_and_close }
    ensures caught { VotesAreSecret closes_after_votes → ⊥ }
    ensures steps_caught { KeepsSecretsInSteps closes_after_votes → ⊥ }
{}

/// The law of the office can fail: a desk that declares a resolution only where there are five
/// votes refuses the declaration where the fifth is wanting.
pub fn result_for_turnout_is_caught()
    ensures apart { ShowsVotes declares_after_five (office_with four_votes) vote_and_declare }
    ensures caught { VotesAreSecret declares_after_five → ⊥ }
    ensures steps_caught { KeepsSecretsInSteps declares_after_five → ⊥ }
{}

/// The law of the office can fail: a desk that calls no meeting while votes stand gives it another
/// reply where a member voted before.
pub fn call_for_votes_is_caught()
    ensures apart { ShowsVotes calls_without_votes (office_with []) vote_and_call }
    ensures caught { VotesAreSecret calls_without_votes → ⊥ }
    ensures steps_caught { KeepsSecretsInSteps calls_without_votes → ⊥ }
{}
