//! Wrong ways to decide calls, which the law of runs refuses: each gives a member another reply
//! where another member did something before, of which nothing is shown to it.
ghost use Rattle.std.specs.Prelude.{[]};
ghost use Rattle.laws_step.specs.WrongOfficeReads.{lone_office};
ghost use Rattle.laws_step.specs.WrongAnswers.{office_with};
ghost use Rattle.laws_run.specs.Isolation.{IsolatesRuns, IsolatesSteps};
ghost use Rattle.laws_run.specs.RunSecrecy.{VotesAreSecret};
ghost use Rattle.laws_run.specs.WrongMoments.{appoints_elsewhere, asks_notice, both_appoint_apart, moves_the_record, office_of_both, shows_the_row};
ghost use Rattle.laws_run.specs.WrongReplies.{loaded_alone, loaded_both, meeting_unloaded, shows_the_place, the_other, both_authorise, both_demand, limits_all, meeting_of_unequals, meeting_with_authorities, meeting_with_proxy, member_asks, member_authorises, member_demands, proxy_votes_first, shows_voters_turnout, shows_votes_on_shares, shows_whether_enough};
ghost use Rattle.laws_run.specs.WrongWays.{DistinguishesRuns, both_appoint, both_vote, member_appoints, member_votes, shows_all_numbers, shows_the_count, the_member};

/// A desk that tells a voter how the votes stood gives a member another reply where another member
/// voted before it. So it breaks the law of secrecy too.
pub fn running_total_is_caught()
    ensures apart { DistinguishesRuns shows_the_count the_member (office_with []) member_votes
        both_vote }
    ensures caught { IsolatesRuns shows_the_count → ⊥ }
    ensures steps_caught { IsolatesSteps shows_the_count → ⊥ }
    ensures secrecy_caught { VotesAreSecret shows_the_count → ⊥ }
{}

/// A desk that numbers the appointments of all members together gives a member another reply where
/// another member appointed before it.
pub fn numbers_over_all_are_caught()
    ensures apart { DistinguishesRuns shows_all_numbers the_member (office_with []) member_appoints
        both_appoint }
    ensures caught { IsolatesRuns shows_all_numbers → ⊥ }
    ensures steps_caught { IsolatesSteps shows_all_numbers → ⊥ }
{}

/// A desk that numbers an appointment by its row among those of all meetings gives a member another
/// reply where another member appointed in another meeting before it.
pub fn numbers_of_rows_are_caught()
    ensures apart { DistinguishesRuns shows_the_row the_member office_of_both member_appoints
        both_appoint_apart }
    ensures caught { IsolatesRuns shows_the_row → ⊥ }
    ensures steps_caught { IsolatesSteps shows_the_row → ⊥ }
{}

/// A desk that tells a voter how many votes there were before its own gives a member another reply
/// where another member voted before it. So it breaks the law of secrecy too.
pub fn turnout_for_a_vote_is_caught()
    ensures apart { DistinguishesRuns shows_voters_turnout the_member (office_with []) member_votes
        both_vote }
    ensures caught { IsolatesRuns shows_voters_turnout → ⊥ }
    ensures steps_caught { IsolatesSteps shows_voters_turnout → ⊥ }
    ensures secrecy_caught { VotesAreSecret shows_voters_turnout → ⊥ }
{}

/// A desk that tells a party which demands a poll whether others demanded enough gives a member
/// another reply where another member demanded the poll before it.
pub fn shown_demands_are_caught()
    ensures apart { DistinguishesRuns shows_whether_enough the_member (lone_office meeting_of_unequals)
        member_demands both_demand }
    ensures caught { IsolatesRuns shows_whether_enough → ⊥ }
    ensures steps_caught { IsolatesSteps shows_whether_enough → ⊥ }
{}

/// A desk that tells a member the votes on its shares, whoever cast them, gives it another reply
/// where its proxy voted before.
pub fn votes_on_shares_are_caught()
    ensures apart { DistinguishesRuns shows_votes_on_shares the_member (lone_office meeting_with_proxy)
        member_asks proxy_votes_first }
    ensures caught { IsolatesRuns shows_votes_on_shares → ⊥ }
    ensures steps_caught { IsolatesSteps shows_votes_on_shares → ⊥ }
{}

/// A desk that counts the authorities of all parties against the limit of each refuses a member
/// where another member authorised a person before it.
pub fn limits_over_all_are_caught()
    ensures apart { DistinguishesRuns limits_all the_member (lone_office meeting_with_authorities)
        member_authorises both_authorise }
    ensures caught { IsolatesRuns limits_all → ⊥ }
    ensures steps_caught { IsolatesSteps limits_all → ⊥ }
{}

/// A desk that tells a member the place of its row in the register gives it another reply where the
/// register that the office loaded has the row of another member before its own.
pub fn places_in_the_register_are_caught()
    ensures apart { DistinguishesRuns shows_the_place the_other (lone_office meeting_unloaded)
        loaded_alone loaded_both }
    ensures caught { IsolatesRuns shows_the_place → ⊥ }
    ensures steps_caught { IsolatesSteps shows_the_place → ⊥ }
{}

/// A desk that shows in the notice of a meeting a record moment which appointments in another
/// meeting have moved gives a member another reply where another member appointed there before it.
pub fn moved_record_moments_are_caught()
    ensures apart { DistinguishesRuns moves_the_record the_member office_of_both asks_notice
        appoints_elsewhere }
    ensures caught { IsolatesRuns moves_the_record → ⊥ }
    ensures steps_caught { IsolatesSteps moves_the_record → ⊥ }
{}
