//! What a party is told as its own is its own, and what it is told to govern governs.
ghost use Rattle.std.specs.Prelude.{[], ◌∷◌};
ghost use Rattle.party_views.specs.Views.{own_in};
ghost use Rattle.laws_step.specs.DemandsAndGoverning.{OwnThingsShowWhatGoverns};
ghost use Rattle.laws_step.specs.OwnThings.{OwnThingsAreOfTheMeeting, DependsOnOwnAlone};
ghost use Rattle.laws_step.specs.Replaced.{IgnoresNamesAndPence, DependsOnWhatIsLeft};
ghost use Rattle.laws_step.specs.WrongAnswers.{a_member, meeting_with_casts, vote_of_another};
ghost use Rattle.laws_step.specs.WrongOwnThings.{ShowsMore, demands_of_all, meeting_with_demand, meeting_with_presence, presence_of_any, quiet_meeting, votes_of_all};
ghost use Rattle.laws_step.specs.WrongReplaced.{ShowsMoreThanIsLeft, a_proxy, number_shown, places_shown, proxy_shown, replaced_by_one_else, replaced_once, replaced_over_more, replaced_twice, replaced_under_another_name, row_shown, shown_with};

/// What a party is told of a meeting as its own is read from the notice, the polls, and the records
/// that concern it: its own ones, those that name it, what members who named it gave and ended, and
/// the rows of these members and of corporations that authorised it. Two meetings may differ in all
/// else. What an office tells is what its meeting tells.
pub fn own_things_are_ones_own()
    ensures own { DependsOnOwnAlone own_in }
    ensures office { OwnThingsAreOfTheMeeting }
{}

/// That law can fail: everybody's votes, anybody's presence and the number of everybody's demands,
/// shown to a member as its own, each distinguish two meetings that differ in a record of another
/// member alone.
pub fn others_things_are_caught()
    ensures votes { ShowsMore votes_of_all quiet_meeting (meeting_with_casts (vote_of_another ∷ []))
        a_member }
    ensures presence { ShowsMore presence_of_any quiet_meeting meeting_with_presence a_member }
    ensures demands { ShowsMore demands_of_all quiet_meeting meeting_with_demand a_member }
    ensures votes_caught { DependsOnOwnAlone votes_of_all → ⊥ }
    ensures presence_caught { DependsOnOwnAlone presence_of_any → ⊥ }
    ensures demands_caught { DependsOnOwnAlone demands_of_all → ⊥ }
{}

/// Own things tell a proxy of each appointment that names it the shares that it governs by the
/// rules: in each session, for acts and for votes, and for each late poll.
pub fn own_things_show_what_governs()
    ensures { OwnThingsShowWhatGoverns }
{}

/// A proxy learns of its member's other appointments what they leave to it, and nothing else. What
/// a party is told of a meeting as its own is the same in any two meetings that leave it the same,
/// whatever the members who named it gave to others, ended, and hold. The appointments that name it
/// are the same there but for their numbers, and govern the same shares: in each session, for acts
/// and for votes, and for each late poll (sections 324, 327 and 330). The rows of corporations that
/// authorised it may differ in name and pence there. So may all rows but its own, where nothing else
/// differs.
pub fn proxies_learn_what_is_left()
    ensures left { DependsOnWhatIsLeft own_in }
    ensures rows { IgnoresNamesAndPence own_in }
{}

/// That law can fail: the number, the proxy and the places of the appointment that replaced a
/// proxy's own, and the member's row, each shown to the proxy as its own, distinguish two meetings
/// that leave it the same, and differ in what replaced its appointment, or in that row's name and
/// pence.
pub fn replacing_appointments_are_caught()
    ensures number { ShowsMoreThanIsLeft (shown_with number_shown) replaced_once replaced_twice
        a_proxy }
    ensures proxy { ShowsMoreThanIsLeft (shown_with proxy_shown) replaced_once replaced_by_one_else
        a_proxy }
    ensures places { ShowsMoreThanIsLeft (shown_with places_shown) replaced_once replaced_over_more
        a_proxy }
    ensures row { ShowsMoreThanIsLeft row_shown replaced_once replaced_under_another_name a_proxy }
    ensures number_caught { DependsOnWhatIsLeft (shown_with number_shown) → ⊥ }
    ensures proxy_caught { DependsOnWhatIsLeft (shown_with proxy_shown) → ⊥ }
    ensures places_caught { DependsOnWhatIsLeft (shown_with places_shown) → ⊥ }
    ensures row_caught { DependsOnWhatIsLeft row_shown → ⊥ }
    ensures name_caught { IgnoresNamesAndPence row_shown → ⊥ }
{}
