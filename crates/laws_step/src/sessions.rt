//! Meetings of one session, and endings between sessions.
ghost use Rattle.laws_step.specs.Adjourned.{LaterEndingsAreNotCounted, LaterEndingsTakeNoRole, LaterEndingsTakeTheVote, acts_cutoffs};
ghost use Rattle.laws_step.specs.OneSession.{OneSessionHasTheCutoffs, OneSessionIsCountedAlike, OneSessionIsKnown, OneSessionIsNoticed, OneSessionIsOneMeeting, OneSessionIsReadAlike, OneSessionIsTheLast};
ghost use Rattle.laws_step.specs.WrongAdjourned.{TakesARole, meeting_ended_between, votes_cutoffs};
ghost use Rattle.laws_step.specs.WrongReplaced.{a_proxy};

/// A meeting that was never adjourned is answered by definitions that know no sessions. Its last
/// session is its first. Acts, votes and polls that are not late have the same cutoffs, by the
/// appointed time and the opening. A proxy is told one list of what it governs, for acts and for
/// votes. Every presence and demand counts, and the notice has one session.
pub fn one_session_is_the_meeting()
    ensures last { OneSessionIsTheLast }
    ensures cutoffs { OneSessionHasTheCutoffs }
    ensures counted { OneSessionIsCountedAlike }
    ensures known { OneSessionIsKnown }
    ensures read { OneSessionIsReadAlike }
    ensures attendance { OneSessionIsOneMeeting }
    ensures notice { OneSessionIsNoticed }
{}

/// An ending after a meeting first opened takes nobody's capacity in any of its sessions: the quorum
/// and the demand of a poll are the same without it. It takes the votes in the sessions that open
/// after it. An appointment that was ended between the first opening and that of a session governs
/// for acts there what it would govern had nothing been ended, and governs nothing for votes (section
/// 330).
pub fn later_endings_take_votes_alone()
    ensures capacity { LaterEndingsTakeNoRole acts_cutoffs }
    ensures counted { LaterEndingsAreNotCounted }
    ensures votes { LaterEndingsTakeTheVote }
{}

/// That law can fail: where capacities are counted by the cutoffs for votes, the ending of an
/// appointment between the openings of two sessions takes its proxy's capacity in the second.
pub fn capacities_by_votes_are_caught()
    ensures role { TakesARole votes_cutoffs meeting_ended_between 2 a_proxy }
    ensures caught { LaterEndingsTakeNoRole votes_cutoffs → ⊥ }
{}
