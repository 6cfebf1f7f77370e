//! What a party may learn.
ghost use Rattle.std.specs.Prelude.{[], ◌∷◌};
ghost use Rattle.laws_step.specs.NamedParties.{CountsNameNobody, NamesOwn};
ghost use Rattle.laws_step.specs.Worlds.{LeavesThePublicRecord, ReadsTheViews, Distinguishes, party_answer};
ghost use Rattle.laws_step.specs.WrongAnswers.{a_member, office_with, running_total, vote_of_another, vote_wanted};

/// Two offices that agree on the public record of the meeting in which a party asks, and on its own
/// things there, give it the same reply and the same change, and any two offices do where it asks
/// what only the office may; and no call of a party changes a public record.
pub fn two_worlds()
    ensures same { ReadsTheViews party_answer }
    ensures quiet { LeavesThePublicRecord party_answer }
{}

/// Every party named in a reply to a party is that party or stands in its own things. It follows
/// from `two_worlds` and says less: a count names nobody, so that a reply which says how the votes
/// stand would keep this law, and breaks only `two_worlds` (`running_total_is_caught`).
pub fn names()
    ensures names { NamesOwn party_answer }
    ensures counts { CountsNameNobody }
{}

/// The law of two worlds can fail where that of names holds: an answer that tells a voter how the
/// votes stand names nobody, and still tells apart two offices that agree on all that the voter may
/// know, and differ in the vote of another member alone.
pub fn running_total_is_caught()
    ensures names { NamesOwn running_total }
    ensures apart { Distinguishes running_total (office_with [])
        (office_with (vote_of_another ∷ [])) a_member 0 vote_wanted }
    ensures caught { ReadsTheViews running_total → ⊥ }
{}
