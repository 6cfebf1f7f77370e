//! The majority that carries a resolution.
ghost use Rattle.std.specs.Prelude.{◌≡◌};
ghost use Rattle.desk_words.specs.Majority.{is_carried, result_of};

use crate::records::Tally;
use crate::reply::Declaration;
use vocabulary::ResKind;

/// Whether a resolution of this kind is carried by so many votes for and against it, in shares: an
/// ordinary one by a simple majority (section 282), a special one by not less than 75 per cent of
/// the votes (section 283), of which there must be one at least. It answers for every pair.
pub fn carried(kind: ResKind, votes_for: u64, votes_against: u64) -> bool
    ensures { result ≡ is_carried kind votes_for votes_against }
{
    match kind {
        ResKind::Ordinary => votes_for > votes_against,
        ResKind::Special => {
            let votes = u128::from(votes_for) + u128::from(votes_against);
            votes > 0 && 4 * u128::from(votes_for) >= 3 * votes
        }
    }
}

/// The result of a poll on a resolution of this kind: its count, and whether that carries the
/// resolution (sections 282 and 283).
pub fn result_of(kind: ResKind, tally: Tally) -> Declaration
    ensures { result ≡ result_of kind tally }
{
    Declaration {
        tally,
        carried: carried(kind, tally.votes_for, tally.votes_against),
    }
}
