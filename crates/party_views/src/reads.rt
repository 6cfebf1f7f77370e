//! What of a party's own things the answer to its request reads.
ghost use Rattle.std.specs.Prelude.{◌≡◌};
ghost use Rattle.party_views.specs.OwnViews.{holds_as_individual};
ghost use Rattle.party_views.specs.RowsRead.{reads_of};

use desk_words::{HolderKind, NewCast, PartyRequest, RegisterRow};

/// What of a party's own things, and of the rows that they are made of, is read.
#[derive(Clone, Copy)]
pub enum Reads {
    /// Nothing but whose they are.
    Nothing,
    /// All of them.
    Everything,
    /// The appointments that it gave, and their endings.
    Given,
    /// How many appointments it gave.
    GivenCount,
    /// The persons whom it authorised.
    Persons,
    /// The sessions in which it is present.
    Presence,
    /// What a demand of a poll stands on: its row, its presence and its demands, and, unless it holds
    /// as an individual, what others gave it.
    Standing,
    /// What a vote stands on: the votes cast before on its resolution, and what gives the party
    /// the shares in the vote's capacity.
    Vote(NewCast),
    /// What votes as instructed on the resolution of that number, from 1, stand on.
    AsInstructed(u64),
}

/// Whether a row is an individual's.
pub fn holds_as_individual(row: &Option<RegisterRow>) -> bool
    ensures { result ≡ holds_as_individual row.now }
{
    match row {
        None => false,
        Some(row) => row.kind == HolderKind::Individual,
    }
}

/// What the answer to a request reads.
pub fn reads_of(asked: &PartyRequest) -> Reads
    ensures { result ≡ reads_of asked.now }
{
    match asked {
        PartyRequest::Notice => Reads::Nothing,
        PartyRequest::Mine => Reads::Everything,
        PartyRequest::Appoint(_) => Reads::GivenCount,
        PartyRequest::End(_) => Reads::Given,
        PartyRequest::Authorise(_) => Reads::Persons,
        PartyRequest::Attend => Reads::Presence,
        PartyRequest::Demand(_) => Reads::Standing,
        PartyRequest::Cast(new) => Reads::Vote(*new),
        PartyRequest::Instructed(resolution) => Reads::AsInstructed(*resolution),
    }
}
