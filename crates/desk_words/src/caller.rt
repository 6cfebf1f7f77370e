//! Callers, and the keys by which they are known.
ghost use Rattle.std.specs.Prelude.{◌≡◌};
ghost use Rattle.desk_words.specs.Callers.{caller_of, is_caller, party_in};
ghost use Rattle.desk_words.specs.KeyRows.{same_key_row};

use seq::Keyed;
use vocabulary::{Party, SecretKey, read_party};

/// Who calls: the office, or a party.
#[derive(Clone, Copy, PartialEq, Eq)]
pub enum Caller {
    Office,
    Party(Party),
}

impl Caller {
    /// The party that calls, or none for the office.
    pub fn party(self) -> Option<Party>
        ensures { result ≡ party_in self }
    {
        match self {
            Caller::Office => None,
            Caller::Party(party) => Some(party),
        }
    }

    /// Whether both are the same caller.
    pub fn is(self, other: Caller) -> bool
        ensures { result ≡ is_caller self other }
    {
        match self {
            Caller::Office => other.party().is_none(),
            Caller::Party(party) => match other {
                Caller::Office => false,
                Caller::Party(named) => party.is(named),
            },
        }
    }
}

/// The caller that the bytes name: `OFFICE`, or a party; none exactly where they name neither.
pub fn read_caller(bytes: &[u8]) -> Option<Caller>
    ensures { result ≡ caller_of bytes.now }
{
    if bytes == b"OFFICE".as_slice() {
        return Some(Caller::Office);
    }
    Some(Caller::Party(read_party(bytes)?))
}

/// A caller's key.
#[derive(Clone, Copy, PartialEq, Eq)]
pub struct KeyRow {
    pub caller: Caller,
    pub secret: SecretKey,
}

impl KeyRow {
    /// Whether both are the same row.
    pub fn is(&self, other: &KeyRow) -> bool
        ensures { result ≡ same_key_row self.now other.now }
    {
        self.caller.is(other.caller) && self.secret.is(other.secret)
    }
}

impl Keyed for KeyRow {
    type Key = Option<Party>;

    ghost key_of = { λ row. party_in row.caller };

    fn key(&self) -> Option<Party> {
        self.caller.party()
    }
}
