//! Names: parties, meetings and secret keys.
ghost use Rattle.std.specs.Prelude.{◌≡◌, ◌≤◌, ◌<◌, ◌==◌, ◌↔◌, [], ◌∷◌, IsTrue, IfSome, length, refl};
ghost use Rattle.std.proofs.Common.{ap};
ghost use Rattle.std.specs.Cmp.Lexicographic.{bytes_decides, lists_agrees, nat_list_cmp_total, texts_ties};
ghost use Rattle.std.specs.List.{list_all, position_from};
ghost use Rattle.vocabulary.specs.Names.{letters_of, in_places, is_name_letter, is_key_letter, is_name, is_party, is_key, party_of, meeting_of, key_of, name_cmp, same_name, Holds};

use std::cmp::Ordering;
use std::hash::{Hash, Hasher};
use std::marker::Model;

/// The name of a party: 1 to 16 of A to Z and 0 to 9, and not `OFFICE`.
#[derive(Clone, Copy, PartialEq, Eq, PartialOrd)]
pub struct Party {
    letters: [u8; 16],
}

impl Model for Party {
    ghost use Rattle.std.specs.Prelude.{ℕ, List};
    ghost use Rattle.vocabulary.specs.Names.{Holds, is_party};

    ghost Value = { List ℕ };

    ghost view = { λ p. p.letters };

    ghost invariant = { λ p. Holds 16 is_party p.letters };

    ghost inverse = { λ s. record { letters = s } };
}

/// Parties are looked up again and again, so their letters are compared as one number.
impl Ord for Party {
    ghost cmp = { name_cmp };

    ghost total = { nat_list_cmp_total };

    ghost matches_partial_cmp = { lists_agrees (λ x y. refl) };

    ghost matches_eq = { texts_ties };

    fn cmp(&self, other: &Party) -> Ordering {
        u128::from_be_bytes(self.letters).cmp(&u128::from_be_bytes(other.letters))
    }
}

/// Their letters are hashed at once, with the zeros behind them.
impl Hash for Party {
    ghost hash_input = { λ party. party ∷ [] };

    ghost respects_eq = { λ x y same. ap (λ party. party ∷ []) ((bytes_decides x y).0 same) };

    fn hash<H: Hasher>(&self, state: &mut H) {
        state.write(&self.letters);
    }
}

/// The name of a meeting: 1 to 16 of A to Z and 0 to 9.
#[derive(Clone, Copy, PartialEq, Eq, PartialOrd, Ord)]
pub struct MeetingId {
    letters: [u8; 16],
}

impl Model for MeetingId {
    ghost use Rattle.std.specs.Prelude.{ℕ, List};
    ghost use Rattle.vocabulary.specs.Names.{Holds, is_name};

    ghost Value = { List ℕ };

    ghost view = { λ m. m.letters };

    ghost invariant = { λ m. Holds 16 is_name m.letters };

    ghost inverse = { λ s. record { letters = s } };
}

/// A key by which a caller is known: 16 to 64 of A to Z, a to z, 0 to 9 and `-`.
#[derive(Clone, Copy, PartialEq, Eq, PartialOrd, Ord)]
pub struct SecretKey {
    letters: [u8; 64],
}

impl Model for SecretKey {
    ghost use Rattle.std.specs.Prelude.{ℕ, List};
    ghost use Rattle.vocabulary.specs.Names.{Holds, is_key};

    ghost Value = { List ℕ };

    ghost view = { λ k. k.letters };

    ghost invariant = { λ k. Holds 64 is_key k.letters };

    ghost inverse = { λ s. record { letters = s } };
}

fn is_name_byte(b: u8) -> bool
    ensures { result ≡ is_name_letter b }
{
    b.is_ascii_uppercase() || b.is_ascii_digit()
}

fn are_name_bytes(bytes: &[u8]) -> bool
    ensures { result ≡ list_all is_name_letter bytes.now }
{
    bytes.iter().all(|b| is_name_byte(*b))
}

fn has_name_form(bytes: &[u8]) -> bool
    ensures { result ≡ is_name bytes.now }
{
    !bytes.is_empty() && bytes.len() <= 16 && are_name_bytes(bytes)
}

fn has_party_form(bytes: &[u8]) -> bool
    ensures { result ≡ is_party bytes.now }
{
    has_name_form(bytes) && bytes != b"OFFICE".as_slice()
}

/// The letters in their places, and zeros after them.
fn in_places<const N: usize>(bytes: &[u8]) -> [u8; N]
    requires { length bytes.now ≤ N }
    ensures { result ≡ in_places N bytes.now }
{
    let mut letters = [0; N];
    letters[..bytes.len()].copy_from_slice(bytes);
    letters
}

fn first_zero(places: &[u8]) -> Option<usize>
    ensures first { result ≡ position_from (λ b. b == 0) 0 places.now }
    ensures bound { IfSome result (λ i. i < length places.now) }
{
    places.iter().position(|b| *b == 0)
}

/// The letters before the first zero.
fn letters_of(places: &[u8]) -> &[u8]
    ensures { result.now ≡ letters_of places.now }
{
    match first_zero(places) {
        Some(end) => &places[..end],
        None => places,
    }
}

/// The party that the bytes spell, or none exactly where they have not the form.
pub fn read_party(bytes: &[u8]) -> Option<Party>
    ensures { result ≡ party_of bytes.now }
{
    if !has_party_form(bytes) {
        return None;
    }
    Some(Party {
        letters: in_places(bytes),
    })
}

/// The meeting that the bytes spell, or none exactly where they have not the form.
pub fn read_meeting(bytes: &[u8]) -> Option<MeetingId>
    ensures { result ≡ meeting_of bytes.now }
{
    if !has_name_form(bytes) {
        return None;
    }
    Some(MeetingId {
        letters: in_places(bytes),
    })
}

fn is_key_byte(b: u8) -> bool
    ensures { result ≡ is_key_letter b }
{
    b.is_ascii_uppercase() || b.is_ascii_lowercase() || b.is_ascii_digit() || b == b'-'
}

fn are_key_bytes(bytes: &[u8]) -> bool
    ensures { result ≡ list_all is_key_letter bytes.now }
{
    bytes.iter().all(|b| is_key_byte(*b))
}

fn has_key_form(bytes: &[u8]) -> bool
    ensures { result ≡ is_key bytes.now }
{
    bytes.len() >= 16 && bytes.len() <= 64 && are_key_bytes(bytes)
}

/// The key that the bytes spell, or none exactly where they have not the form.
pub fn read_key(bytes: &[u8]) -> Option<SecretKey>
    ensures { result ≡ key_of bytes.now }
{
    if !has_key_form(bytes) {
        return None;
    }
    Some(SecretKey {
        letters: in_places(bytes),
    })
}

impl Party {
    /// Its letters.
    pub fn as_str(&self) -> &str
        ensures value { result.now ≡ letters_of self.now }
        ensures valid { Holds 16 is_party self.now }
    {
        str::from_utf8(letters_of(&self.letters)).unwrap()
    }

    /// Whether both are the same party.
    pub fn is(self, other: Party) -> bool
        ensures test { result ≡ same_name self other }
        ensures same { IsTrue result ↔ (self ≡ other) }
    {
        self == other
    }
}

impl MeetingId {
    /// Its letters.
    pub fn as_str(&self) -> &str
        ensures value { result.now ≡ letters_of self.now }
        ensures valid { Holds 16 is_name self.now }
    {
        str::from_utf8(letters_of(&self.letters)).unwrap()
    }

    /// Whether both are the same meeting.
    pub fn is(self, other: MeetingId) -> bool
        ensures test { result ≡ same_name self other }
        ensures same { IsTrue result ↔ (self ≡ other) }
    {
        self == other
    }
}

impl SecretKey {
    /// Its letters.
    pub fn as_str(&self) -> &str
        ensures value { result.now ≡ letters_of self.now }
        ensures valid { Holds 64 is_key self.now }
    {
        str::from_utf8(letters_of(&self.letters)).unwrap()
    }

    /// Whether both are the same key.
    pub fn is(self, other: SecretKey) -> bool
        ensures test { result ≡ same_name self other }
        ensures same { IsTrue result ↔ (self ≡ other) }
    {
        self == other
    }
}
