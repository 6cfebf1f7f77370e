//! Lists kept in the order of a key.
ghost use Rattle.std.specs.Prelude.{◌≡◌, ◌≤◌, true, length, OnOk, OnErr, IsPermutation, IsSortedByKey, find};
ghost use Rattle.std.specs.List.{insert, position_from};
ghost use Rattle.std.specs.Option.{option_copied};
ghost use Rattle.seq.specs.Sorting.{insert_by, place_by};
ghost use Rattle.seq.specs.Ordered.{ascends_by, differ_by, has_key, key_before, same_key};

use crate::listing::Listing;
use std::alloc::AllocError;

/// A value that stands in a list in the order of its key.
pub trait Keyed {
    /// What values are ordered by. It is made anew at each comparison, so a small `Copy` type.
    type Key: Ord + Drop;

    // The key, as contracts see it.
    ghost key_of: { Self → Self.Key };

    /// The key of the value.
    fn key(&self) -> Self::Key
        ensures { result ≡ key_of self.now };
}

/// Whether each value's key is less than the next one's: then the list is in order, and no two of
/// its keys are equal.
pub fn ascend<T: Keyed>(values: &[T]) -> bool
    ensures { result ≡ ascends_by (key_before T.key_of T.Key.cmp) values.now }
{
    values.is_sorted_by(|first, second| first.key().cmp(&second.key()).is_lt())
}

/// Puts the values in the order of their keys. It sorts in place, in about n log n comparisons,
/// and needs no memory. Where no two keys are equal the list then ascends; in what order values
/// of equal keys stand is left open.
pub fn into_order<T: Keyed>(values: &mut Vec<T>)
    ensures permutation { IsPermutation values.old.items values.new.items }
    ensures sorted { IsSortedByKey T.key_of T.Key.cmp values.new.items }
    ensures ascending { ascends_by (key_before T.key_of T.Key.cmp) values.new.items
        ≡ differ_by (same_key T.key_of T.Key.cmp) values.old.items }
{
    values.sort_unstable_by_key(|value| value.key());
}

/// The value that has the key, or `None` where no value has it, in about log n comparisons.
/// Whether a list ascends, `ascend` tells.
pub fn find_by_key<'a, T: Keyed>(values: &'a [T], key: &T::Key) -> Option<&'a T>
    requires { ascends_by (key_before T.key_of T.Key.cmp) values.now ≡ true }
    ensures { option_copied result ≡ find (has_key T.key_of T.Key.cmp key.now) values.now }
{
    match values.binary_search_by_key(key, |value| value.key()) {
        Ok(place) => Some(&values[place]),
        Err(_) => None,
    }
}

/// Where the first value stands whose key is greater.
fn first_after<T: Keyed>(values: &[T], value: &T) -> Option<usize>
    ensures { result ≡ position_from (key_before T.key_of T.Key.cmp value.now) 0 values.now }
{
    values
        .iter()
        .position(|held| value.key().cmp(&held.key()).is_lt())
}

/// Where a value goes among others: before the first whose key is greater.
fn place_for<T: Keyed>(values: &[T], value: &T) -> usize
    ensures place { result ≡ place_by (key_before T.key_of T.Key.cmp) value.now values.now }
    ensures bound { result ≤ length values.now }
{
    match first_after(values, value) {
        Some(place) => place,
        None => values.len(),
    }
}

impl<T: Keyed + Drop> Listing<T> {
    /// Puts a value before the first one whose key is greater, so that a list in order stays in
    /// order. With `AllocError`, where no memory is left for it, the list stays as it was and the
    /// value is dropped.
    pub fn insert_in_order(&mut self, value: T) -> Result<(), AllocError>
        ensures ok { OnOk result
            (self.new ≡ insert_by (key_before T.key_of T.Key.cmp) value self.old) }
        ensures err { OnErr result (self.new ≡ self.old) }
    {
        let place = place_for(self.as_slice(), &value);
        self.insert_at(place, value)
    }
}
