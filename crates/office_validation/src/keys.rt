//! How often items stand that have one first key and one mark.
ghost use Rattle.std.specs.Prelude.{◌≡◌, ◌&&◌, count_by, nat_le};
ghost use Rattle.std.specs.List.{list_all};
ghost use Rattle.std.specs.Ordering.{is_eq};

use keyed_seq::{Filed, FiledBy};

/// An item that a mark distinguishes from the others of its first key.
pub(crate) trait Marked: FiledBy {
    /// What marks items.
    type Mark: Ord + Copy;

    // The mark, as contracts see it.
    ghost mark_of: { Self → Self.Mark };

    /// The mark of the item.
    fn mark(&self) -> Self::Mark
        ensures { result ≡ mark_of self.now };
}

/// How many items have the first key and the mark. It looks at those of that key alone, and takes
/// no memory.
pub(crate) fn times<T: Marked>(items: &Filed<T>, key: T::Key, mark: T::Mark) -> usize
    ensures { result ≡ count_by (λ (item : T). is_eq (T.Mark.cmp (T.mark_of item) mark)
        && is_eq (T.Key.cmp (T.first_key_of item) key)) items.now }
{
    let all = items.as_slice();
    let mut times = 0;
    for place in items.places_by_first(key) {
        if all[*place].mark().cmp(&mark).is_eq() {
            times += 1;
        }
    }
    times
}

/// Whether one item at most has the first key and the mark of an item.
fn stands_once<T: Marked>(items: &Filed<T>, item: &T) -> bool
    ensures { result ≡ nat_le (count_by (λ (other : T).
        is_eq (T.Mark.cmp (T.mark_of other) (T.mark_of item.now))
        && is_eq (T.Key.cmp (T.first_key_of other) (T.first_key_of item.now))) items.now) 1 }
{
    times(items, item.first_key(), item.mark()) <= 1
}

/// Whether no two items have one first key and one mark.
pub(crate) fn stand_once<T: Marked>(items: &Filed<T>) -> bool
    ensures { result ≡ list_all (λ (item : T). nat_le (count_by (λ (other : T).
        is_eq (T.Mark.cmp (T.mark_of other) (T.mark_of item))
        && is_eq (T.Key.cmp (T.first_key_of other) (T.first_key_of item))) items.now) 1)
        items.now }
{
    items.as_slice().iter().all(|item| stands_once(items, item))
}
