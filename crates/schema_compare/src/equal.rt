//! Lists whose items are compared one by one.
ghost use Rattle.std.specs.Prelude.{◌≡◌, IsTrue};

use sqlite_items::Items;
use sqlite_value::keys::Order;
use sqlite_value::value::Bytes;

/// Values that can be compared. They are equal where the answer is `true`.
pub(crate) trait Equal {
    fn is_equal(&self, other: &Self) -> bool
        ensures { IsTrue result → self.now ≡ other.now };
}

/// Whether two lists have equal items in the same order.
pub(crate) fn are_equal<T: Equal>(some: &[T], others: &[T]) -> bool
    ensures { IsTrue result → some.now ≡ others.now }
{
    if some.len() != others.len() {
        return false;
    }
    for at in 0..some.len() {
        if !some[at].is_equal(&others[at]) {
            return false;
        }
    }
    true
}

impl Equal for u8 {
    fn is_equal(&self, other: &u8) -> bool {
        *self == *other
    }
}

impl Equal for usize {
    fn is_equal(&self, other: &usize) -> bool {
        *self == *other
    }
}

impl Equal for Order {
    fn is_equal(&self, other: &Order) -> bool {
        self.digits == other.digits
    }
}

impl Equal for Bytes {
    fn is_equal(&self, other: &Bytes) -> bool {
        are_equal(self.as_slice(), other.as_slice())
    }
}

impl Equal for Items<usize> {
    fn is_equal(&self, other: &Items<usize>) -> bool {
        are_equal(self.as_slice(), other.as_slice())
    }
}
