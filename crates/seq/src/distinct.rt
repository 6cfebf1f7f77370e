//! The different values of a list.
ghost use Rattle.std.specs.Prelude.{◌≡◌, ◌↔◌, true, All, Contains, vec_len};
ghost use Rattle.std.specs.Ordering.{eq_by_cmp, is_lt};
ghost use Rattle.std.specs.Set.{distinct_count, is_member};
ghost use Rattle.seq.specs.Ordered.{ascends_by, IsExact};

/// The values of a list in ascending order, each once. It sorts in place, in about n log n
/// comparisons, and needs no memory.
pub fn in_order_once<T: Ord + Drop>(mut values: Vec<T>) -> Vec<T>
    ensures ascending { ascends_by (λ (a : T) (b : T). is_lt (T.cmp a b)) result.items ≡ true }

    // Each is from the list, and of each value of the list one that is equal to it stays.
    ensures drawn { All (Contains values.items) result.items }
    ensures same_members { (x : T) →
        is_member (eq_by_cmp T.cmp) result.items x ≡ is_member (eq_by_cmp T.cmp) values.items x }
    ensures count { vec_len result ≡ distinct_count (eq_by_cmp T.cmp) values.items }

    // Where equal values are the same, as numbers and days, it holds exactly the list's.
    ensures same_values { IsExact T.cmp → (x : T)
        → Contains result.items x ↔ Contains values.items x }
{
    values.sort_unstable();
    values.dedup();
    values
}
