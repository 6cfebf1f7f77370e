//! Places that are kept by key.
ghost use Rattle.std.specs.Prelude.{◌≡◌, ◌-◌, [], ◌∷◌, ◌++◌, length, take, OnOk, OnErr, if◌then◌else◌};
ghost use Rattle.keyed_seq.specs.Positions.{is_equal_key, places_at};

use std::alloc::AllocError;
use std::collections::HashMap;
use std::hash::Hash;

/// Keeps one place more for a key, behind those that it has. With `AllocError`, where no memory is
/// left for it, each key has the places that it had.
fn file<K: Eq + Hash + Drop>(
    filed: &mut HashMap<K, Vec<usize>>,
    key: K,
    place: usize,
) -> Result<(), AllocError>
    ensures ok { OnOk result
        ((wanted : K)
        → places_at K.eq filed.new wanted
        ≡ places_at K.eq filed.old wanted
        ++ (if K.eq key wanted then place ∷ [] else [])) }
    ensures err { OnErr result
        ((wanted : K) → places_at K.eq filed.new wanted ≡ places_at K.eq filed.old wanted) }
{
    filed.entry(key)?.or_default().push(place)?;
    Ok(())
}

/// Takes back the last place that was kept for a key.
fn take_back<K: Eq + Hash + Copy>(filed: &mut HashMap<K, Vec<usize>>, key: K)
    ensures { (wanted : K)
        → places_at K.eq filed.new wanted
        ≡
        (if K.eq key wanted
        then take (length (places_at K.eq filed.old wanted) - 1)
        (places_at K.eq filed.old wanted)
        else places_at K.eq filed.old wanted) }
{
    if let Some(places) = filed.get_mut(&key) {
        let _ = places.pop();
    }
}

/// Keeps one place more for a first key, and for a second one where there is one. With
/// `AllocError`, where no memory is left for it, each key has the places that it had.
pub(crate) fn file_under<K: Eq + Hash + Copy>(
    by_first: &mut HashMap<K, Vec<usize>>,
    by_second: &mut HashMap<K, Vec<usize>>,
    first: K,
    second: Option<K>,
    place: usize,
) -> Result<(), AllocError>
    ensures first { OnOk result
        ((wanted : K)
        → places_at K.eq by_first.new wanted
        ≡ places_at K.eq by_first.old wanted
        ++ (if K.eq first wanted then place ∷ [] else [])) }
    ensures second { OnOk result
        ((wanted : K)
        → places_at K.eq by_second.new wanted
        ≡ places_at K.eq by_second.old wanted
        ++ (if is_equal_key K.eq second wanted then place ∷ [] else [])) }
    ensures err { OnErr result
        ((wanted : K) → places_at K.eq by_first.new wanted ≡ places_at K.eq by_first.old wanted) }
    ensures err_second { OnErr result
        ((wanted : K)
        → places_at K.eq by_second.new wanted ≡ places_at K.eq by_second.old wanted) }
{
    file(by_first, first, place)?;
    if let Some(second) = second
        && let Err(error) = file(by_second, second, place)
    {
        take_back(by_first, first);
        return Err(error);
    }
    Ok(())
}

/// The places that are kept for a key.
pub(crate) fn places_of<K: Eq + Hash + Copy>(filed: &HashMap<K, Vec<usize>>, key: K) -> &[usize]
    ensures { result.now ≡ places_at K.eq filed.now key }
{
    match filed.get(&key) {
        Some(places) => places.as_slice(),
        None => &[],
    }
}
