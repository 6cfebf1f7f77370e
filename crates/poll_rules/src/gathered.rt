//! Values that are kept by party.
ghost use Rattle.std.specs.Prelude.{◌≡◌, ℕ, List, [], ◌∷◌, ◌++◌, OnOk, if◌then◌else◌};
ghost use Rattle.vocabulary.specs.Names.{same_name};
ghost use Rattle.poll_rules.specs.GatheredItems.{items_at};

use desk_words::Party;
use std::alloc::AllocError;
use std::collections::BTreeMap;

/// Keeps one value more for a party, behind those that it has.
pub(crate) fn add_to<T: Drop>(
    groups: &mut BTreeMap<Party, Vec<T>>,
    party: Party,
    value: T,
) -> Result<(), AllocError>
    ensures { OnOk result
        ((other : List ℕ)
        → items_at groups.new other
        ≡
        (if same_name party other
        then items_at groups.old other ++ value ∷ []
        else items_at groups.old other)) }
{
    groups.entry(party)?.or_default().push(value)?;
    Ok(())
}

/// The values that are kept for a party.
pub(crate) fn items_of<'a, T>(groups: &'a BTreeMap<Party, Vec<T>>, party: Party) -> &'a [T]
    ensures { result.now ≡ items_at groups.now party }
{
    match groups.get(&party) {
        Some(items) => items.as_slice(),
        None => &[],
    }
}
