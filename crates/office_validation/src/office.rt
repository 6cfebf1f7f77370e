//! The office of some lists.
ghost use Rattle.std.specs.Prelude.{◌≡◌};
ghost use Rattle.office_validation.specs.Validation.{office_checked};

use crate::meetings::meetings_of;
use desk_words::OfficeLists;
use std::alloc::Global;

/// The office of some lists, or none where they are no office: the lists themselves, each register
/// put in the order of members first, since a register is a set of rows, which may come in any
/// order. It takes no memory.
pub fn office_checked(alloc: Global, lists: OfficeLists) -> Option<OfficeLists>
    ensures { result ≡ office_checked lists }
{
    let OfficeLists {
        keys,
        closed,
        meetings,
    } = lists;
    let meetings = meetings_of(alloc, meetings)?;
    // These open the values, so that what their types keep is known.
    let _ = keys.as_slice();
    let _ = closed.as_slice();
    Some(OfficeLists {
        keys,
        closed,
        meetings,
    })
}
