//! The persons whom a corporation authorised.
ghost use Rattle.std.specs.Prelude.{◌≡◌, IfOk, filter};
ghost use Rattle.proxy_rules.specs.Parties.{authorised_by, is_authority_of};

use desk_words::{Authority, Filed, Party};
use std::alloc::{AllocError, Global};

/// The authorities that a corporation gave.
fn authorities_of(
    alloc: Global,
    authorities: &Filed<Authority>,
    corporation: Party,
) -> Result<Vec<Authority>, AllocError>
    ensures { IfOk result
        (λ own. own.items ≡ filter (is_authority_of corporation) authorities.now) }
{
    authorities.by_first(alloc, corporation)
}

/// The persons whom a corporation authorised, in order of receipt (section 323). The error is want
/// of memory.
pub fn authorised_by(
    alloc: Global,
    authorities: &Filed<Authority>,
    corporation: Party,
) -> Result<Vec<Party>, AllocError>
    ensures { IfOk result (λ persons. persons.items ≡ authorised_by authorities.now corporation) }
{
    let own = authorities_of(alloc, authorities, corporation)?;
    own.iter().map(|authority| authority.person).collect(alloc)
}
