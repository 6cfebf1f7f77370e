//! Targets of requests, and the routes that they name.
ghost use Rattle.std.specs.Prelude.{◌≡◌, ◌<◌, length, position, option_map, IfSome};
ghost use Rattle.http_routes.specs.Targets.{behind_root, is_slash, at_first_slash, served, target_route};

use json_requests::{OfficeVerb, Route, route_of};

/// What stands behind `/m/`, which each target begins with.
fn behind_root(target: &[u8]) -> Option<&[u8]>
    ensures { option_map (λ rest. rest.now) result ≡ behind_root target.now }
{
    target.strip_prefix(b"/m/")
}

/// The place of the first slash.
fn first_slash(bytes: &[u8]) -> Option<usize>
    ensures first { result ≡ position is_slash bytes.now }
    ensures bound { IfSome result (λ place. place < length bytes.now) }
{
    bytes.iter().position(|byte| *byte == b'/')
}

/// What stands before the first slash, and what stands behind it.
fn parted(bytes: &[u8]) -> Option<(&[u8], &[u8])>
    ensures { option_map (λ parts. (parts.0.now, parts.1.now)) result ≡ at_first_slash bytes.now }
{
    let slash = first_slash(bytes)?;
    Some((&bytes[..slash], &bytes[slash + 1..]))
}

/// The route, if it is one over HTTP. Registers, closed days and keys are not loaded there.
fn served(route: Route) -> Option<Route>
    ensures { result ≡ served route }
{
    match route {
        Route::Closed
        | Route::Keys
        | Route::Office {
            verb: OfficeVerb::Register,
            ..
        } => None,
        _ => Some(route),
    }
}

/// The route that a target names, which is `/m/`, a meeting, a slash and a verb.
///
/// The target is matched whole, and no escape is decoded. There is no route for any other verb,
/// for `register`, `closed` and `keys`, and for a meeting that no meeting can have as its name.
#[tactic(auto, using(crate::proofs::VerbLemmas::no_route), unfolding(crate::specs::Targets::target_route))]
pub fn target_route(target: &[u8]) -> Option<Route>
    ensures { result ≡ target_route target.now }
{
    let rest = behind_root(target)?;
    let (meeting, verb) = parted(rest)?;
    match str::from_utf8(verb) {
        Ok(verb) => served(route_of(meeting, verb)?),
        Err(_) => None,
    }
}
