//! The methods of routes (RFC 9110, section 9).
ghost use Rattle.std.specs.Prelude.{◌≡◌};
ghost use Rattle.http_routes.specs.Methods.{method_of, is_method_of};

use json_requests::{PartyVerb, Route};

/// The method of a route: `GET` for what only reads, and `POST` for all else.
pub fn method_of(route: &Route) -> &'static str
    ensures { result.now ≡ method_of route.now }
{
    match route {
        Route::Party {
            verb: PartyVerb::Notice | PartyVerb::Mine,
            ..
        } => "GET",
        _ => "POST",
    }
}

/// Whether the method is the route's, letter for letter: `get` is no `GET`.
pub fn is_method_of(method: &[u8], route: &Route) -> bool
    ensures { result ≡ is_method_of method.now route.now }
{
    method == method_of(route).as_bytes()
}
