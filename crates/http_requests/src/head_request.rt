//! What a head asks.
ghost use Rattle.std.specs.Prelude.{◌≡◌, ◌≤◌, IfOk};
ghost use Rattle.http_heads.specs.Length.{body_length};
ghost use Rattle.http_heads.specs.declared.length.TheConstants.{LONGEST_BODY};
ghost use Rattle.http_requests.specs.RequestOfHead.{by_method, key_of_head, route_in, size_of, way_in};

use desk_words::{Refusal, SecretKey, read_key};
use http_heads::{BodyLength, HeadReader};
use http_routes::{is_method_of, target_route};
use json_requests::Route;

/// Where a request goes, and how many bytes its body has.
#[derive(Clone, Copy)]
pub(crate) struct Way {
    pub(crate) route: Route,
    pub(crate) size: usize,
}

/// The key, where the head has one field of its name, and the value has the form of a key.
#[tactic(auto, unfolding(crate::specs::RequestOfHead::key_of_head))]
pub(crate) fn key_in(head: &HeadReader) -> Option<SecretKey>
    ensures { result ≡ key_of_head head.now.asked }
{
    let value = head.value_of(b"desk-key")?;
    read_key(value)
}

/// The route, where it has this method.
fn by_method(method: &[u8], route: Route) -> Result<Route, Refusal>
    ensures { result ≡ by_method method.now route }
{
    if is_method_of(method, &route) {
        Ok(route)
    } else {
        Err(Refusal::Method)
    }
}

/// The route that the target names, by its own method.
#[tactic(auto, unfolding(crate::specs::RequestOfHead::route_in))]
fn route_in(head: &HeadReader) -> Result<Route, Refusal>
    ensures { result ≡ route_in head.now.asked }
{
    let route = target_route(head.target()).ok_or(Refusal::Route)?;
    by_method(head.method(), route)
}

/// The size of the body, where it is within its limit.
fn size_in(head: &HeadReader) -> Result<usize, Refusal>
    ensures size { result ≡ size_of (body_length head.now.asked.fields) }
    ensures bound { IfOk result (λ size. size ≤ LONGEST_BODY) }
{
    match head.body_length() {
        BodyLength::Bytes(size) => Ok(size),
        BodyLength::TooLarge => Err(Refusal::TooLarge),
        BodyLength::Unreadable => Err(Refusal::Unreadable),
    }
}

/// Where the request goes, and how many bytes its body has.
#[tactic(auto, unfolding(crate::specs::RequestOfHead::way_in))]
pub(crate) fn way_in(head: &HeadReader) -> Result<Way, Refusal>
    ensures way { result ≡ way_in head.now.asked }
    ensures bound { IfOk result (λ way. way.size ≤ LONGEST_BODY) }
{
    let route = route_in(head)?;
    let size = size_in(head)?;
    Ok(Way { route, size })
}
