//! The texts of replies.
use byte_io::VecSink;
use desk_words::{Failure, Refusal, Reply};
use http_routes::{StatusCode, failure_reply, is_method_of, status_of, target_route, write_reply};

const REFUSED: &str =
    "HTTP/1.1 401 Unauthorized\r\nContent-Type: application/json\r\nContent-Length: 26\r\n\
                       Connection: close\r\n\r\n{\"code\":1,\"refused\":\"Key\"}";

const FAILED: &str = "HTTP/1.1 503 Service Unavailable\r\nContent-Type: application/json\r\n\
                      Content-Length: 19\r\nConnection: close\r\n\r\n{\"failed\":\"Memory\"}";

#[test]
fn a_refusal_is_written(rt: HostRuntime) {
    let status = status_of(&Reply::Refused(Refusal::Key));
    let mut sink = VecSink::new(rt.alloc());
    let written = write_reply(status, b"{\"code\":1,\"refused\":\"Key\"}", &mut sink);
    assert!(rt; written.is_ok());
    assert!(rt; sink.as_slice() == REFUSED.as_bytes());
}

#[test]
fn other_replies_have_their_status(rt: HostRuntime) {
    assert!(rt; status_of(&Reply::Noted) == StatusCode::OK);
    assert!(rt; status_of(&Reply::Refused(Refusal::NotYours)) == StatusCode::CONFLICT);
    assert!(rt; failure_reply(Failure::Memory) == FAILED);
}

/// Whether a target has a route of that method.
fn has_method(target: &[u8], method: &[u8]) -> bool {
    match target_route(target) {
        Some(route) => is_method_of(method, &route),
        None => false,
    }
}

#[test]
fn a_route_has_its_method(rt: HostRuntime) {
    assert!(rt; has_method(b"/m/G1/notice", b"GET"));
    assert!(rt; !has_method(b"/m/G1/notice", b"get"));
}
