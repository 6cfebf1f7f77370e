//! What a head says.
use byte_io::{DeviceError, SliceSource};
use http_heads::{BodyLength, Front, HeadReader};

const HEAD: &str = "POST /m/G1/end HTTP/1.0\nHost: desk\nContent-Length:\t0012 \n\n{\"number\":1}";

#[test]
fn a_head_is_taken_apart(rt: HostRuntime) {
    let mut reader = HeadReader::new();
    let front = reader.read(&mut SliceSource::new(HEAD.as_bytes()));
    assert!(rt; front == Ok(Front::Whole));
    assert!(rt; reader.method() == b"POST".as_slice());
    assert!(rt; reader.target() == b"/m/G1/end".as_slice());
    assert!(rt; reader.value_of(b"HOST") == Some(b"desk".as_slice()));
    assert!(rt; reader.body_length() == BodyLength::Bytes(12));
    assert!(rt; reader.rest() == b"{\"number\":1}".as_slice());
}

/// The most bytes in which a head is looked for.
const LONGEST: usize = 8_192;

/// A method, and a target that goes on past the longest head, of bytes that are no UTF-8.
fn endless_target() -> [u8; LONGEST + 1] {
    let mut bytes = [0xff; LONGEST + 1];
    bytes[..5].copy_from_slice(b"GET /");
    bytes
}

/// The front of the first bytes of an endless target, so many.
fn front_of(count: usize) -> Result<Front, DeviceError> {
    let input = endless_target();
    let first = &input[..count.min(LONGEST + 1)];
    HeadReader::new().read(&mut SliceSource::new(first))
}

// A target is read as UTF-8 once it ends. So its first 8,192 bytes, which never become a head, are
// refused as too large; `Unreadable` would be right too. With a byte less they are a head that is
// cut.
#[test]
fn a_target_that_is_no_text_and_has_no_end_is_too_large(rt: HostRuntime) {
    assert!(rt; front_of(LONGEST - 1) == Ok(Front::Unreadable));
    assert!(rt; front_of(LONGEST) == Ok(Front::TooLarge));
    assert!(rt; front_of(LONGEST + 1) == Ok(Front::TooLarge));
}
