//! What a store that fails says.
use desk_words::Failure;
use json_replies::failure_text;

#[test]
fn a_failure_has_a_text(rt: HostRuntime) {
    assert!(rt; failure_text(Failure::Store) == r#"{"failed":"Store"}"#);
}
