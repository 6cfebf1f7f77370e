//! Calls as requests over HTTP.
use http_routes::{method_of, target_route};
use std::alloc::{AllocError, Global};

/// The key of whoever makes the call.
pub const KEY: &str = "the-key-of-a-caller";

/// The request over HTTP that a line of a replay asks, where its verb has a method.
pub fn request_text(alloc: Global, line: &str) -> Result<Option<String>, AllocError> {
    let mut parts = line.splitn(5, ' ').skip(2);
    let (Some(meeting), Some(verb)) = (parts.next(), parts.next()) else {
        return Ok(None);
    };
    let body = parts.next().unwrap_or("");
    let target = format!(in alloc; "/m/{meeting}/{verb}")?;
    let Some(route) = target_route(target.as_bytes()) else {
        return Ok(None);
    };
    let method = method_of(&route);
    let head = format!(in alloc; "{method} {target} HTTP/1.1\nDesk-Key: {KEY}")?;
    let text = format!(in alloc; "{head}\nContent-Length: {}\n\n{body}", body.len())?;
    Ok(Some(text))
}

/// The key file by which the caller of a line has the key, and nobody else one.
pub(crate) fn key_file(alloc: Global, line: &str) -> Result<String, AllocError> {
    let caller = line.split(' ').nth(1).unwrap_or("");
    format!(in alloc; "party,key\n{caller},{KEY}\n")
}
