//! Devices of which one call fails, and the requests over HTTP that come by them.
use byte_io::{DeviceError, Sink};
use std::alloc::{AllocError, Global};

/// A sink that takes one byte a write.
#[derive(Drop)]
pub(crate) struct ByteByByte<W> {
    pub inner: W,
}

impl<W: Sink> Sink for ByteByByte<W> {
    ghost contents = { λ s. W.contents s.inner };

    ghost failures = { λ s. W.failures s.inner };

    fn write(&mut self, bytes: &[u8]) -> Result<usize, DeviceError> {
        let count = bytes.len().min(1);
        self.inner.write(&bytes[..count])
    }
}

/// A request that comes at a moment, byte by byte, and whose reply is taken byte by byte.
#[derive(Clone, Copy)]
pub struct Request<'a> {
    pub(crate) moment: &'a str,
    pub(crate) text: &'a [u8],
    /// The number of the read that fails, counted from 1, or 0 where none does.
    pub(crate) read: u64,
    /// The number of the write that fails.
    pub(crate) write: u64,
}

/// The text of the request that words ask: a method, a target, a key and, where there is one, a
/// body.
pub(crate) fn request_text(alloc: Global, words: &str) -> Result<String, AllocError> {
    let mut parts = words.splitn(4, ' ');
    let (method, target) = (parts.next().unwrap_or(""), parts.next().unwrap_or(""));
    let (key, body) = (parts.next().unwrap_or(""), parts.next().unwrap_or(""));
    let head = format!(in alloc; "{method} {target} HTTP/1.1\r\nDesk-Key: {key}")?;
    format!(in alloc; "{head}\r\nContent-Length: {}\r\n\r\n{body}", body.len())
}

/// What was written, and before it the word of a fault, if there is one.
pub(crate) fn served_text(
    alloc: Global,
    word: &str,
    written: &[u8],
) -> Result<Vec<u8>, AllocError> {
    let mut text = Vec::new(alloc);
    text.extend_from_slice(word.as_bytes())?;
    text.extend_from_slice(written)?;
    Ok(text)
}
