//! A connection.

/// A connection that was taken: what its peer sends, and what it is sent.
#[derive(Drop)]
pub struct Connection<R, W> {
    pub reader: R,
    pub writer: W,
}
