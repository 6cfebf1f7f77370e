//! What stands at the front of an input.

/// The most bytes that a head has.
pub const LONGEST_HEAD: usize = 8_192;

/// The most fields that a head has.
pub const MOST_FIELDS: usize = 32;

/// What stands at the front of an input.
#[derive(Clone, Copy, Debug, PartialEq, Eq)]
pub enum Front {
    /// A head of at most 8,192 bytes and 32 fields.
    Whole,
    /// A head of more fields, or 8,192 bytes that are no head and can still become one.
    TooLarge,
    /// Bytes that never become a head, or fewer than 8,192 bytes that are none.
    Unreadable,
}
