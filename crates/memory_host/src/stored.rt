//! What is in a file for an office.
use crate::open_book::OpenBook;

/// What is in the file of that name: nothing, an office, or one that is open.
#[derive(Drop)]
pub enum Stored {
    Nothing,
    Office(OpenBook),
    Opened,
}
