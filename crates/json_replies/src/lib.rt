//! The JSON texts of replies.
#![tactic(auto)]

mod appointment;
mod failure;
mod last_notice;
pub mod laws;
mod mine;
mod notice;
mod received;
mod reply;
mod shown;

pub use desk_words::{Failure, Reply};
pub use failure::failure_text;
pub use last_notice::LastNotice;
pub use reply::{ReplyText, reply_text, reply_text_by, reply_text_in};
