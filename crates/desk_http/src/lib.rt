//! One request over HTTP, answered by an office, wherever it is stored: what is replied to what was
//! received, what is left of the office, and what is written.
#![tactic(auto)]

mod answers;
mod now;
mod serve;

pub use answers::{AnswerError, Answered, answer};
pub use http_routes::write_reply;
pub use json_replies::reply_text;
pub use json_requests::{Scratch, request_of};
pub use now::{NowError, serve_now, serve_one};
pub use serve::{ServeFault, reply_to};
