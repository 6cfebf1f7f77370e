//! What HTTP asks of the desk and how the desk answers it there: routes, methods, statuses and the
//! texts of replies. Nothing here takes memory.
#![tactic(auto)]

pub mod laws;
mod method;
mod reply;
mod status;
mod target;

pub use http::StatusCode;
pub use method::{is_method_of, method_of};
pub use reply::{failure_reply, write_reply};
pub use status::status_of;
pub use target::target_route;
