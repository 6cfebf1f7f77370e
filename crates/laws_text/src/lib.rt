//! Laws of texts, byte for byte: what holds of the replies in runs of calls holds of the
//! texts that a replay, an office and connections write, wherever the office is stored.
#![tactic(auto)]

mod connections;
mod offices;
mod replays;
mod requests;
mod texts;

pub use connections::{connections_are_answered, connections_show_no_more};
pub use offices::{answer_call, offices_show_no_more, offices_show_runs};
pub use replays::{replays_show_no_more, replays_show_runs};
pub use requests::replies_show_no_more;
pub use texts::texts_show_no_more;
