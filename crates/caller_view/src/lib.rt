//! The reply to a party, from what it may see of a meeting.
#![tactic(auto)]

mod answers;
mod appointments;
mod attendance;
mod casts;
mod notices;
mod rights;

pub use answers::{answer, answer_notice};
pub use party_views::{
    AuthorityRows, MemberRows, OwnRows, OwnView, PublicRecord, Reads, own_for, own_from, reads_of,
};
