//! Ranges of a member's shares that are covered in turn, each with a tag, and which tags cover a
//! place, the newest first.
//!
//! A member may appoint several proxies, each for other shares (section 324(2) of the Act), and may
//! appoint anew for shares that are appointed for. Covered in order of receipt, each range under
//! the number of its appointment, the newest tag of a place tells which appointment is the last for
//! it.
#![tactic(auto)]

mod admitted;
mod blocks;
mod cuts;
pub mod laws;
mod linked;
mod plain;
mod tag;

pub use admitted::Admitted;
pub use blocks::{Blocks, run};
pub use linked::LinkedBlocks;
pub use plain::PlainBlocks;
pub use tag::Tag;
