//! What a party may see of a meeting: the public record, and its own things, made from rows.
#![tactic(auto)]

mod given;
mod governed;
mod own_rows;
mod own_view;
mod reads;
mod views;

pub use own_rows::{AuthorityRows, MemberRows, OwnCasts, OwnRows};
pub use own_view::{no_casts_for, own_for, own_from};
pub use reads::{Reads, holds_as_individual, reads_of};
pub use views::{OwnView, PublicRecord};
