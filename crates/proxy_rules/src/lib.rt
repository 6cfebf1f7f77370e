//! The rules of proxies: until when appointments and endings count, and which appointment governs a
//! share; and the persons whom a corporation authorised.
#![tactic(auto)]

mod alone;
mod authorities;
mod claims;
mod cutoff;
mod governor;
mod holdings;
mod instructions;
pub mod laws;
mod meeting_records;
mod pieces;
mod register_rows;
mod runs;

pub use authorities::authorised_by;
pub use claims::{Claim, Claims, claims_in};
pub use cutoff::{Use, cutoffs, is_late_poll};
pub use governor::governing;
pub use holdings::{Holding, given_by};
pub use instructions::{allows, instructed_on};
pub use meeting_records::{Cutoffs, Papers};
pub use pieces::{GovernedPiece, held};
pub use register_rows::{find_row, shares};
pub use runs::governed;
