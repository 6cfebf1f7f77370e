//! The steps of a case that ask a desk: one over a database in memory, beside a book and a desk that
//! is asked over HTTP, and one in two files that stop. They are written over the traits of these
//! two, so that they stand beside the store.
#![tactic(auto)]

mod asked;
mod asking;
mod beside;
mod desk_files;
mod desks;
mod devices;
mod memory_desk;
mod office_calls;
mod printed;
mod reads;
mod replies;
mod run;
mod served;
mod stops;
mod trial;

pub use asked::{Asked, Outcome, failure_word, word};
pub use asking::ask_office;
pub use desk_files::{DeskFiles, Stop};
pub use devices::Request;
pub use memory_desk::MemoryDesk;
pub use office_calls::{caller_of, load, perform, serve};
pub use reads::{Asker, is_given};
pub use replies::replies_of;
pub use run::run_case;
