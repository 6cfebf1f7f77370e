//! The desk of one company over its tables, with a cache: callers and public records are read once,
//! until they change. It is the office that the program serves.
#![tactic(auto)]

mod cache;
mod caching;
mod declared;
mod office;

pub use caching::CachingDesk;
