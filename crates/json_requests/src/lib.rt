//! Requests, read from a meeting, a verb and a body.
//!
//! The meeting and the verb name a route, which is decided before the body is read. The body is a
//! JSON object with exactly the fields that the verb asks for. A missing or a further field, a
//! field of another type, a word that is not listed, a name, a text, a day or a moment without its
//! form, and a list or a number outside its limits make the body unreadable. Numbers are whole,
//! with no sign, fraction or exponent, and below 2^64.
#![tactic(auto)]

mod appointment;
mod ask;
mod body;
mod call;
mod closed;
mod fields;
mod keys;
pub mod laws;
mod number;
mod place;
mod plain;
mod poll;
mod presence;
mod register;
mod request;
mod route;
mod value;
mod verb;

pub use ask::Ask;
pub use json::Scratch;
pub use request::request_of;
pub use route::{Route, route_of};
pub use verb::{OfficeVerb, PartyVerb, Verb};
