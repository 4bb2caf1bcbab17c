//! A large run: a script of many requests through a session with one caller, and the line that sums
//! its replies up.
#![tactic(auto)]

mod milling;
mod running;
mod script;
mod summary;
mod tally;

pub use milling::mill;
