//! Scripted callers of one hub, each in a thread of its own, and what they sent and got.
#![tactic(auto)]

pub mod laws;
mod leaving;
mod playing;
mod printing;
mod reading;
mod rehearsal;
mod script;

pub use rehearsal::rehearse;
