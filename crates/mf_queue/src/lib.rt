//! A value in a slot, which callers take in turn, each in the order of the place that it drew.
#![tactic(auto)]

mod parts;
mod queue;
mod rule;
mod steps;

pub use parts::{Item, Knowledge, Place, Stage};
pub use queue::Queue;
pub use rule::{Giving, Learning, QueueRule, Raising};
