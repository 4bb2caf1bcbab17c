//! A tally that callers share by turns: what the tests of mf_turn, and its wrong bodies, look at.
#![tactic(auto)]

mod calls;
mod crowd;
mod tally;

pub use calls::{add, enter, leave, publish};
pub use crowd::{
    add_many, add_together, count_twice, gather, publish_and_watch, publish_many, shadows, watch,
};
pub use tally::{Caller, Entry, Tally};

#[cfg(test)]
mod tests;
