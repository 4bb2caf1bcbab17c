//! Connections that are served, each in a thread of its own.
//!
//! A [`Job`] is what is done with a connection. [`serve`] takes connections from a listener, has
//! the job run for each of them in a thread, and says in [`Served`] how the sessions ended. What
//! the job shares among the threads stands in the job, and what one session carries in its token:
//! it comes from home before the session and goes back there.
#![tactic(auto)]

mod connections;
mod crew;
mod job;
mod sessions;
mod tallies;

pub use connections::{Served, serve};
pub use job::Job;
pub use tallies::Tally;
