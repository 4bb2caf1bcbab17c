//! Which messages of which editions are being compiled, and by whom.
#![tactic(auto)]

mod flights;
mod sheet;
mod slot;
mod ticket;

pub use flights::{Asked, Flights};
pub use slot::{Slot, State};
pub use ticket::{Spent, Ticket};
