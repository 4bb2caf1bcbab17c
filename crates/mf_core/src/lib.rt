//! Callers that publish, pin, compile and leave: the core of a server of several callers, event by
//! event.
#![tactic(auto)]

mod board;
mod caller;
mod callers;
mod error;
mod event;
mod held;
pub mod laws;
mod running;
pub mod scripts;
mod tickets;
mod world;

pub use board::Board;
pub use caller::CallerState;
pub use error::CoreError;
pub use event::{Event, Told};
pub use running::step;
pub use world::World;
