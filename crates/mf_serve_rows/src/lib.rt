//! A job that sends back what it is sent, and connections in memory: what the tests of mf_serve
//! look at.
#![tactic(auto)]

mod echo;
mod gates;
mod in_turn;
mod peers;
mod sockets;

pub use echo::{Echo, Visit};
pub use gates::HoldsFirst;
pub use in_turn::InTurn;
pub use peers::{Peer, sink, source};
pub use sockets::{ask, free_address};

#[cfg(test)]
mod tests;
