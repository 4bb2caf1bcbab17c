//! A source linted: its canonical form, or the errors that make it invalid; and what holds of
//! canonical sources.
#![tactic(auto)]

pub mod laws;
mod linting;

pub use linting::{Linted, lint};
