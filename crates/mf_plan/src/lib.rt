//! What the source of a message compiles to: the message that it spells, or the errors that make it
//! invalid.
//!
//! Source: Unicode TS 35, Part 9, "Syntax Errors" and "Data Model Errors".
#![tactic(auto)]

mod compiling;
pub mod laws;
mod plan;
mod shared;

pub use plan::Plan;
pub use shared::compile;
