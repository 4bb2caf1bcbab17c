//! The canonical source of a message: the one text that is printed for a node.
//!
//! What is printed spells the node again, with no space that isn't needed, no quotes that aren't
//! needed, and no more escapes than are needed. Source: Unicode TS 35, Part 9, "Message syntax";
//! the choice among the texts of a node is this project's own.
#![tactic(auto)]

mod expression;
pub mod laws;
mod literal;
mod message;
mod pattern;

pub use literal::push_quoted;
pub use message::print;
