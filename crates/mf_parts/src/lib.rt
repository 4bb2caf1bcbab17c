//! The parts of a formatted message, and how they make its text.
//!
//! Unicode TS 35, Part 9: "Formatting to parts" and "Handling bidirectional text".
#![tactic(auto)]

mod isolation;
mod part;
mod text;

pub use isolation::{isolate, push_isolated};
pub use part::{Part, Parts};
pub use text::{joined, joined_len};
