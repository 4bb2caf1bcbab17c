//! Selection: which variant of a message is formatted.
//!
//! Each selector is resolved once, each key is ranked once, and the variant whose ranks are least
//! is chosen. Source: Unicode TS 35, Part 9, "Pattern Selection".
#![tactic(auto)]

mod choosing;
mod keys;
pub mod laws;
mod ranks;
mod selectors;

pub use choosing::choose;
