//! The checks of a message: what makes it invalid. Source: Unicode TS 35, Part 9, "Data Model
//! Errors".
#![tactic(auto)]

mod check;
mod declarations;
mod fallback;
mod options;
mod selectors;
mod shown;
mod variants;

pub use check::faults;
