//! The handlers of an edition: functions under other names, with options that they are given
//! beforehand; the same between a prefix and a suffix; and tables of texts.
//!
//! A handler is a record, and no code that is loaded. Source: Unicode TS 35, Part 9, "Function
//! Handler", for what a call takes and gives.
#![tactic(auto)]

mod call;
mod check;

pub use call::call_handler;
pub use check::check_def;
