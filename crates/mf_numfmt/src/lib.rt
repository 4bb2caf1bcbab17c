//! The text of a shown number in a locale's layout.
//!
//! A number of [`mf_decimal`] that is rounded and shown in so many fraction digits gets its sign,
//! its whole digits in groups, and its fraction (Unicode TS 35, Part 3, "Number Formats"; Part 9,
//! the functions `:number` and `:integer`).
#![tactic(auto)]

mod layout;
mod length;
mod number;
mod options;
mod places;
mod writing;

pub use layout::Layout;
pub use number::text;
pub use options::{Grouping, Sign};
