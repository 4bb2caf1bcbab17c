//! Decimal numbers: read from a text, rounded to the digits that are shown, cut to a whole number,
//! written exactly.
//!
//! A [`Decimal`] is what a message computes with, a [`Shown`] is what it shows: a number with its
//! fraction digits, the trailing zeros among them. No floating point is read or written.
#![tactic(auto)]

mod decimal;
mod exact;
mod laws;
mod parts;
mod powers;
mod reading;
mod rounding;
mod shown;
mod significand;
mod whole;

pub use decimal::Decimal;
pub use laws::{has_one_decimal, is_not_both, is_read_back, rounds_to_one};
pub use reading::{NumberError, read};
pub use shown::{Digits, Shown};
pub use whole::{of_i64, of_u64};
