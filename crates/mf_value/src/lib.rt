//! Values of a message's expressions, and what a set of functions is.
//!
//! A [`Value`] is what an expression comes to: a text, a number with the options that it keeps, or
//! a fallback. A set of functions is whatever implements [`Functions`]. Source: Unicode TS 35, Part
//! 9, "Formatting" and "Default Functions".
#![tactic(auto)]

mod built_in;
mod called;
mod content;
mod entries;
mod functions;
mod given;
mod handler;
mod kept;
mod no_options;
mod number_option;
mod option_text;
mod value;

pub use built_in::BuiltIn;
pub use called::{CallFault, CallFaults, Called, Ranked};
pub use content::{Content, Selects};
pub use entries::Entries;
pub use functions::Functions;
pub use given::{Given, Options};
pub use handler::{DefError, HandlerDef};
pub use kept::Kept;
pub use number_option::{NumberFunction, NumberOption};
pub use value::Value;
