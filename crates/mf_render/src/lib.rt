//! Messages formatted: the parts that a message of an edition has for the arguments of a request,
//! and its errors.
//!
//! Source: Unicode TS 35, Part 9, "Formatting".
#![tactic(auto)]

mod error;
mod functions;
mod message;
mod part;
mod pattern;
mod rendering;

pub use error::RenderError;
pub use functions::EditionFunctions;
pub use message::Formatted;
pub use rendering::render;
