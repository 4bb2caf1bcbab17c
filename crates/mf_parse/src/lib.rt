//! The reading of messages: what a source text spells.
//!
//! [`parse`] answers the one message that a text spells, and `Syntax` exactly where it spells none.
//! The grammar is a relation of `mf_tree` (`Spells`), one case for each production. Source: Unicode
//! TS 35, Part 9, "Message syntax".
#![tactic(auto)]

mod declaration;
mod error;
mod expression;
pub mod laws;
mod markup;
mod matcher;
mod message;
mod pattern;
mod spaces;

pub use error::ParseError;
pub use message::parse;
