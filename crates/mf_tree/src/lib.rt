//! The tree of a message: what a source text spells.
//!
//! The nodes are plain enums and structs over lists, and hold what the source says, not how it was
//! written: neither white space nor marks of direction, nor whether a literal was quoted. Source:
//! Unicode TS 35, Part 9, "Message syntax" and "Data model".
#![tactic(auto)]

mod expression;
mod fault;
pub mod laws;
mod message;
mod name;
mod naming;
mod pattern;

pub use expression::{
    Attribute, Attributes, Call, Expression, Operand, OptionNode, OptionNodes, OptionValue,
};
pub use fault::{Fault, Faults, Kind};
pub use message::{Body, Declaration, Declarations, Key, Keys, Message, Variant, Variants};
pub use name::{Identifier, Name, Names};
pub use pattern::{Form, Markup, Pattern, Piece};
