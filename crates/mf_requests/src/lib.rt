//! The requests of lines, read one after the other with memory that is kept.
//!
//! A request for a sentence, which is what most lines are, is read straight from the tokens of its
//! line ([RFC 8259](https://www.rfc-editor.org/rfc/rfc8259)). Every other line is read by way of
//! its JSON value.
#![tactic(auto)]

mod arguments;
mod reader;
mod sentence;
mod unread;

pub use reader::RequestReader;
