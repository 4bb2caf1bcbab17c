//! The lines of the server: requests read, replies written.
//!
//! A request is a line of JSON ([RFC 8259](https://www.rfc-editor.org/rfc/rfc8259)), and each
//! request gets one line of compact JSON, the keys of every object in byte order.
#![tactic(auto)]

mod accepted;
mod field;
mod fields;
mod handler;
mod laws;
mod lines;
mod part;
mod reading;
mod reply;
mod request;
mod row;
mod size;
mod writing;

pub use accepted::Accepted;
pub use field::Field;
pub use laws::identifiers_are_of_the_grammar;
pub use lines::first_line;
pub use reading::WireError;
pub use reply::{MEMORY_LINE, Op, Reason, Reply, reply_line};
pub use request::{Request, read_request};
