//! An input read under caps and answered line by line, each reply written with its line feed.
#![tactic(auto)]

mod buffer;
mod clerk;
pub mod laws;
mod lines;
mod session;

pub use clerk::{Clerk, send_line};
pub use session::answer_input;
