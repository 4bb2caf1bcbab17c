//! A log and its callers, shared by turns: what each caller has seen, made, pinned and claimed.
#![tactic(auto)]

mod act;
mod shared;
mod steps;
mod turn;
mod view;

pub use act::Act;
pub use shared::Shared;
pub use turn::{Seat, Turn};
pub use view::{Ended, View};
