//! The connections of the program: each is a caller of one hub, and a line sums them up.
#![tactic(auto)]

mod service;
mod summary;
mod visit;

pub use service::serve_hub;
