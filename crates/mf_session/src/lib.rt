//! Sessions: lines read from a source, each answered at a desk, and the replies written to a sink.
#![tactic(auto)]

mod alone;
mod calls;
mod checks;
mod desk;
mod format;
pub mod laws;
mod lint;
mod publish;
mod sentences;
mod shared;

pub use alone::session_alone;
pub use checks::reason_against;
pub use desk::refusal;
pub use lint::lint_reply;
pub use shared::session_shared;
