//! The commands of `mf2d`, a formatting server for Unicode MessageFormat 2.0, over any source and
//! sink.
#![tactic(auto)]

mod command;
mod lint;
mod pipe;
mod shared;

pub use command::{Command, top};
pub use shared::{SharedCommand, top_shared};
