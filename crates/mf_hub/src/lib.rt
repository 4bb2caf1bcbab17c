//! Who keeps a log, its newest edition and the plans of its messages: [`Alone`] does for one
//! caller.
#![tactic(auto)]

mod alone;
mod compiling;
mod error;
mod got;
mod hub;
mod pass;
mod planning;
mod stat;
mod store;

pub use alone::Alone;
pub use error::CloseError;
pub use hub::Hub;
pub use pass::{Note, Pass};
pub use stat::Stat;
