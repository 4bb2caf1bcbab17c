//! The log of changes, and the editions of the messages, locale records and handlers that it makes.
#![tactic(auto)]

mod catalogue;
mod change;
mod edition;
mod error;
mod handler;
mod handlers;
mod item;
mod laws;
mod log;
mod order;
mod publications;
mod record;
mod size;

pub use catalogue::Catalogue;
pub use change::{Change, Entry};
pub use edition::Edition;
pub use error::{PublishError, Refusal};
pub use handler::{Handler, SharedHandler};
pub use item::{Found, Item};
pub use laws::{
    changes_are_bounded, editions_are_numbered, editions_follow, editions_have_distinct_names,
    editions_stay, equality_is_exact, handlers_are_by_name, longer_logs_use_more, newest_is_last,
    records_are_by_tag,
};
pub use log::Log;
pub use publications::Publications;
