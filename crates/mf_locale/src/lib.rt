//! Language tags, the chains of tags in which messages and locale records are looked up, and locale
//! records, read from JSON.
#![tactic(auto)]

mod default;
mod error;
mod field;
mod fields;
mod lookup;
mod reading;
mod record;
mod shape;
mod shared;
mod size;
mod tag;

pub use default::root;
pub use error::LocaleError;
pub use field::RecordField;
pub use lookup::{Tags, chain, next_in_chain};
pub use reading::read_record;
pub use record::LocaleRecord;
pub use shared::SharedRecord;
pub use tag::{Tag, read_tag};
