ghost use Rattle.std.specs.Prelude.{◌≡◌, ◌≤◌, length};
ghost use Rattle.mf_edition.specs.Sizes.{catalogue_size};

use crate::size::handler_size;
use crate::{Catalogue, SharedHandler};
use mf_locale::{SharedRecord, Tag};

/// The bytes that each change counts for beside its texts.
pub(crate) const OVERHEAD: u64 = 64;

/// What a publication changes.
#[derive(Debug, PartialEq, Eq, Drop)]
pub enum Change {
    /// The messages of one tag.
    Catalogue(Catalogue),
    /// The record of one tag. Its size is in bytes: 64, and those of the tag and of the texts that
    /// the record was read from. A size below 64 counts as 64.
    Locale {
        tag: Tag,
        place: SharedRecord,
        size: u64,
    },
    /// The handler of its name.
    Handler(SharedHandler),
}

impl Change {
    ghost use Rattle.std.specs.Prelude.{◌≡◌, ◌≤◌};
    ghost use Rattle.mf_edition.specs.Edition.{message_count};
    ghost use Rattle.mf_edition.specs.Sizes.{size_of};

    /// The bytes that it counts for in a log: 64, and those of its texts in UTF-8, at most 2^64 - 1
    /// together. They are no fewer than its messages.
    pub fn size(&self) -> u64
        ensures size { result ≡ size_of self.now }
        ensures counted { message_count self.now ≤ result }
    {
        match self {
            Change::Catalogue(catalogue) => catalogue_size(catalogue),
            Change::Locale { size, .. } => (*size).max(OVERHEAD),
            Change::Handler(handler) => handler_size(handler.as_handler()),
        }
    }
}

/// The size of a catalogue.
fn catalogue_size(catalogue: &Catalogue) -> u64
    ensures size { result ≡ catalogue_size catalogue.now }
    ensures counted { length catalogue.now.messages ≤ result }
{
    let tag = catalogue.tag().as_text().as_str();
    let mut size = OVERHEAD.saturating_add(tag.len() as u64);
    for item in catalogue.items().as_slice() {
        size = size.saturating_add(item.id().len() as u64);
        size = size.saturating_add(item.source().len() as u64);
    }
    size
}

/// A change that was accepted.
#[derive(Debug, PartialEq, Eq, Drop)]
pub struct Entry {
    /// The number of the caller that made it.
    pub caller: u64,
    /// That caller's number for it, from 1.
    pub nth: u64,
    pub change: Change,
}
