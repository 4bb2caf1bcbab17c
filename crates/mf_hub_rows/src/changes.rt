//! Changes to publish.
use mf_edition::{Catalogue, Change};
use mf_locale::{SharedRecord, Tag, read_tag, root};
use std::alloc::{AllocError, Global};

/// A publication of one English message with this id.
pub fn message(alloc: Global, id: &str) -> Result<Change, AllocError> {
    let mut catalogue = Catalogue::new(alloc, english(alloc)?, 1)?;
    catalogue.put(alloc, id, "Hello!")?;
    Ok(Change::Catalogue(catalogue))
}

/// A message with two variants.
const LETTERS: &str = ".input {$n :number} .match $n one {{{$n} letter}} * {{{$n} letters}}";

/// A publication of so many English messages, with the ids `m-0`, `m-1` and so on.
pub fn messages(alloc: Global, count: u32) -> Result<Change, AllocError> {
    let mut catalogue = Catalogue::new(alloc, english(alloc)?, count as usize)?;
    for number in 0..count {
        let id = format!(in alloc; "m-{number}")?;
        catalogue.put(alloc, id.as_str(), LETTERS)?;
    }
    Ok(Change::Catalogue(catalogue))
}

/// A publication of a locale record that counts for one byte more than a log may hold.
pub fn too_large(alloc: Global) -> Result<Change, AllocError> {
    let place = SharedRecord::new(alloc, root(alloc)?)?;
    Ok(Change::Locale {
        tag: english(alloc)?,
        place,
        size: 268_435_457,
    })
}

fn english(alloc: Global) -> Result<Tag, AllocError> {
    read_tag(alloc, "en").map_err(|_| AllocError)
}
