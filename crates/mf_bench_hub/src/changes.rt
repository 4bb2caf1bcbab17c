//! Changes to publish.
use mf_edition::{Catalogue, Change};
use mf_locale::read_tag;
use std::alloc::{AllocError, Global};

/// A publication of the messages from one number on up to another.
pub fn messages(alloc: Global, from: u32, to: u32) -> Result<Change, AllocError> {
    let tag = read_tag(alloc, "en").map_err(|_| AllocError)?;
    let mut catalogue = Catalogue::new(alloc, tag, to.saturating_sub(from) as usize)?;
    for number in from..to {
        let id = format!(in alloc; "message-{number}")?;
        catalogue.put(alloc, id.as_str(), "Hello {$name}!")?;
    }
    Ok(Change::Catalogue(catalogue))
}
