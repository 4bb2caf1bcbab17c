//! Tags and their chains.
use crate::rules::push_word;
use mf_locale::{LocaleError, Tag, chain, next_in_chain, read_tag};
use std::alloc::{AllocError, Global};

/// A tag's chain, or why a text is no tag.
pub fn answer(alloc: Global, asked: &str) -> Result<String, AllocError> {
    match read_tag(alloc, asked) {
        Ok(tag) => told(alloc, &tag),
        Err(LocaleError::OutOfMemory) => Err(AllocError),
        Err(error) => format!(in alloc; "{error}"),
    }
}

/// The chain of a tag, and how it is walked where that differs.
fn told(alloc: Global, tag: &Tag) -> Result<String, AllocError> {
    let mut tags = String::new(alloc);
    for tag in chain(alloc, tag)?.as_slice() {
        push_word(&mut tags, tag.as_text().as_str())?;
    }
    let walked = walked(alloc, tag.as_text().as_str())?;
    if walked != tags {
        return format!(in alloc; "{tags}, walked as {walked}");
    }
    Ok(tags)
}

/// The tags of a chain, one after the other.
fn walked(alloc: Global, tag: &str) -> Result<String, AllocError> {
    let mut tags = String::from_str(alloc, tag)?;
    let mut last = tag;
    for _ in 0..tag.len().saturating_add(1) {
        let Some(next) = next_in_chain(last) else {
            break;
        };
        push_word(&mut tags, next)?;
        last = next;
    }
    Ok(tags)
}
