ghost use Rattle.std.specs.Prelude.{◌≡◌, ◌∷◌, IfOk};
ghost use Rattle.std.specs.Option.{option_copied};
ghost use Rattle.mf_locale.specs.Chain.{chain_of, each_chain};

use crate::Tag;
use mf_text::List;
use std::alloc::{AllocError, Global};

/// A list of tags.
pub type Tags = List<Tag>;

/// The tags in which something of a tag is looked up, in this order: the tag, the tag with its last
/// subtag dropped, and so on, then `und` where it isn't the last one already (RFC 4647, section
/// 3.4).
pub fn chain(alloc: Global, tag: &Tag) -> Result<Tags, AllocError>
    ensures { IfOk result (λ tags. tags ≡ chain_of tag.now) }
{
    let mut tags = Tags::new(alloc);
    let mut last = tag.clone()?;
    while let Some(shorter) = last.shorter(alloc)? {
        tags.push(last)?;
        last = shorter;
    }
    let is_und = last.as_text().as_str() == "und";
    tags.push(last)?;
    if !is_und {
        tags.push(Tag::und(alloc)?)?;
    }
    Ok(tags)
}

/// The text of the tag that is looked up after the one of this text: what stands before its last
/// hyphen, `und` behind a text without one, and none behind `und`. So a tag's chain is walked
/// without memory, from the tag's own text on.
/// See DECISIONS 54.
pub fn next_in_chain(tag: &str) -> Option<&str>
    ensures { chain_of tag.now ≡ tag.now ∷ each_chain (option_copied result) }
{
    match tag.rfind('-') {
        Some(hyphen) => Some(&tag[..hyphen]),
        None if tag == "und" => None,
        None => Some("und"),
    }
}
