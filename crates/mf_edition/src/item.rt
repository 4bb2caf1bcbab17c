ghost use Rattle.std.specs.Prelude.{◌≡◌, IfOk, chars, encode_utf8_all};
ghost use Rattle.mf_edition.specs.Order.{name_cmp, name_of};
ghost use Rattle.mf_text.specs.Order.{byte_cmp};

use mf_locale::Tag;
use std::alloc::{AllocError, Global};
use std::cmp::Ordering;
use std::marker::Model;

/// A message of an edition: its tag, its id and its source, which stand in one text, one after the
/// other.
/// See DECISIONS 78.
#[derive(Debug, Drop)]
pub struct Item {
    text: String,
    tag_end: u32,
    id_end: u32,
}

impl Model for Item {
    ghost use Rattle.std.specs.Prelude.{string_bytes};
    ghost use Rattle.mf_edition.specs.Items.{Item as Known, item_in, AreEnds};

    ghost Value = { Known };

    ghost view = { λ i. item_in (string_bytes i.text) i.tag_end i.id_end };

    ghost invariant = { λ i. AreEnds (string_bytes i.text) i.tag_end i.id_end };
}

impl Item {
    /// The message of a tag and an id with this source. A tag and an id of 4 GiB or more find no
    /// memory.
    pub fn new(alloc: Global, tag: &Tag, id: &str, source: &str) -> Result<Item, AllocError>
        ensures { IfOk result (λ item. item
            ≡ record { tag = tag.now; id = chars id.now; source = chars source.now }) }
    {
        let tag = tag.as_text().as_str();
        let len = tag.len().saturating_add(id.len());
        let mut text = String::with_capacity(alloc, len.saturating_add(source.len()))?;
        text.push_str(tag)?;
        let tag_end = short_len(text.len())?;
        text.push_str(id)?;
        let id_end = short_len(text.len())?;
        text.push_str(source)?;
        Ok(Item {
            text,
            tag_end,
            id_end,
        })
    }

    /// Its tag, in lower case.
    pub fn tag(&self) -> &str
        ensures characters { chars result.now ≡ self.now.tag }
        ensures bytes { result.now ≡ encode_utf8_all self.now.tag }
    {
        &self.text[..self.tag_end as usize]
    }

    /// Its id.
    pub fn id(&self) -> &str
        ensures characters { chars result.now ≡ self.now.id }
        ensures bytes { result.now ≡ encode_utf8_all self.now.id }
    {
        &self.text[self.tag_end as usize..self.id_end as usize]
    }

    /// Its source.
    pub fn source(&self) -> &str
        ensures characters { chars result.now ≡ self.now.source }
        ensures bytes { result.now ≡ encode_utf8_all self.now.source }
    {
        &self.text[self.id_end as usize..]
    }
}

/// Two are equal where their tags, their ids and their sources are.
impl PartialEq for Item {
    ghost use Rattle.std.proofs.Common.{rules};
    ghost use Rattle.std.specs.Cmp.Rules.{comparing};
    ghost use Rattle.mf_edition.specs.Items.{item_eq};

    ghost eq = { item_eq };

    ghost laws = { Prim.search (comparing, rules) };

    fn eq(&self, other: &Item) -> bool {
        self.tag() == other.tag() && self.id() == other.id() && self.source() == other.source()
    }
}

impl Eq for Item {
    ghost use Rattle.std.proofs.Common.{rules};
    ghost use Rattle.std.specs.Cmp.Rules.{comparing};

    ghost laws = { Prim.search (comparing, rules) };
}

/// A message that was found: the tag that has it, and its index in the edition.
#[derive(Debug, Drop)]
pub struct Found {
    pub tag: Tag,
    pub index: u32,
}

/// A length of a text, if 32 bits hold it.
fn short_len(len: usize) -> Result<u32, AllocError>
    ensures { IfOk result (λ short. short ≡ len) }
{
    match u32::try_from(len) {
        Ok(short) => Ok(short),
        Err(_) => Err(AllocError),
    }
}

/// How an item compares with a tag and an id.
pub fn compare_names(item: &Item, tag: &str, id: &str) -> Ordering
    ensures { result ≡ name_cmp (name_of item.now) (chars tag.now, chars id.now) }
{
    compare(item.tag(), tag).then_with(|| compare_id(item, id))
}

/// How the id of an item compares with a text.
pub fn compare_id(item: &Item, id: &str) -> Ordering
    ensures { result ≡ byte_cmp item.now.id (chars id.now) }
{
    compare(item.id(), id)
}

/// How two texts compare by their bytes.
fn compare(text: &str, other: &str) -> Ordering
    ensures { result ≡ byte_cmp (chars text.now) (chars other.now) }
{
    text.cmp(other)
}
