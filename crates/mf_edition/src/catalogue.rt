ghost use Rattle.std.specs.Prelude.{◌≡◌, [], chars, length, IfOk, MatchResult, OnErr, OnOk};
ghost use Rattle.std.specs.Arc.{arc_value};
ghost use Rattle.mf_edition.specs.Catalogues.{catalogue_of, insert_item, with_message};
ghost use Rattle.mf_edition.specs.Catalogues.{AreInIdOrder, IsCatalogue, IsItemAt, IsItemGap};
ghost use Rattle.mf_edition.specs.Items.{item_values};

use crate::Item;
use crate::item::compare_id;
use mf_locale::Tag;
use std::alloc::{AllocError, Global};
use std::marker::Model;
use std::sync::Arc;

/// The messages of a publication, which are of one tag and in the byte order of their ids. The log
/// and the editions share each of them.
#[derive(Debug, Drop)]
pub struct Catalogue {
    tag: Tag,
    items: Vec<Arc<Item>>,
}

impl Model for Catalogue {
    ghost use Rattle.mf_edition.specs.Catalogues.{Catalogue as Known, catalogue_of, IsCatalogue};
    ghost use Rattle.mf_edition.specs.Items.{item_values};

    ghost Value = { Known };

    ghost view = { λ c. catalogue_of c.tag (item_values c.items.items) };

    ghost invariant = { λ c. IsCatalogue c.tag (item_values c.items.items) };
}

impl Catalogue {
    /// A catalogue of no messages with room for this many.
    pub fn new(alloc: Global, tag: Tag, capacity: usize) -> Result<Catalogue, AllocError>
        ensures { IfOk result (λ catalogue. catalogue ≡ record { tag = tag; messages = [] }) }
    {
        let items = Vec::with_capacity(alloc, capacity)?;
        Ok(Catalogue { tag, items })
    }

    /// The tag of its messages.
    pub fn tag(&self) -> &Tag
        ensures { result.now ≡ self.now.tag }
    {
        &self.tag
    }

    /// The number of its messages.
    pub fn len(&self) -> usize
        ensures { result ≡ length self.now.messages }
    {
        self.items.len()
    }

    /// Its messages in the byte order of their ids.
    pub(crate) fn items(&self) -> &Vec<Arc<Item>>
        ensures items { catalogue_of self.now.tag (item_values result.now.items) ≡ self.now }
        ensures catalogue { IsCatalogue self.now.tag (item_values result.now.items) }
    {
        &self.items
    }

    /// Puts a message in. Of two with one id the later one counts.
    pub fn put(&mut self, alloc: Global, id: &str, source: &str) -> Result<(), AllocError>
        ensures ok { OnOk result (self.new
            ≡ with_message self.old (record { name = chars id.now; value = chars source.now })) }
        ensures err { OnErr result (self.new ≡ self.old) }
    {
        let item = Item::new(alloc, &self.tag, id, source)?;
        let item = Arc::new(alloc, item)?;
        insert_item(&mut self.items, item)?;
        Ok(())
    }
}

/// Two are equal where their tags and their messages are.
impl PartialEq for Catalogue {
    ghost use Rattle.std.specs.Cmp.{partial_equiv_from_equiv};
    ghost use Rattle.mf_edition.specs.Catalogues.{catalogue_eq, catalogue_eq_equiv};

    ghost eq = { catalogue_eq };

    ghost laws = { partial_equiv_from_equiv catalogue_eq_equiv };

    fn eq(&self, other: &Catalogue) -> bool {
        self.tag == other.tag && self.items == other.items
    }
}

impl Eq for Catalogue {
    ghost use Rattle.mf_edition.specs.Catalogues.{catalogue_eq_equiv};

    ghost laws = { catalogue_eq_equiv };
}

/// Puts an item in: it takes the place of that of its id, or goes before that of the next higher
/// id. After an error all is as it was.
fn insert_item(items: &mut Vec<Arc<Item>>, item: Arc<Item>) -> Result<(), AllocError>
    requires { IsCatalogue (arc_value item).tag (item_values items.old.items) }
    ensures ok { OnOk result (item_values items.new.items
        ≡ insert_item (arc_value item) (item_values items.old.items)) }
    ensures catalogue { IsCatalogue (arc_value item).tag (item_values items.new.items) }
    ensures err { OnErr result (items.new.items ≡ items.old.items) }
{
    match search(items, item.id()) {
        Ok(index) => items[index] = item,
        Err(index) => items.insert(index, item)?,
    }
    Ok(())
}

/// Where the item of an id stands, or where it would have to stand.
fn search(items: &[Arc<Item>], id: &str) -> Result<usize, usize>
    requires { AreInIdOrder (item_values items.now) }
    ensures { MatchResult result
        (λ index. IsItemAt items.now (chars id.now) index)
        (λ index. IsItemGap items.now (chars id.now) index) }
{
    items.binary_search_by(|item| compare_id(item, id))
}
