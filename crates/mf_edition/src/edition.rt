ghost use Rattle.std.specs.Prelude.{◌≡◌, ◌<◌, ◌^◌, length, position, slice_get, IfOk, IfSome, OnErr, OnOk};
ghost use Rattle.std.specs.Option.{option_copied};
ghost use Rattle.mf_edition.specs.Edition.{changed, empty_edition, found_along, is_named, next_edition};
ghost use Rattle.mf_edition.specs.Edition.{handled, published, recorded, HasRoom};
ghost use Rattle.mf_edition.specs.Handlers.{handler_of};
ghost use Rattle.mf_edition.specs.Records.{place_for};

use crate::handlers::Handlers;
use crate::order::{index_of, put_all};
use crate::record::Records;
use crate::{Catalogue, Change, Found, Item};
use mf_locale::{LocaleRecord, SharedRecord, Tag, Tags, root};
use mf_text::Text;
use mf_tree::Identifier;
use mf_value::HandlerDef;
use std::alloc::{AllocError, Global};
use std::marker::Model;
use std::sync::Arc;

/// The messages, the locale records and the handlers after so many changes, seen as the number of
/// changes, the list of the messages, the list of the records in the order of their tags, and the
/// list of the handlers in the order of their names.
#[derive(Debug, Drop)]
pub struct Edition {
    number: u64,
    items: Vec<Arc<Item>>,
    order: Vec<u32>,
    records: Records,
    handlers: Handlers,
    root: SharedRecord,
}

impl Model for Edition {
    ghost use Rattle.std.specs.Prelude.{◌≡◌};
    ghost use Rattle.mf_locale.specs.Records.{root_record};
    ghost use Rattle.mf_edition.specs.Edition.{EditionState};
    ghost use Rattle.mf_edition.specs.Kept.{state_of, IsKept};

    ghost Value = { EditionState };

    ghost view = { λ e. state_of e.number e.items.items e.records e.handlers };

    ghost invariant = { λ e. IsKept e.items.items e.order.items × (e.root ≡ root_record) };
}

/// The same edition once more, which shares each message, each record and each handler.
impl Clone for Edition {
    ghost is_clone = { λ original copy. copy ≡ original };

    fn clone(&self) -> Result<Edition, AllocError> {
        let items = self.items.clone()?;
        let order = self.order.clone()?;
        let records = self.records.clone()?;
        let handlers = self.handlers.clone()?;
        let root = self.root.clone()?;
        Ok(Edition {
            number: self.number,
            items,
            order,
            records,
            handlers,
            root,
        })
    }
}

impl Edition {
    /// Edition 0, which has no messages, no records and no handlers.
    pub fn empty(alloc: Global) -> Result<Edition, AllocError>
        ensures { IfOk result (λ edition. edition ≡ empty_edition) }
    {
        let root = SharedRecord::new(alloc, root(alloc)?)?;
        Ok(Edition {
            number: 0,
            items: Vec::new(alloc),
            order: Vec::new(alloc),
            records: Records::new(alloc),
            handlers: Handlers::new(alloc),
            root,
        })
    }

    /// The edition after one more change. It shares each message, each record and each handler that
    /// the change leaves as it is.
    /// See DECISIONS 82.
    pub fn next(&self, change: &Change) -> Result<Edition, AllocError>
        requires { HasRoom self.now change.now }
        ensures { IfOk result (λ edition. edition ≡ next_edition self.now change.now) }
    {
        let mut edition = self.clone()?;
        edition.advance(change)?;
        Ok(edition)
    }

    /// Becomes the edition after one more change. What it needs is taken before anything is
    /// changed.
    /// See DECISIONS 82.
    pub fn advance(&mut self, change: &Change) -> Result<(), AllocError>
        requires { HasRoom self.old change.now }
        ensures ok { OnOk result (self.new ≡ next_edition self.old change.now) }
        ensures err { OnErr result (self.new ≡ self.old) }
    {
        self.put(change)?;
        self.number += 1;
        Ok(())
    }

    /// Takes in what a change says, and keeps its number.
    fn put(&mut self, change: &Change) -> Result<(), AllocError>
        requires { length (changed self.old.items change.now) < 2 ^ 32 }
        ensures number { self.new.number ≡ self.old.number }
        ensures items { OnOk result (self.new.items ≡ changed self.old.items change.now) }
        ensures records { OnOk result (self.new.records ≡ recorded self.old.records change.now) }
        ensures handlers { OnOk result (self.new.handlers ≡ handled self.old.handlers change.now) }
        ensures err { OnErr result (self.new ≡ self.old) }
    {
        match change {
            Change::Catalogue(catalogue) => self.put_messages(catalogue),
            Change::Locale { tag, place, .. } => self.records.put_record(tag, place),
            Change::Handler(handler) => self.handlers.put_handler(handler),
        }
    }

    /// Takes in the messages of a publication.
    fn put_messages(&mut self, catalogue: &Catalogue) -> Result<(), AllocError>
        requires { length (published self.old.items catalogue.now) < 2 ^ 32 }
        ensures number { self.new.number ≡ self.old.number }
        ensures items { OnOk result (self.new.items ≡ published self.old.items catalogue.now) }
        ensures records { self.new.records ≡ self.old.records }
        ensures handlers { self.new.handlers ≡ self.old.handlers }
        ensures err { OnErr result (self.new ≡ self.old) }
    {
        let new = catalogue.items().clone()?;
        self.items.reserve(new.len())?;
        self.order.reserve(new.len())?;
        put_all(&mut self.items, &mut self.order, new);
        Ok(())
    }

    /// The number of changes that made it.
    pub fn number(&self) -> u64
        ensures { result ≡ self.now.number }
    {
        self.number
    }

    /// The number of its messages.
    pub fn len(&self) -> u32
        ensures { result ≡ length self.now.items }
    {
        self.items.len() as u32
    }

    /// The message at an index, counted from 0, if there is one.
    pub fn item(&self, index: u32) -> Option<&Item>
        ensures { option_copied result ≡ slice_get self.now.items index }
    {
        match self.items.get(index as usize) {
            Some(item) => Some(item),
            None => None,
        }
    }

    /// The index of the message of a tag and an id, if there is one.
    pub fn find(&self, tag: &Tag, id: &Text) -> Option<u32>
        ensures { result ≡ position (is_named tag.now id.now) self.now.items }
    {
        index_of(
            &self.items,
            &self.order,
            tag.as_text().as_str(),
            id.as_str(),
        )
    }

    /// The message of an id under the first tag of a chain that has one: that tag, and the
    /// message's index.
    /// See DECISIONS 87.
    pub fn find_along(&self, chain: Tags, id: &Text) -> Option<Found>
        ensures found { result ≡ found_along self.now.items id.now chain }
        ensures inside { IfSome result (λ found. found.index < length self.now.items) }
    {
        for tag in chain.into_members() {
            if let Some(index) = self.find(&tag, id) {
                return Some(Found { tag, index });
            }
        }
        None
    }

    /// The record that speaks for a tag: that of the first tag of its chain that has one, else the
    /// root record.
    pub fn place_for(&self, tag: &Tag) -> &LocaleRecord
        ensures { result.now ≡ place_for self.now.records tag.now }
    {
        self.records.place_for(self.root.as_record(), tag)
    }

    /// What the handler of a name does, if there is one. Names are equal where their values are
    /// (Unicode TS 35, Part 9, "Names and identifiers"). It takes no memory.
    pub fn handler(&self, name: &Identifier) -> Option<&HandlerDef>
        ensures { option_copied result ≡ handler_of self.now.handlers name.now }
    {
        self.handlers.handler_of(name)
    }
}
