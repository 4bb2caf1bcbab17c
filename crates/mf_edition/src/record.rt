ghost use Rattle.std.specs.Prelude.{◌≡◌, [], OnErr, OnOk};
ghost use Rattle.std.specs.Option.{option_copied};
ghost use Rattle.mf_locale.specs.Chain.{truncations};
ghost use Rattle.mf_locale.specs.Records.{root_record};
ghost use Rattle.mf_edition.specs.Records.{first_record, place_for, put_record, record_of};

use mf_locale::{LocaleRecord, SharedRecord, Tag};
use std::alloc::{AllocError, Global};
use std::collections::BTreeMap;
use std::marker::Model;

/// The locale records of tags, seen as their list in the order of the tags.
#[derive(Debug, Drop)]
pub struct Records {
    by_tag: BTreeMap<String, SharedRecord>,
}

impl Model for Records {
    ghost use Rattle.std.specs.Prelude.{List};
    ghost use Rattle.mf_edition.specs.RecordMap.{records_in};
    ghost use Rattle.mf_edition.specs.Records.{TaggedRecord};

    ghost Value = { List TaggedRecord };

    ghost view = { λ r. records_in r.by_tag.entries };
}

/// The same records for the same tags; no record is copied.
impl Clone for Records {
    ghost is_clone = { λ original copy. copy ≡ original };

    fn clone(&self) -> Result<Records, AllocError> {
        let by_tag = self.by_tag.clone()?;
        Ok(Records { by_tag })
    }
}

impl Records {
    /// No records, which take no memory.
    pub fn new(alloc: Global) -> Records
        ensures { result ≡ [] }
    {
        Records {
            by_tag: BTreeMap::new(alloc),
        }
    }

    /// Puts the record of a tag in, in place of the one that the tag has. After an error all is as
    /// it was.
    pub fn put_record(&mut self, tag: &Tag, shared: &SharedRecord) -> Result<(), AllocError>
        ensures ok { OnOk result
            (self.new ≡ put_record self.old (record { tag = tag.now; shared = shared.now })) }
        ensures err { OnErr result (self.new ≡ self.old) }
    {
        let tag = tag.as_text().clone()?.into_string();
        let shared = shared.clone()?;
        self.by_tag.insert(tag, shared)?;
        Ok(())
    }

    /// The record of the tag that this text is, if it has one.
    fn record_of(&self, tag: &str) -> Option<&LocaleRecord>
        ensures { option_copied result ≡ record_of self.now tag.now }
    {
        match self.by_tag.get(tag) {
            Some(shared) => Some(shared.as_record()),
            None => None,
        }
    }

    /// The record of the first that has one: the tag that this text is, the tag with its last
    /// subtag dropped, and so on.
    fn first_record(&self, tag: &str) -> Option<&LocaleRecord>
        ensures { option_copied result ≡ first_record self.now (truncations tag.now) }
    {
        let mut rest = tag;
        while let Some(hyphen) = rest.rfind('-') {
            if let Some(found) = self.record_of(rest) {
                return Some(found);
            }
            rest = &rest[..hyphen];
        }
        self.record_of(rest)
    }

    /// The record that speaks for a tag: that of the first tag of its chain that has one, else the
    /// root record.
    pub fn place_for<'a>(&'a self, root: &'a LocaleRecord, tag: &Tag) -> &'a LocaleRecord
        requires { root.now ≡ root_record }
        ensures { result.now ≡ place_for self.now tag.now }
    {
        if let Some(found) = self.first_record(tag.as_text().as_str()) {
            return found;
        }
        self.record_of("und").unwrap_or(root)
    }
}
