ghost use Rattle.std.specs.Prelude.{◌≡◌, ◌≤◌, ◌+◌, ◌++◌, [], ◌∷◌, length, slice_get, None, Some, IfErr, IfOk, OnOk, OnErr};
ghost use Rattle.std.specs.Option.{option_copied};
ghost use Rattle.mf_edition.specs.Edition.{message_count, newest_edition, next_edition, HasRoom};
ghost use Rattle.mf_edition.specs.Sizes.{most_bytes, most_entries, refusal_of, size_of, used_by, IsDue};

use crate::{Change, Edition, Entry, PublishError, Refusal};
use std::alloc::{AllocError, Global};
use std::marker::Model;

/// The most entries that a log may have.
const MOST_ENTRIES: u64 = 65_536;

/// The most bytes that the changes of a log may count for.
const MOST_BYTES: u64 = 268_435_456;

/// The accepted changes in the order in which they were accepted, seen as the list of their
/// entries.
///
/// There are at most 65,536 of them, and they count for at most 268,435,456 bytes.
#[derive(Debug, Drop)]
pub struct Log {
    entries: Vec<Entry>,
    used: u64,
}

impl Model for Log {
    ghost use Rattle.std.specs.Prelude.{List as Listed};
    ghost use Rattle.mf_edition.specs.declared.change.Entry.{Entry};
    ghost use Rattle.mf_edition.specs.Sizes.{IsWithin};

    ghost Value = { Listed Entry };

    ghost view = { λ l. l.entries.items };

    ghost invariant = { λ l. IsWithin l.entries.items l.used };
}

impl Log {
    /// The log of no changes, which takes no memory.
    pub fn new(alloc: Global) -> Log
        ensures { result ≡ [] }
    {
        Log {
            entries: Vec::new(alloc),
            used: 0,
        }
    }

    /// The number of entries.
    pub fn len(&self) -> u64
        ensures len { result ≡ length self.now }
        ensures few { result ≤ most_entries }
    {
        self.entries.len() as u64
    }

    /// The bytes that its changes count for.
    pub fn used(&self) -> u64
        ensures used { result ≡ used_by self.now }
        ensures small { result ≤ most_bytes }
    {
        self.used
    }

    /// The entry at an index, counted from 0, if there is one: entry k of the log, counted from 1,
    /// stands at k - 1.
    /// See DECISIONS 81.
    pub fn get(&self, k: u64) -> Option<&Entry>
        ensures { option_copied result ≡ slice_get self.now k }
    {
        self.entries.get(k as usize)
    }

    /// Why a change isn't accepted, if it isn't. Where it is, the newest edition has room for it.
    /// See DECISIONS 79.
    pub fn refusal(&self, change: &Change) -> Option<Refusal>
        ensures refusal { result ≡ refusal_of self.now change.now }
        ensures room { result ≡ None → HasRoom (newest_edition self.now) change.now }
    {
        match self.used_with(change) {
            Ok(_) => None,
            Err(refusal) => Some(refusal),
        }
    }

    /// Puts an entry at the end. After an error the log is as it was.
    pub fn push(&mut self, entry: Entry) -> Result<(), PublishError>
        ensures ok { OnOk result (self.new ≡ self.old ++ entry ∷ []) }
        ensures accepted { OnOk result (refusal_of self.old entry.change ≡ None) }
        ensures refused { IfErr result (IsDue (refusal_of self.old entry.change)) }
        ensures err { OnErr result (self.new ≡ self.old) }
    {
        let used = self.used_with(&entry.change)?;
        self.entries.reserve(1)?;
        self.entries.push_reserved(entry);
        self.used = used;
        Ok(())
    }

    /// Puts an entry at the end, and its change into the newest edition. After an error both are as
    /// they were.
    /// See DECISIONS 80.
    pub(crate) fn publish(&mut self, newest: &mut Edition, entry: Entry) -> Result<(), PublishError>
        requires { newest.old ≡ newest_edition self.old }
        ensures log { OnOk result (self.new ≡ self.old ++ entry ∷ []) }
        ensures newest { OnOk result (newest.new ≡ next_edition newest.old entry.change) }
        ensures accepted { OnOk result (refusal_of self.old entry.change ≡ None) }
        ensures refused { IfErr result (IsDue (refusal_of self.old entry.change)) }
        ensures err { OnErr result ((self.new ≡ self.old) × (newest.new ≡ newest.old)) }
    {
        let used = self.used_with(&entry.change)?;
        publish_entry(&mut self.entries, newest, entry)?;
        self.used = used;
        Ok(())
    }

    /// The bytes that are used with one more change, where it is accepted.
    fn used_with(&self, change: &Change) -> Result<u64, Refusal>
        ensures accepted { IfOk result (λ _. refusal_of self.now change.now ≡ None) }
        ensures used { IfOk result (λ used. used ≡ used_by self.now + size_of change.now) }
        ensures counted { IfOk result (λ _. message_count change.now ≤ size_of change.now) }
        ensures room { IfOk result (λ _. HasRoom (newest_edition self.now) change.now) }
        ensures refused { IfErr result (λ refusal. refusal_of self.now change.now ≡ Some refusal) }
    {
        let entries = self.len();
        if entries >= MOST_ENTRIES {
            return Err(Refusal::EditionsFull { entries });
        }
        let used = self.used;
        let size = change.size();
        if size > MOST_BYTES - used {
            return Err(Refusal::StoreFull { used, size });
        }
        Ok(used + size)
    }
}

/// The same over the entries themselves. Room for the entry is made before the edition changes.
fn publish_entry(
    entries: &mut Vec<Entry>,
    newest: &mut Edition,
    entry: Entry,
) -> Result<(), AllocError>
    requires { HasRoom newest.old entry.change }
    ensures entries { OnOk result (entries.new.items ≡ entries.old.items ++ entry ∷ []) }
    ensures newest { OnOk result (newest.new ≡ next_edition newest.old entry.change) }
    ensures err { OnErr result
        ((entries.new.items ≡ entries.old.items) × (newest.new ≡ newest.old)) }
{
    entries.reserve(1)?;
    newest.advance(&entry.change)?;
    entries.push_reserved(entry);
    Ok(())
}
