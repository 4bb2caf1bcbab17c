ghost use Rattle.std.specs.Prelude.{◌≡◌, ◌++◌, [], ◌∷◌, None, IfErr, IfOk, OnErr, OnOk};
ghost use Rattle.mf_edition.specs.Edition.{newest_edition};
ghost use Rattle.mf_edition.specs.Sizes.{refusal_of, IsDue};

use crate::{Edition, Entry, Log, PublishError};
use std::alloc::{AllocError, Global};
use std::marker::Model;

/// The accepted publications: a log with its newest edition, seen as the list of its entries.
/// See DECISIONS 79.
#[derive(Debug, Drop)]
pub struct Publications {
    log: Log,
    newest: Edition,
}

impl Model for Publications {
    ghost use Rattle.std.specs.Prelude.{◌≡◌, List as Listed};
    ghost use Rattle.mf_edition.specs.Edition.{newest_edition};
    ghost use Rattle.mf_edition.specs.declared.change.Entry.{Entry};

    ghost Value = { Listed Entry };

    ghost view = { λ p. p.log };

    ghost invariant = { λ p. p.newest ≡ newest_edition p.log };
}

impl Publications {
    /// No publications.
    pub fn new(alloc: Global) -> Result<Publications, AllocError>
        ensures { IfOk result (λ publications. publications ≡ []) }
    {
        let newest = Edition::empty(alloc)?;
        Ok(Publications {
            log: Log::new(alloc),
            newest,
        })
    }

    /// The log of the publications.
    pub fn log(&self) -> &Log
        ensures { result.now ≡ self.now }
    {
        &self.log
    }

    /// The newest edition of the log.
    pub fn newest(&self) -> &Edition
        ensures { result.now ≡ newest_edition self.now }
    {
        &self.newest
    }

    /// Makes a publication: its entry is the next one of the log, and its change goes into the
    /// newest edition. After an error both are as they were.
    pub fn publish(&mut self, entry: Entry) -> Result<(), PublishError>
        ensures ok { OnOk result (self.new ≡ self.old ++ entry ∷ []) }
        ensures accepted { OnOk result (refusal_of self.old entry.change ≡ None) }
        ensures refused { IfErr result (IsDue (refusal_of self.old entry.change)) }
        ensures err { OnErr result (self.new ≡ self.old) }
    {
        self.log.publish(&mut self.newest, entry)
    }
}
