ghost use Rattle.std.specs.Prelude.{◌≡◌, IfOk};

use crate::record::LocaleRecord;
use std::alloc::{AllocError, Global};
use std::marker::Model;
use std::sync::Arc;

/// A locale record that several owners may share, seen as the record.
/// See DECISIONS 58.
#[derive(Debug, Drop)]
pub struct SharedRecord {
    record: Arc<LocaleRecord>,
}

impl Model for SharedRecord {
    ghost use Rattle.std.specs.Arc.{arc_value};
    ghost use Rattle.mf_locale.specs.declared.record.LocaleRecord.{LocaleRecord};

    ghost Value = { LocaleRecord };

    ghost view = { λ s. arc_value s.record };
}

impl SharedRecord {
    /// The record, to be shared from now on.
    pub fn new(alloc: Global, owned: LocaleRecord) -> Result<SharedRecord, AllocError>
        ensures { IfOk result (λ shared. shared ≡ owned) }
    {
        let record = Arc::new(alloc, owned)?;
        Ok(SharedRecord { record })
    }

    /// The record itself.
    pub fn as_record(&self) -> &LocaleRecord
        ensures { result.now ≡ self.now }
    {
        &self.record
    }
}

/// One more owner of the same record, which isn't copied.
impl Clone for SharedRecord {
    ghost is_clone = { λ original copy. copy ≡ original };

    fn clone(&self) -> Result<SharedRecord, AllocError> {
        let record = self.record.clone()?;
        Ok(SharedRecord { record })
    }
}

/// Two are equal where their records are, whoever shares them.
impl PartialEq for SharedRecord {
    ghost use Rattle.mf_locale.specs.contracts.record.LocaleRecordPartialEq.TheImpl as record_eq;
    ghost use Rattle.mf_locale.specs.contracts.record.LocaleRecordPartialEq.TheImpl.Laws.{laws-law};

    ghost eq = { record_eq.ghosts.eq };

    ghost laws = { laws-law };

    fn eq(&self, other: &SharedRecord) -> bool {
        self.as_record() == other.as_record()
    }
}

impl Eq for SharedRecord {
    ghost use Rattle.mf_locale.specs.contracts.record.LocaleRecordEq.TheImpl.Laws.{laws-law};

    ghost laws = { laws-law };
}
