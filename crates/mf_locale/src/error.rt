//! Why something is no tag or no record.

use crate::field::RecordField;
use std::alloc::AllocError;
use thiserror::Error;

/// Why a text gives no tag, or a JSON value no record.
#[derive(Clone, Copy, Debug, PartialEq, Eq, Error)]
pub enum LocaleError {
    /// The text is no tag.
    #[error("the text is no language tag")]
    BadTag,
    /// This field of the record is the first that is missing, of another kind or out of range.
    #[error("the field {} is missing or wrong", field.as_str())]
    BadField { field: RecordField },
    /// In this field of the record, the first that is bad, the first bad rule has this number,
    /// counted from 1.
    #[error("rule {rule} of the field {} is bad", field.as_str())]
    BadRule { field: RecordField, rule: u32 },
    /// There is no memory for it.
    #[error("out of memory")]
    OutOfMemory,
}

impl From<AllocError> for LocaleError {
    ghost use Rattle.std.specs.Prelude.{◌≡◌};
    ghost use Rattle.mf_locale.specs.declared.error.LocaleError.TheVariants.{OutOfMemory};

    ghost from_gives = { λ _ e. e ≡ OutOfMemory };

    fn from(_: AllocError) -> LocaleError {
        LocaleError::OutOfMemory
    }
}
