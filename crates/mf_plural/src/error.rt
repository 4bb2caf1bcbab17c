//! Why a text has no rules.

use std::alloc::AllocError;
use thiserror::Error;

/// Why a text wasn't read as plural rules.
#[derive(Clone, Copy, Debug, PartialEq, Eq, Error)]
pub enum RuleError {
    /// A rule is bad: the first such one has this number, counted from 1.
    #[error("plural rule {rule} is bad")]
    BadRule { rule: u32 },
    /// There was no memory for the rules.
    #[error("out of memory")]
    OutOfMemory,
}

impl From<AllocError> for RuleError {
    ghost use Rattle.std.specs.Prelude.{◌≡◌};
    ghost use Rattle.mf_plural.specs.declared.error.RuleError.TheVariants.{OutOfMemory};

    ghost from_gives = { λ _ e. e ≡ OutOfMemory };

    fn from(_error: AllocError) -> RuleError {
        RuleError::OutOfMemory
    }
}
