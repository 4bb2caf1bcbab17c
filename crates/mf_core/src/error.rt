use crate::CallerState;
use mf_edition::PublishError;
use std::alloc::AllocError;

/// Why an event is refused.
#[derive(Clone, Copy, Debug, PartialEq, Eq, thiserror::Error, Drop)]
pub enum CoreError {
    /// The caller, whose state this is, may not do this.
    #[error("a caller may not do this in its state")]
    NotYours { state: CallerState },
    /// All the callers have joined that may.
    #[error("no more callers may join")]
    CallersFull,
    /// The log has all the entries that it may have, which are so many.
    #[error("the log has {entries} entries, which are all that it may have")]
    EditionsFull { entries: u64 },
    /// The change is larger than what is left: so many bytes are used, and it counts for so many.
    #[error("{used} bytes of the log are used, and {size} more are too many")]
    StoreFull { used: u64, size: u64 },
    /// There is no memory for it.
    #[error("out of memory")]
    OutOfMemory,
}

impl From<PublishError> for CoreError {
    ghost use Rattle.std.specs.Prelude.{◌≡◌};
    ghost use Rattle.mf_core.specs.Steps.{error_of};

    ghost from_gives = { λ unmade error. error ≡ error_of unmade };

    fn from(unmade: PublishError) -> CoreError {
        match unmade {
            PublishError::EditionsFull { entries } => CoreError::EditionsFull { entries },
            PublishError::StoreFull { used, size } => CoreError::StoreFull { used, size },
            PublishError::OutOfMemory => CoreError::OutOfMemory,
        }
    }
}

impl From<AllocError> for CoreError {
    ghost use Rattle.std.specs.Prelude.{◌≡◌};
    ghost use Rattle.mf_core.specs.declared.error.CoreError.TheVariants.{OutOfMemory};

    ghost from_gives = { λ _ error. error ≡ OutOfMemory };

    fn from(_: AllocError) -> CoreError {
        CoreError::OutOfMemory
    }
}
