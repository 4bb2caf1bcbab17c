use std::alloc::AllocError;

/// Why a log doesn't accept a change.
#[derive(Clone, Copy, Debug, PartialEq, Eq, Drop)]
pub enum Refusal {
    /// The log has all the entries that it may have, which are so many.
    EditionsFull { entries: u64 },
    /// The change is larger than what is left: so many bytes are used, and it counts for so many.
    StoreFull { used: u64, size: u64 },
}

/// Why a publication isn't made.
#[derive(Clone, Copy, Debug, PartialEq, Eq, thiserror::Error, Drop)]
pub enum PublishError {
    /// The log has all the entries that it may have, which are so many.
    #[error("the log has {entries} entries, which are all that it may have")]
    EditionsFull { entries: u64 },
    /// The change is larger than what is left: so many bytes are used, and it counts for so many.
    #[error("{used} bytes of the log are used, and {size} more are too many")]
    StoreFull { used: u64, size: u64 },
    /// There is no memory for it.
    #[error("out of memory")]
    OutOfMemory,
}

impl From<Refusal> for PublishError {
    ghost use Rattle.std.specs.Prelude.{◌≡◌};
    ghost use Rattle.mf_edition.specs.Sizes.{refused};

    ghost from_gives = { λ refusal error. error ≡ refused refusal };

    fn from(refusal: Refusal) -> PublishError {
        match refusal {
            Refusal::EditionsFull { entries } => PublishError::EditionsFull { entries },
            Refusal::StoreFull { used, size } => PublishError::StoreFull { used, size },
        }
    }
}

impl From<AllocError> for PublishError {
    ghost use Rattle.std.specs.Prelude.{◌≡◌};
    ghost use Rattle.mf_edition.specs.declared.error.PublishError.TheVariants.{OutOfMemory};

    ghost from_gives = { λ _ error. error ≡ OutOfMemory };

    fn from(_: AllocError) -> PublishError {
        PublishError::OutOfMemory
    }
}
