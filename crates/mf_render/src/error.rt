use std::alloc::AllocError;
use thiserror::Error;

/// Why a message isn't formatted.
#[derive(Clone, Copy, Debug, PartialEq, Eq, Error)]
pub enum RenderError {
    /// Its text has so many bytes, which are more than 16,777,216.
    #[error("the text has {length} bytes, which are too many")]
    TooLong { length: u64 },
    #[error("out of memory")]
    OutOfMemory,
}

impl From<AllocError> for RenderError {
    ghost use Rattle.std.specs.Prelude.{◌≡◌};
    ghost use Rattle.mf_render.specs.declared.error.RenderError.TheVariants.{OutOfMemory};

    ghost from_gives = { λ _ error. error ≡ OutOfMemory };

    fn from(_: AllocError) -> RenderError {
        RenderError::OutOfMemory
    }
}
