ghost use Rattle.std.specs.Prelude.{◌≡◌};
ghost use Rattle.mf_parse.specs.declared.error.ParseError.TheVariants.{OutOfMemory};

use std::alloc::AllocError;
use thiserror::Error;

/// Why a source wasn't read.
#[derive(Clone, Copy, Debug, PartialEq, Eq, Error)]
pub enum ParseError {
    /// The source spells no message.
    #[error("the source is no message")]
    Syntax,
    /// There was no memory for the message.
    #[error("out of memory")]
    OutOfMemory,
}

impl From<AllocError> for ParseError {
    ghost from_gives = { λ _ e. e ≡ OutOfMemory };

    fn from(_error: AllocError) -> ParseError {
        ParseError::OutOfMemory
    }
}
