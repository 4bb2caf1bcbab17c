//! Why a pass isn't made.
use thiserror::Error;

/// Why a further pass of a hub isn't made.
#[derive(Clone, Copy, Debug, PartialEq, Eq, Error)]
pub enum PassError {
    /// So many passes were made, which are all that may be.
    #[error("{made} passes were made, which are all that may be")]
    CallersFull { made: u64 },
    /// There is no memory for it.
    #[error("out of memory")]
    OutOfMemory,
}
