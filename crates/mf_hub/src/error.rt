//! Why a call is refused.

/// Why a hub isn't closed.
#[derive(Clone, Copy, Debug, PartialEq, Eq, thiserror::Error, Drop)]
pub enum CloseError {
    /// So many other passes haven't left.
    #[error("{live} other passes have not left")]
    Others { live: u64 },
}
