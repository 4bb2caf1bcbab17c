use json::Invalid;
use mf_locale::LocaleError;
use std::alloc::AllocError;

/// Why a line isn't read from its tokens.
#[derive(Clone, Copy, Debug, PartialEq, Eq)]
pub(crate) enum Unread {
    /// It isn't a request for a sentence whose fields are plain, and may be any other line.
    NotPlain,
    /// There was no memory.
    OutOfMemory,
}

impl From<AllocError> for Unread {
    fn from(_: AllocError) -> Unread {
        Unread::OutOfMemory
    }
}

impl From<Invalid> for Unread {
    fn from(_: Invalid) -> Unread {
        Unread::NotPlain
    }
}

impl From<LocaleError> for Unread {
    fn from(error: LocaleError) -> Unread {
        match error {
            LocaleError::OutOfMemory => Unread::OutOfMemory,
            _ => Unread::NotPlain,
        }
    }
}
