//! Answers as rows have them.
use mf_core::{CallerState, CoreError, Told};
use std::alloc::{AllocError, Global};

/// What an event is told, or why it is refused.
pub fn shown(alloc: Global, answer: Result<Told, CoreError>) -> Result<String, AllocError> {
    match answer {
        Ok(Told::Joined) => String::from_str(alloc, "joined"),
        Ok(Told::Published { edition }) => format!(in alloc; "published {edition}"),
        Ok(Told::Pinned { edition }) => format!(in alloc; "pinned {edition}"),
        Ok(Told::Ready) => String::from_str(alloc, "ready"),
        Ok(Told::Claimed) => String::from_str(alloc, "claimed"),
        Ok(Told::Busy) => String::from_str(alloc, "busy"),
        Ok(Told::Ended) => String::from_str(alloc, "ended"),
        Err(CoreError::NotYours { state }) => shown_state(alloc, &state),
        Err(CoreError::CallersFull) => String::from_str(alloc, "callers full"),
        Err(CoreError::EditionsFull { entries }) => format!(in alloc; "editions full {entries}"),
        Err(CoreError::StoreFull { used, size }) => format!(in alloc; "store full {used} {size}"),
        Err(CoreError::OutOfMemory) => Err(AllocError),
    }
}

/// The state of a caller whose event was refused.
fn shown_state(alloc: Global, state: &CallerState) -> Result<String, AllocError> {
    if !state.joined {
        return String::from_str(alloc, "away");
    }
    let mut text = format!(in alloc; "made {}, seen {}", state.made, state.seen)?;
    if let Some(edition) = state.pinned {
        text.push_str(format!(in alloc; ", pins {edition}")?.as_str())?;
    }
    if let Some((edition, index)) = state.claim {
        text.push_str(format!(in alloc; ", claims {edition} {index}")?.as_str())?;
    }
    Ok(text)
}
