//! The same events by plain lists: every caller, and every entry of every edition, is looked for
//! from the start.
use mf_core::{CallerState, CoreError, Event, Told};
use std::alloc::{AllocError, Global};

/// What an entry is.
#[derive(Clone, Copy, PartialEq, Eq)]
enum Stage {
    Claimed,
    Ready,
}

/// An entry that is claimed or ready.
#[derive(Clone, Copy)]
struct Entry {
    edition: u64,
    index: u32,
    stage: Stage,
}

/// The callers, the number of messages of each edition, and the entries.
#[derive(Drop)]
pub struct Plain {
    callers: Vec<CallerState>,
    messages: Vec<u32>,
    entries: Vec<Entry>,
}

/// A caller that isn't joined.
const AWAY: CallerState = CallerState {
    joined: false,
    made: 0,
    seen: 0,
    pinned: None,
    claim: None,
};

impl Plain {
    /// Those of the new World.
    pub fn new(alloc: Global) -> Result<Plain, AllocError> {
        let mut messages = Vec::new(alloc);
        messages.push(0)?;
        Ok(Plain {
            callers: Vec::new(alloc),
            messages,
            entries: Vec::new(alloc),
        })
    }

    /// How many callers have joined.
    pub fn joined(&self) -> u64 {
        self.callers.len() as u64
    }

    /// The number of the newest edition.
    pub fn newest(&self) -> u64 {
        self.messages.len().saturating_sub(1) as u64
    }

    /// The state of a caller.
    fn state(&self, caller: u64) -> CallerState {
        match self.callers.get(caller as usize) {
            Some(state) => *state,
            None => AWAY,
        }
    }

    /// Puts the state of a caller.
    fn put(&mut self, caller: u64, state: CallerState) {
        if let Some(there) = self.callers.get_mut(caller as usize) {
            *there = state;
        }
    }

    /// The stage of an entry, if it is claimed or ready.
    fn stage(&self, edition: u64, index: u32) -> Option<Stage> {
        for entry in &self.entries {
            if entry.edition == edition && entry.index == index {
                return Some(entry.stage);
            }
        }
        None
    }

    /// Does an event, or refuses it.
    pub fn step(&mut self, event: &Event) -> Result<Told, CoreError> {
        let caller = event.maker();
        let state = self.state(caller);
        if self.is_not_yours(event, &state) {
            return Err(CoreError::NotYours { state });
        }
        let told = match event {
            Event::Join { .. } => self.join()?,
            Event::Publish { .. } => self.publish(caller, state)?,
            Event::Pin { .. } => self.pin(caller, state),
            Event::Ask { index, .. } => self.ask(caller, *index, state)?,
            Event::Done { .. } => self.end_claim(caller, state, Some(Stage::Ready))?,
            Event::Quit { .. } => self.end_claim(caller, state, None)?,
            Event::Unpin { .. } => {
                self.put(
                    caller,
                    CallerState {
                        pinned: None,
                        ..state
                    },
                );
                Told::Ended
            }
            Event::Leave { .. } => {
                self.put(caller, AWAY);
                Told::Ended
            }
        };
        self.drop_dead();
        Ok(told)
    }

    /// Whether an event isn't its maker's, whose state this is.
    fn is_not_yours(&self, event: &Event, state: &CallerState) -> bool {
        match event {
            Event::Join { caller } => *caller != self.callers.len() as u64,
            Event::Publish { .. } => !state.joined,
            Event::Pin { .. } => !state.joined || state.claim.is_some(),
            Event::Ask { index, .. } => {
                !state.joined || state.claim.is_some() || *index >= self.messages_of(state.pinned)
            }
            Event::Done { .. } | Event::Quit { .. } => !state.joined || state.claim.is_none(),
            Event::Unpin { .. } => {
                !state.joined || state.claim.is_some() || state.pinned.is_none()
            }
            Event::Leave { .. } => {
                !state.joined || state.claim.is_some() || state.pinned.is_some()
            }
        }
    }

    /// The number of messages of the edition that is pinned, if one is.
    fn messages_of(&self, pinned: Option<u64>) -> u32 {
        match pinned {
            None => 0,
            Some(edition) => match self.messages.get(edition as usize) {
                Some(messages) => *messages,
                None => 0,
            },
        }
    }

    fn join(&mut self) -> Result<Told, AllocError> {
        let seen = self.newest();
        self.callers.push(CallerState {
            joined: true,
            seen,
            ..AWAY
        })?;
        Ok(Told::Joined)
    }

    /// A publication: the first three are of a message each, and all others of one that is there.
    fn publish(&mut self, caller: u64, state: CallerState) -> Result<Told, AllocError> {
        let messages = self.messages.len().min(3) as u32;
        self.messages.push(messages)?;
        let edition = self.newest();
        self.put(
            caller,
            CallerState {
                made: state.made.saturating_add(1),
                seen: edition,
                ..state
            },
        );
        Ok(Told::Published { edition })
    }

    fn pin(&mut self, caller: u64, state: CallerState) -> Told {
        let edition = self.newest();
        self.put(
            caller,
            CallerState {
                pinned: Some(edition),
                seen: edition,
                ..state
            },
        );
        Told::Pinned { edition }
    }

    fn ask(&mut self, caller: u64, index: u32, state: CallerState) -> Result<Told, AllocError> {
        let edition = state.pinned.unwrap_or(0);
        match self.stage(edition, index) {
            Some(Stage::Ready) => Ok(Told::Ready),
            Some(Stage::Claimed) => Ok(Told::Busy),
            None => {
                self.entries.push(Entry {
                    edition,
                    index,
                    stage: Stage::Claimed,
                })?;
                let claim = Some((edition, index));
                self.put(caller, CallerState { claim, ..state });
                Ok(Told::Claimed)
            }
        }
    }

    /// The entry that a caller has claimed comes to this stage, or is idle.
    fn end_claim(
        &mut self,
        caller: u64,
        state: CallerState,
        stage: Option<Stage>,
    ) -> Result<Told, AllocError> {
        let (edition, index) = state.claim.unwrap_or((0, 0));
        self.entries
            .retain(|entry| entry.edition != edition || entry.index != index);
        if let Some(stage) = stage {
            self.entries.push(Entry {
                edition,
                index,
                stage,
            })?;
        }
        self.put(
            caller,
            CallerState {
                claim: None,
                ..state
            },
        );
        Ok(Told::Ended)
    }

    /// Drops the entries of editions that are neither the newest nor pinned.
    fn drop_dead(&mut self) {
        let newest = self.newest();
        let callers = &self.callers;
        self.entries.retain(|entry| entry.edition == newest || is_pinned(callers, entry.edition));
    }
}

/// Whether some caller pins an edition.
fn is_pinned(callers: &Vec<CallerState>, edition: u64) -> bool {
    for state in callers {
        if state.pinned == Some(edition) {
            return true;
        }
    }
    false
}
