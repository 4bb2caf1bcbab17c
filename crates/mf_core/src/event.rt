ghost use Rattle.std.specs.Prelude.{◌≡◌};

use mf_edition::Change;

/// What a caller does.
#[derive(Debug, Drop)]
pub enum Event {
    /// Joins, as the next number.
    Join { caller: u64 },
    /// Makes an entry.
    Publish { caller: u64, change: Change },
    /// Pins the newest edition, in place of an earlier pin.
    Pin { caller: u64 },
    /// Asks for a message of the pinned edition.
    Ask { caller: u64, index: u32 },
    /// Has compiled the claimed message.
    Done { caller: u64 },
    /// Gives the claim back.
    Quit { caller: u64 },
    /// Ends its pin.
    Unpin { caller: u64 },
    /// Leaves, for ever.
    Leave { caller: u64 },
}

impl Event {
    ghost use Rattle.mf_core.specs.Steps.{maker};

    /// The number of the caller whose event it is.
    pub fn maker(&self) -> u64
        ensures { result ≡ maker self.now }
    {
        match self {
            Event::Join { caller }
            | Event::Publish { caller, .. }
            | Event::Pin { caller }
            | Event::Ask { caller, .. }
            | Event::Done { caller }
            | Event::Quit { caller }
            | Event::Unpin { caller }
            | Event::Leave { caller } => *caller,
        }
    }
}

/// What an event is told.
#[derive(Clone, Copy, Debug, PartialEq, Eq, Drop)]
pub enum Told {
    Joined,
    /// The entry is this edition's.
    Published { edition: u64 },
    /// This edition is the newest.
    Pinned { edition: u64 },
    /// The message is compiled.
    Ready,
    /// The caller is to compile the message.
    Claimed,
    /// Another caller compiles the message.
    Busy,
    Ended,
}
