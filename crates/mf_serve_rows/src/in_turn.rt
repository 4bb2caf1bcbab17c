//! A listener whose connections come one after the other.
ghost use Rattle.std.specs.Prelude.{◌≡◌};

use crate::HoldsFirst;
use mf_io::{Failed, Listener};
use std::sync::atomic::{AtomicU64, Ordering};

/// A listener that gives a connection once those before it are answered, and looks at how many
/// tokens are away from home then.
#[derive(Drop)]
pub struct InTurn<'a, L> {
    links: L,
    gate: &'a HoldsFirst,
    returned: &'a AtomicU64,
    given: u64,
    /// The most tokens that were away from home as a connection came.
    pub most_away: u64,
}

impl<'a, L> InTurn<'a, L> {
    /// The connections of a listener, by the gate that counts those that are answered, and the
    /// count of the tokens that came back.
    pub fn new(links: L, gate: &'a HoldsFirst, returned: &'a AtomicU64) -> InTurn<'a, L> {
        InTurn {
            links,
            gate,
            returned,
            given: 0,
            most_away: 0,
        }
    }
}

impl<'a, L: Listener> Listener for InTurn<'a, L> {
    type From = L::From;

    type To = L::To;

    ghost left = { λ l. L.left l.links };

    ghost faults = { λ l. L.faults l.links };

    fn accept(&mut self) -> Result<Option<(L::From, L::To)>, Failed> {
        self.gate.wait_until(self.given);
        let returned = self.returned.load(Ordering::SeqCst);
        self.most_away = self.most_away.max(self.given.saturating_sub(returned));
        self.given = self.given.saturating_add(1);
        self.links.accept()
    }
}
