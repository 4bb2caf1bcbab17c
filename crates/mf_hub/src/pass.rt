//! What a caller holds of a hub.
ghost use Rattle.std.specs.Prelude.{◌≡◌, length, None, Some};
ghost use Rattle.mf_hub.specs.Passes.{HasMadeAll};

use crate::store::Store;
use mf_edition::Edition;
use mf_turn::Seat;
use std::marker::Model;
use std::sync::Arc;

/// A caller's pass to a hub, seen as the hub's name and what the caller knows.
///
/// It holds at most one pin.
#[derive(Drop)]
pub struct Pass {
    pub(crate) seat: Seat<Store>,
    pub(crate) number: u64,
    pub(crate) seen: u64,
    pub(crate) pinned: Option<Arc<Edition>>,
}

impl Model for Pass {
    ghost use Rattle.mf_hub.specs.Passes.{PassState};
    ghost use Rattle.mf_hub.specs.Held.{HasSeen, IsPass};

    ghost Value = { PassState };

    ghost view = { λ p. record { hub = p.seat.turn; view = p.seat.view } };

    ghost invariant = { λ p. IsPass p.seat p.number p.pinned × HasSeen p.seat p.seen };
}

impl Pass {
    /// The caller's number: 0 for the first pass of a hub, and for each later one the next.
    pub fn number(&self) -> u64
        ensures { self.now.view.number ≡ Some result }
    {
        self.number
    }

    /// Between two calls the caller has no claim, and its entries are among those that it has seen.
    pub fn is_at_rest(&self)
        ensures claim { self.now.view.claim ≡ None }
        ensures made { HasMadeAll self.now.view }
    {
        let _ = &self.seat;
    }

    /// How many entries of the log the caller has seen, which is the number of the newest edition
    /// that it knows of.
    pub fn seen(&self) -> u64
        ensures { result ≡ length self.now.view.log }
    {
        self.seen
    }
}

/// What a caller had seen, for another to learn, seen as the hub's name and what the caller knew.
#[derive(Drop)]
pub struct Note {
    pub(crate) seat: Seat<Store>,
}

impl Model for Note {
    ghost use Rattle.mf_hub.specs.Passes.{PassState};
    ghost use Rattle.mf_hub.specs.Held.{IsNote};

    ghost Value = { PassState };

    ghost view = { λ n. record { hub = n.seat.turn; view = n.seat.view } };

    ghost invariant = { λ n. IsNote n.seat };
}
