ghost use Rattle.std.specs.Prelude.{◌≡◌, ◌≢◌, ◌<◌, ◌^◌, ◌+◌, ℕ, true, None, Some, length, IfSome};
ghost use Rattle.mf_flight.specs.Flights.{slot_of};
ghost use Rattle.mf_flight.specs.declared.slot.State.TheVariants.{Claimed};
ghost use Rattle.mf_core.specs.Kept.{held_at, is_dead, DropsDead, MovesPin};

use mf_flight::Flights;

/// What is held of an edition: the number of its messages, and of the callers that pin it.
#[derive(Clone, Copy, Debug, Drop)]
pub(crate) struct Held {
    pub(crate) messages: u32,
    pub(crate) pins: u32,
}

/// One more caller pins an edition.
fn raise_pins(editions: &mut Vec<Held>, edition: u64)
    requires there { edition < length editions.old.items }
    requires room { (held_at editions.old.items edition).pins + 1 < 2 ^ 32 }
    ensures { MovesPin editions.old.items editions.new.items None (Some edition) }
{
    editions[edition as usize].pins += 1;
}

/// One caller fewer pins an edition.
fn lower_pins(editions: &mut Vec<Held>, edition: u64)
    requires there { edition < length editions.old.items }
    requires pinned { 0 < (held_at editions.old.items edition).pins }
    ensures { MovesPin editions.old.items editions.new.items (Some edition) None }
{
    editions[edition as usize].pins -= 1;
}

/// Whether an edition isn't the newest, and nobody pins it.
pub(crate) fn is_dead(editions: &Vec<Held>, newest: u64, edition: u64) -> bool
    requires { edition < length editions.now.items }
    ensures { result ≡ is_dead editions.now.items newest edition }
{
    !(edition == newest || editions[edition as usize].pins > 0)
}

/// A pin goes from one edition to another.
pub(crate) fn move_pin(editions: &mut Vec<Held>, from: Option<u64>, to: Option<u64>)
    requires from { IfSome from (λ e. (e < length editions.old.items) × (0 < (held_at editions.old.items e).pins)) }
    requires to { IfSome to (λ e. e < length editions.old.items) }
    requires room { (e : ℕ) → (held_at editions.old.items e).pins + 1 < 2 ^ 32 }
    ensures { MovesPin editions.old.items editions.new.items from to }
{
    if let Some(edition) = to {
        raise_pins(editions, edition);
    }
    if let Some(edition) = from {
        lower_pins(editions, edition);
    }
}

/// Drops the entries of an edition that is dead.
pub(crate) fn drop_dead<P: Drop>(
    flights: &mut Flights<P>,
    editions: &Vec<Held>,
    newest: u64,
    edition: u64,
)
    requires there { edition < length editions.now.items }
    requires free { is_dead editions.now.items newest edition ≡ true → (i : ℕ) → (slot_of flights.old edition i).state ≢ Claimed }
    ensures { DropsDead editions.now.items newest edition flights.old flights.new }
{
    if is_dead(editions, newest, edition) {
        flights.retire(edition);
    }
}
