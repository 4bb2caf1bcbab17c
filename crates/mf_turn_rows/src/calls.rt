//! Turns at a tally.
ghost use Rattle.std.specs.Prelude.{◌≡◌, ◌≢◌, ◌+◌, ◌++◌, length, None, Some, IfOk, OnOk, OnErr};
ghost use Rattle.mf_turn.specs.Acts.{left_behind};
ghost use Rattle.mf_turn_rows.specs.Tallies.{SameCaller};

use crate::{Entry, Tally};
use mf_turn::{Act, Seat, Turn};
use std::alloc::AllocError;
use std::sync::Wait;

/// Adds one to the sum.
pub fn add<R: Wait>(rt: &R, turn: &Turn<Tally>, seat: &mut Seat<Tally>)
    requires own { seat.old.turn ≡ turn.now }
    requires free { seat.old.taken ≡ None }
    ensures free { seat.new.taken ≡ None }
    ensures same { SameCaller seat.old seat.new }
{
    let mut tally = turn.take(rt, seat);
    tally.add_one();
    turn.give(seat, tally, Act::Same);
}

/// Publishes the next entry of a caller, and returns the number of entries that there are then.
///
/// It is refused without memory, and where there are 1,000,000 entries.
pub fn publish<R: Wait>(
    rt: &R,
    turn: &Turn<Tally>,
    seat: &mut Seat<Tally>,
    entry: Entry,
) -> Result<u64, AllocError>
    requires own { seat.old.turn ≡ turn.now }
    requires free { seat.old.taken ≡ None }
    requires number { seat.old.view.number ≡ Some entry.caller }
    requires next { entry.nth ≡ seat.old.view.made + 1 }
    ensures free { seat.new.taken ≡ None }
    ensures same { SameCaller seat.old seat.new }
    ensures made { OnOk result (seat.new.view.made ≡ entry.nth) }
    ensures count { IfOk result (λ count. length seat.new.view.log ≡ count) }
    ensures refused { OnErr result (seat.new.view.made ≡ seat.old.view.made) }
{
    let mut tally = turn.take(rt, seat);
    if let Err(error) = tally.reserve() {
        turn.give(seat, tally, Act::Same);
        return Err(error);
    }
    tally.push(entry);
    let count = turn.raise(seat, &tally);
    turn.give(seat, tally, Act::Publish);
    Ok(count)
}

/// A seat for the next caller, with its number.
pub fn enter<R: Wait>(
    rt: &R,
    turn: &Turn<Tally>,
    from: &mut Seat<Tally>,
) -> Result<(Seat<Tally>, u64), AllocError>
    requires own { from.old.turn ≡ turn.now }
    ensures same { from.new ≡ from.old }
    ensures own { IfOk result (λ made. made.0.turn ≡ from.old.turn) }
    ensures free { IfOk result (λ made. made.0.taken ≡ None) }
    ensures number { IfOk result (λ made. made.0.view.number ≡ Some made.1) }
    ensures made { IfOk result (λ made. made.0.view.made ≡ 0) }
    ensures idle { IfOk result (λ made. (made.0.view.pin ≡ None) × (made.0.view.claim ≡ None)
        × (made.0.view.leaving ≡ None)) }
{
    let mut seat = turn.split(from);
    let mut tally = turn.take(rt, &mut seat);
    match tally.add_caller() {
        Ok(number) => {
            turn.give(&mut seat, tally, Act::Join);
            Ok((seat, number))
        }
        Err(error) => {
            turn.give(&mut seat, tally, Act::Same);
            Err(error)
        }
    }
}

/// A caller leaves into another.
pub fn leave<R: Wait>(
    rt: &R,
    turn: &Turn<Tally>,
    into: &mut Seat<Tally>,
    seat: Seat<Tally>,
    number: u64,
)
    requires own { (into.old.turn ≡ turn.now) × (seat.turn ≡ turn.now) }
    requires free { (into.old.taken ≡ None) × (seat.taken ≡ None) }
    requires number { seat.view.number ≡ Some number }
    requires has_number { into.old.view.number ≢ None }
    requires idle { (seat.view.pin ≡ None) × (seat.view.claim ≡ None) }
    requires leaving { (into.old.view.leaving ≡ None) × (seat.view.leaving ≡ None) }
    ensures own { into.new.turn ≡ into.old.turn }
    ensures free { into.new.taken ≡ None }
    ensures number { into.new.view.number ≡ into.old.view.number }
    ensures leaving { into.new.view.leaving ≡ None }
    ensures ended { into.new.view.ended ≡ into.old.view.ended ++ left_behind seat.view.number seat.view }
{
    turn.join(into, seat);
    let mut tally = turn.take(rt, into);
    tally.end_caller(number);
    turn.give(into, tally, Act::Leave);
}
