//! The calls.
ghost use Rattle.std.specs.Prelude.{◌≡◌, ◌≢◌, None, Some, length, IfOk};
ghost use Rattle.std.specs.Option.{ForSome};
ghost use Rattle.mf_turn.specs.Account.{IsNew};
ghost use Rattle.mf_turn.specs.Acts.{after, caught_up, joined_with, shadow_of, Fixes, MayEnd, MayFix};
ghost use Rattle.mf_turn.specs.Rule.{first_view};
ghost use Rattle.mf_turn.specs.Sums.{HasSome};
ghost use Rattle.mf_turn.specs.Taught.{Counted, Teaches};

use crate::shared::Rules;
use crate::steps::{Counts, Ends, Merge, Raises, Shadow, Takes};
use crate::{Act, Shared, View};
use mf_queue::{Place, Queue};
use std::alloc::{AllocError, Global};
use std::marker::Model;
use std::sync::Wait;

/// A value that callers take in turn, and the count of the entries of its log, seen as its name.
#[derive(Drop)]
pub struct Turn<T: Shared> {
    queue: Queue<T, Act, View<T::Entry>, Rules<T>>,
}

impl<T: Shared> Model for Turn<T> {
    ghost use Rattle.atomic_table.specs.Seated.{TableId};

    ghost Value = { TableId };

    ghost view = { λ t. t.queue };
}

/// A seat at a turn, seen as the turn's name, the value that it has taken, and what it knows.
///
/// It has no bytes.
#[derive(Drop)]
pub struct Seat<T: Shared> {
    place: Place<T, Act, View<T::Entry>>,
}

impl<T: Shared> Model for Seat<T> {
    ghost use Rattle.mf_queue.specs.Queue.{IsAtRest};
    ghost use Rattle.mf_turn.specs.Standing.{standing_of, Standing};

    ghost Value = { Standing T T.Entry };

    ghost view = { λ s. standing_of s.place };

    ghost invariant = { λ s. IsAtRest s.place };
}

impl<T: Shared + Drop> Turn<T> {
    /// A turn for the value, and its first seat, that of caller 0. Without memory the value is
    /// dropped.
    pub fn new(alloc: Global, value: T) -> Result<(Turn<T>, Seat<T>), AllocError>
        requires { IsNew (T.account value) }
        ensures own { IfOk result (λ made. made.1.turn ≡ made.0) }
        ensures free { IfOk result (λ made. made.1.taken ≡ None) }
        ensures view { IfOk result (λ made. made.1.view ≡ first_view) }
    {
        let (queue, place) = Queue::new(alloc, value, &Act::Same)?;
        Ok((Turn { queue }, Seat { place }))
    }

    /// Waits for the turn, and takes the value.
    pub fn take<R: Wait>(&self, rt: &R, seat: &mut Seat<T>) -> T
        requires own { seat.old.turn ≡ self.now }
        requires free { seat.old.taken ≡ None }
        ensures own { seat.new.turn ≡ seat.old.turn }
        ensures taken { seat.new.taken ≡ Some result }
        ensures view { seat.new.view ≡ caught_up seat.old.view (T.account result) }
        ensures teaches { Teaches T.caller T.nth (T.account result) seat.old.view }
    {
        self.queue.take::<Takes<T>, R>(rt, &mut seat.place)
    }

    /// Fixes the place of the entry that `next` has more. The count is one more, and is returned.
    pub fn raise(&self, seat: &mut Seat<T>, next: &T) -> u64
        requires own { seat.old.turn ≡ self.now }
        requires may { HasSome seat.old.taken
            (λ x. MayFix T.caller T.nth (T.account x) (T.account next.now) seat.old.view) }
        ensures own { seat.new.turn ≡ seat.old.turn }
        ensures taken { seat.new.taken ≡ seat.old.taken }
        ensures fixes { ForSome seat.old.taken
            (λ x. Fixes (T.account x) (T.account next.now) seat.old.view seat.new.view) }
        ensures count { result ≡ length (T.account next.now).log }
    {
        self.queue.raise::<Raises<T>>(&mut seat.place, next)
    }

    /// Gives the value back, to which `act` was done, and ends the turn.
    pub fn give(&self, seat: &mut Seat<T>, value: T, act: Act)
        requires own { seat.old.turn ≡ self.now }
        requires may { HasSome seat.old.taken
            (λ x. MayEnd act (T.account x) (T.account value) seat.old.view) }
        ensures own { seat.new.turn ≡ seat.old.turn }
        ensures free { seat.new.taken ≡ None }
        ensures view { ForSome seat.old.taken
            (λ x. seat.new.view ≡ after act (T.account x) seat.old.view) }
    {
        self.queue.give::<Ends<T>>(&mut seat.place, value, &act)
    }

    /// The number of entries in the log, those counted whose place is fixed. It waits for nobody.
    pub fn count(&self, seat: &mut Seat<T>) -> u64
        requires own { seat.old.turn ≡ self.now }
        ensures own { seat.new.turn ≡ seat.old.turn }
        ensures taken { seat.new.taken ≡ seat.old.taken }
        ensures counted { Counted T.caller result seat.old.view seat.new.view }
    {
        self.queue.count::<Counts<T>>(&mut seat.place)
    }

    /// A new seat with no number, which has seen as much.
    pub fn split(&self, seat: &mut Seat<T>) -> Seat<T>
        requires own { seat.old.turn ≡ self.now }
        ensures same { seat.new ≡ seat.old }
        ensures own { result.turn ≡ seat.old.turn }
        ensures free { result.taken ≡ None }
        ensures view { result.view ≡ shadow_of seat.old.view }
    {
        Seat {
            place: self.queue.split::<Shadow>(&mut seat.place),
        }
    }

    /// The seat takes in what another knows. If that one has a number, its leave is then in hand.
    pub fn join(&self, into: &mut Seat<T>, seat: Seat<T>)
        requires own { into.old.turn ≡ self.now }
        requires seat { seat.turn ≡ self.now }
        requires free { seat.taken ≡ None }
        requires pin { seat.view.pin ≡ None }
        requires claim { seat.view.claim ≡ None }
        requires leaving { (into.old.view.leaving ≡ None) × (seat.view.leaving ≡ None) }
        requires number { seat.view.number ≢ None → into.old.view.number ≢ None }
        ensures own { into.new.turn ≡ into.old.turn }
        ensures taken { into.new.taken ≡ into.old.taken }
        ensures view { into.new.view ≡ joined_with into.old.view seat.view }
    {
        let Seat { place } = seat;
        self.queue.join::<Merge>(&mut into.place, place);
    }
}
