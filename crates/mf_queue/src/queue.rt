//! The calls.
ghost use Rattle.std.specs.Prelude.{◌≡◌, ℕ, ◌+◌, ◌∷◌, [], None, Some, IfOk};
ghost use Rattle.mf_queue.specs.Queue.{view, taken, Holds, IsAtRest, IsSameSeat, IsWaiting};
ghost use Rattle.mf_queue.specs.Duties.{MayTake, MayGive, MayRaise, MayCount, MaySplit, MayJoin};

use crate::parts::Board;
use crate::steps::{Count, Cut, Draw, End, Glue, Look, Raise, Stand};
use crate::{Giving, Item, Learning, Place, QueueRule, Raising};
use atomic_table::{Join, Refused, Split, Table};
use crossbeam_utils::Backoff;
use std::alloc::{AllocError, Global};
use std::marker::Model;
use std::snapshot::Snapshot;
use std::sync::Wait;

/// The word of the places drawn.
const DRAWN: usize = 0;

/// The word of the places served.
const SERVED: usize = 1;

/// The word of the count.
const COUNT: usize = 2;

/// A value in a slot that callers take in turn, and a count that they read without waiting.
///
/// `T` is the value, `A` names what is done to it, `V` is what a seat knows, and `P` the client's
/// rule. It is seen as the table that it stands on, which its seats name.
#[derive(Drop)]
pub struct Queue<T, A, V, P: QueueRule<T, V>> {
    table: Board<T, A, V, P>,
    ghost sized: { (table.shared.table_id.words ≡ 3) × (table.shared.table_id.slots ≡ 1) },
}

impl<T, A, V, P: QueueRule<T, V>> Model for Queue<T, A, V, P> {
    ghost use Rattle.atomic_table.specs.Seated.{TableId};

    ghost Value = { TableId };

    ghost view = { λ q. q.table.shared.table_id };
}

impl<T: Drop, A, V, P: QueueRule<T, V>> Queue<T, A, V, P> {
    /// A queue at whose slot the value lies, with the count 0, and its first seat.
    ///
    /// `done` is what is said to have been done to the value.
    pub fn new(
        alloc: Global,
        value: T,
        done: &A,
    ) -> Result<(Queue<T, A, V, P>, Place<T, A, V>), AllocError>
        requires { P.holds 0 value None (P.first ∷ []) }
        ensures own { IfOk result (λ made. made.1.table_id ≡ made.0) }
        ensures rests { IfOk result (λ made. IsAtRest made.1 × (taken made.1 ≡ None)) }
        ensures view { IfOk result (λ made. view made.1 ≡ P.first) }
    {
        let mut slots = Vec::with_capacity(alloc, 1)?;
        slots.push_reserved(Item::Home(value, Snapshot::of(done)));
        match Table::new(alloc, &[0, 0, 0], slots, &()) {
            Ok((table, seat)) => Ok((Queue { table }, seat)),
            Err(Refused { slots: _ }) => Err(AllocError),
        }
    }

    // After 2^64 - 1 places it waits for ever.
    fn draw<R: Wait>(&self, rt: &R, seat: &mut Place<T, A, V>) -> u64
        requires own { seat.old.table_id ≡ self.now }
        requires idle { IsAtRest seat.old × (taken seat.old ≡ None) }
        ensures same { IsSameSeat seat.old seat.new × (view seat.new ≡ view seat.old) }
        ensures waits { IsWaiting seat.new result }
    {
        let shared = &self.table.shared;
        let backoff = Backoff::new();
        for _ in rt.forever() {
            let next = shared.peek(DRAWN);
            if next < u64::MAX {
                let found = shared.compare_exchange::<Draw>(seat, DRAWN, next, next + 1);
                if found == next {
                    return next;
                }
            }
            backoff.snooze();
        }
        unreachable!()
    }

    /// Waits for the turn, and takes the value.
    pub fn take<M: Learning<T, V>, R: Wait>(&self, rt: &R, seat: &mut Place<T, A, V>) -> T
        requires own { seat.old.table_id ≡ self.now }
        requires idle { IsAtRest seat.old × (taken seat.old ≡ None) }
        requires may { MayTake P.holds seat.old.id (view seat.old) M.then }
        ensures same { IsSameSeat seat.old seat.new × IsAtRest seat.new }
        ensures taken { (count : ℕ) × (taken seat.new ≡ Some (result, count))
            × M.then (view seat.old) count result (view seat.new) }
    {
        let place = self.draw(rt, seat);
        let shared = &self.table.shared;
        let backoff = Backoff::new();
        for _ in rt.forever() {
            if shared.load::<Look<M>>(seat, SERVED) == place {
                match shared.exchange(seat, 0, Item::Away) {
                    Item::Home(value, _) => return value,
                    _ => unreachable!(),
                }
            }
            backoff.snooze();
        }
        unreachable!()
    }

    /// Raises the count by one for the value to come, and returns it.
    pub fn raise<M: Raising<T, V>>(&self, seat: &mut Place<T, A, V>, next: &T) -> u64
        requires own { seat.old.table_id ≡ self.now }
        requires rests { IsAtRest seat.old }
        requires may { Holds (taken seat.old)
            (λ x count. MayRaise P.holds seat.old.id (view seat.old) count x next.now M.then) }
        ensures same { IsSameSeat seat.old seat.new × IsAtRest seat.new }
        ensures raised { Holds (taken seat.old) (λ x count. (result ≡ count + 1)
            × (taken seat.new ≡ Some (x, result))
            × M.then (view seat.old) count x next.now (view seat.new)) }
    {
        let shared = &self.table.shared;
        let count = shared.load::<Stand>(seat, COUNT);
        let coming = Item::Coming(Snapshot::of(next));
        shared.compare_exchange_with::<Raise<M>>(seat, COUNT, count, count + 1, &coming);
        count + 1
    }

    /// Gives a value back, and ends the turn. `done` names what was done to it.
    pub fn give<M: Giving<T, A, V>>(&self, seat: &mut Place<T, A, V>, value: T, done: &A)
        requires own { seat.old.table_id ≡ self.now }
        requires rests { IsAtRest seat.old }
        requires may { Holds (taken seat.old)
            (λ x count. MayGive P.holds seat.old.id (view seat.old) count x done.now value M.then) }
        ensures same { IsSameSeat seat.old seat.new × IsAtRest seat.new }
        ensures ended { taken seat.new ≡ None }
        ensures told { Holds (taken seat.old)
            (λ x count. M.then (view seat.old) count x done.now value (view seat.new)) }
    {
        let shared = &self.table.shared;
        drop(shared.exchange(seat, 0, Item::Home(value, Snapshot::of(done))));
        shared.fetch_add::<End<M>>(seat, SERVED, 1);
    }

    /// The count. It waits for nobody.
    pub fn count<M: Learning<T, V>>(&self, seat: &mut Place<T, A, V>) -> u64
        requires own { seat.old.table_id ≡ self.now }
        requires rests { IsAtRest seat.old }
        requires may { MayCount P.holds seat.old.id (view seat.old) M.then }
        ensures same { IsSameSeat seat.old seat.new × IsAtRest seat.new }
        ensures taken { taken seat.new ≡ taken seat.old }
        ensures counted { (x : T) × M.then (view seat.old) result x (view seat.new) }
    {
        self.table.shared.load::<Count<M>>(seat, COUNT)
    }

    /// A new seat, whose view is cut off from this one's.
    pub fn split<M: Split<V>>(&self, seat: &mut Place<T, A, V>) -> Place<T, A, V>
        requires own { seat.old.table_id ≡ self.now }
        requires rests { IsAtRest seat.old }
        requires may { MaySplit P.holds seat.old.id (view seat.old)
            (M.left (view seat.old)) (M.right (view seat.old)) }
        ensures same { IsSameSeat seat.old seat.new × IsAtRest seat.new }
        ensures taken { taken seat.new ≡ taken seat.old }
        ensures left { view seat.new ≡ M.left (view seat.old) }
        ensures own { result.table_id ≡ seat.old.table_id }
        ensures idle { IsAtRest result × (taken result ≡ None) }
        ensures right { view result ≡ M.right (view seat.old) }
    {
        self.table.shared.split_seat::<Cut<M>>(seat)
    }

    /// The seat takes in what another knows, which is then no more.
    pub fn join<M: Join<V>>(&self, seat: &mut Place<T, A, V>, other: Place<T, A, V>)
        requires own { seat.old.table_id ≡ self.now }
        requires other { other.table_id ≡ self.now }
        requires rests { IsAtRest seat.old }
        requires idle { IsAtRest other × (taken other ≡ None) }
        requires may { MayJoin P.holds seat.old.id (view seat.old) other.id (view other)
            (M.both (view seat.old) (view other)) M.spent }
        ensures same { IsSameSeat seat.old seat.new × IsAtRest seat.new }
        ensures taken { taken seat.new ≡ taken seat.old }
        ensures both { view seat.new ≡ M.both (view seat.old) (view other) }
    {
        self.table.shared.join_seat::<Glue<M>>(seat, other);
    }
}
