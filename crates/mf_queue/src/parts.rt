//! What a queue is made of.
use crate::QueueRule;
use atomic_table::{Seat, Table, TableRule};
use std::alloc::Global;
use std::marker::PhantomData;
use std::snapshot::Snapshot;

/// Where a seat stands in a queue.
pub enum Stage<X> {
    Idle,
    /// It has drawn this place.
    Waiting(u64),
    /// It has this place, whose turn it is, and took this out of the slot.
    Holding(u64, X),
}

/// What lies in the slot.
#[derive(Drop)]
pub enum Item<T, A> {
    Away,
    /// The value, and what was done to it last.
    Home(T, Snapshot<A>),
    /// The value to come, for a step that names it. It never lies in the slot.
    Coming(Snapshot<T>),
}

/// What a seat knows: where it stands, with the value that it took and the count; and its view.
///
/// No value of it is made.
pub struct Knowledge<T, V> {
    pub stage: Stage<(T, u64)>,
    pub view: V,
}

/// The rule of the table: that of the queue, and the client's.
pub struct Rules<P> {
    client: PhantomData<P>,
}

impl<T, A, V, P: QueueRule<T, V>> TableRule<Item<T, A>, Knowledge<T, V>, ()> for Rules<P> {
    ghost use Rattle.mf_queue.specs.Queue.{Queued, idle};

    ghost holds = { λ _. Queued P.holds };

    ghost first = { λ _. idle P.first };
}

/// The words and the slot of a queue.
pub type Board<T, A, V, P> = Table<Item<T, A>, Knowledge<T, V>, (), Rules<P>, Global>;

/// A seat at a queue: what one caller knows, in a token of no bytes.
pub type Place<T, A, V> = Seat<Item<T, A>, Knowledge<T, V>>;
