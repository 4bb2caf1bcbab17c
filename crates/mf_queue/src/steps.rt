//! What each step on the table tells. These types are for the proofs alone.
ghost use Rattle.mf_queue.specs.Queue.{idle, standing};
ghost use Rattle.mf_queue.specs.Steps.{Draws, Looks, Stands, Ends, Counts, Raises};

use crate::{Giving, Item, Knowledge, Learning, Raising};
use atomic_table::{Join, Play, Split};
use std::marker::PhantomData;

/// A place is drawn.
pub struct Draw;

impl<T, A, V> Play<Item<T, A>, Knowledge<T, V>> for Draw {
    ghost then = { Draws };
}

/// A seat that waits looks whose turn it is.
pub struct Look<M> {
    learning: PhantomData<M>,
}

impl<T, A, V, M: Learning<T, V>> Play<Item<T, A>, Knowledge<T, V>> for Look<M> {
    ghost then = { Looks M.then };
}

/// The turn ends.
pub struct End<M> {
    giving: PhantomData<M>,
}

impl<T, A, V, M: Giving<T, A, V>> Play<Item<T, A>, Knowledge<T, V>> for End<M> {
    ghost then = { Ends M.then };
}

/// The count is read.
pub struct Count<M> {
    learning: PhantomData<M>,
}

impl<T, A, V, M: Learning<T, V>> Play<Item<T, A>, Knowledge<T, V>> for Count<M> {
    ghost then = { Counts M.then };
}

/// The holder reads the count, and learns nothing else.
pub struct Stand;

impl<T, A, V> Play<Item<T, A>, Knowledge<T, V>> for Stand {
    ghost then = { Stands };
}

/// The holder raises the count.
pub struct Raise<M> {
    raising: PhantomData<M>,
}

impl<T, A, V, M: Raising<T, V>> Play<Item<T, A>, Knowledge<T, V>> for Raise<M> {
    ghost then = { Raises M.then };
}

/// A view is cut, and the new seat is idle.
pub struct Cut<M> {
    split: PhantomData<M>,
}

impl<T, V, M: Split<V>> Split<Knowledge<T, V>> for Cut<M> {
    ghost left = { λ k. standing k.stage (M.left k.view) };

    ghost right = { λ k. idle (M.right k.view) };
}

/// Two views are made one. The seat stays where it stands.
pub struct Glue<M> {
    join: PhantomData<M>,
}

impl<T, V, M: Join<V>> Join<Knowledge<T, V>> for Glue<M> {
    ghost both = { λ k l. standing k.stage (M.both k.view l.view) };

    ghost spent = { idle M.spent };
}
