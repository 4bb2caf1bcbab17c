//! What each step of the queue tells a seat. These types are for the proofs alone.
ghost use Rattle.std.specs.Prelude.{◌≡◌, ◌+◌, length};
ghost use Rattle.mf_turn.specs.Acts.{after, caught_up, joined_with, shadow_of, spent_view, Fixes};
ghost use Rattle.mf_turn.specs.Taught.{Counted, Teaches};

use crate::{Act, Shared, View};
use atomic_table::{Join, Split};
use mf_queue::{Giving, Learning, Raising};
use std::marker::PhantomData;

/// The value is taken.
pub struct Takes<T> {
    value: PhantomData<T>,
}

impl<T: Shared> Learning<T, View<T::Entry>> for Takes<T> {
    ghost then = { λ v count x w.
        (w ≡ caught_up v (T.account x)) × Teaches T.caller T.nth (T.account x) v };
}

/// The count is read.
pub struct Counts<T> {
    value: PhantomData<T>,
}

impl<T: Shared> Learning<T, View<T::Entry>> for Counts<T> {
    ghost then = { λ v count x w. Counted T.caller count v w };
}

/// The count is raised.
pub struct Raises<T> {
    value: PhantomData<T>,
}

impl<T: Shared> Raising<T, View<T::Entry>> for Raises<T> {
    ghost then = { λ v count x y w.
        (count + 1 ≡ length (T.account y).log) × Fixes (T.account x) (T.account y) v w };
}

/// The value is given back.
pub struct Ends<T> {
    value: PhantomData<T>,
}

impl<T: Shared> Giving<T, Act, View<T::Entry>> for Ends<T> {
    ghost then = { λ v count x act y w. w ≡ after act (T.account x) v };
}

/// A seat with no number is split off.
pub struct Shadow;

impl<E> Split<View<E>> for Shadow {
    ghost left = { λ v. v };

    ghost right = { shadow_of };
}

/// One seat takes in what another knows.
pub struct Merge;

impl<E> Join<View<E>> for Merge {
    ghost both = { joined_with };

    ghost spent = { spent_view };
}
