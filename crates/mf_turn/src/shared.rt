//! The value that callers share.
ghost use Rattle.std.specs.Prelude.{ℕ};

use crate::View;
use mf_queue::QueueRule;
use std::marker::PhantomData;

/// A value that callers share: a log of entries, and what it knows of each caller.
pub trait Shared {
    ghost use Rattle.mf_turn.specs.Account.{Account};

    type Entry;

    // The number of the caller whose entry it is.
    ghost caller: { Self.Entry → ℕ };

    // Its number among that caller's entries, from 1.
    ghost nth: { Self.Entry → ℕ };

    // What the rule reads of a value.
    ghost account: { Self → Account Self.Entry };
}

/// The rule of a turn.
pub struct Rules<T> {
    value: PhantomData<T>,
}

impl<T: Shared> QueueRule<T, View<T::Entry>> for Rules<T> {
    ghost use Rattle.mf_turn.specs.Rule.{TurnRule, first_view};

    ghost holds = { λ count x holder views. TurnRule T.caller T.nth count (T.account x) holder views };

    ghost first = { first_view };
}
