//! What a client of the queue states, as plain data.
ghost use Rattle.std.specs.Prelude.{ℕ, List, Option};

/// The client's rule. `T` is the value that is taken in turn, and `V` what a seat knows: its view.
pub trait QueueRule<T, V> {
    // Of the count, the value at home or as it was taken, the seat that holds the turn, and the
    // view of each seat.
    ghost holds: { ℕ → T → Option ℕ → List V → Type 0 };

    // The view of the first seat.
    ghost first: { V };
}

/// What a seat learns that takes the value, or that reads the count.
pub trait Learning<T, V> {
    // Of the view before, the count, the value and the view after.
    ghost then: { V → ℕ → T → V → Type 0 };
}

/// What a seat is told that raises the count.
pub trait Raising<T, V> {
    // Of the view before, the count before, the value as it was taken, the one to come and the view
    // after.
    ghost then: { V → ℕ → T → T → V → Type 0 };
}

/// What a seat is told that gives a value back. `A` names what was done to it.
pub trait Giving<T, A, V> {
    // Of the view before, the count, the value as it was taken, what was done, the value given and
    // the view after.
    ghost then: { V → ℕ → T → A → T → V → Type 0 };
}
