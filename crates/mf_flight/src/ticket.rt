ghost use Rattle.std.specs.Prelude.{◌≡◌};

use std::marker::Model;

/// The leave to compile one message of one edition, seen as that edition and that index.
///
/// It is made by `Flights::ask` alone, and it can neither be copied nor dropped: who has it gives
/// it back by
/// `Flights::quit`, or spends it.
#[derive(Debug)]
pub struct Ticket {
    edition: u64,
    index: u32,
}

impl Model for Ticket {
    ghost use Rattle.std.specs.Prelude.{ℕ};

    ghost Value = { ℕ × ℕ };

    ghost view = { λ t. (t.edition, t.index) };
}

impl Ticket {
    /// The leave for an entry.
    pub(crate) fn new(edition: u64, index: u32) -> Ticket
        ensures { result ≡ (edition, index) }
    {
        Ticket { edition, index }
    }

    /// The edition.
    pub fn edition(&self) -> u64
        ensures { result ≡ self.now.0 }
    {
        self.edition
    }

    /// The index of the message in the edition.
    pub fn index(&self) -> u32
        ensures { result ≡ self.now.1 }
    {
        self.index
    }

    /// Spends the ticket. What is left names the entry that its compilation is for.
    pub fn spend(self) -> Spent
        ensures { result ≡ self }
    {
        let Ticket { edition, index } = self;
        Spent { edition, index }
    }
}

/// A ticket that is spent, seen as its edition and its index.
#[derive(Debug, Drop)]
pub struct Spent {
    edition: u64,
    index: u32,
}

impl Model for Spent {
    ghost use Rattle.std.specs.Prelude.{ℕ};

    ghost Value = { ℕ × ℕ };

    ghost view = { λ s. (s.edition, s.index) };
}

impl Spent {
    /// The edition.
    pub fn edition(&self) -> u64
        ensures { result ≡ self.now.0 }
    {
        self.edition
    }

    /// The index of the message in the edition.
    pub fn index(&self) -> u32
        ensures { result ≡ self.now.1 }
    {
        self.index
    }
}
