//! The value that is shared.
ghost use Rattle.std.specs.Prelude.{◌≡◌, ◌<◌, true, length, vec_len, vec_capacity, IfOk, MatchResult};
ghost use Rattle.mf_turn.specs.Account.{IsAlike, IsNew, Joins, Leaves, Publishes};
ghost use Rattle.mf_turn_rows.specs.Tallies.{account_of, is_present};

use mf_turn::Shared;
use std::alloc::{AllocError, Global};

/// The most entries that a tally has.
const MOST_ENTRIES: usize = 1_000_000;

/// An entry of the log: whose it is, and which of that caller's, from 1.
#[derive(Clone, Copy, Debug, PartialEq, Eq)]
pub struct Entry {
    pub caller: u64,
    pub nth: u64,
}

/// What the tally keeps of a caller.
#[derive(Clone, Copy, Debug)]
pub struct Caller {
    pub present: bool,
}

/// A log, its callers, and a sum.
#[derive(Drop)]
pub struct Tally {
    pub log: Vec<Entry>,
    pub callers: Vec<Caller>,
    pub sum: u64,
}

impl Shared for Tally {
    ghost use Rattle.mf_turn_rows.specs.Tallies.{account_of, caller_of, nth_of};

    type Entry = Entry;

    ghost caller = { caller_of };

    ghost nth = { nth_of };

    ghost account = { account_of };
}

impl Tally {
    /// The tally of caller 0, with no entry and the sum 0.
    pub fn new(alloc: Global) -> Result<Tally, AllocError>
        ensures { IfOk result (λ t. IsNew (account_of t)) }
    {
        let mut callers = Vec::with_capacity(alloc, 1)?;
        callers.push_reserved(Caller { present: true });
        Ok(Tally {
            log: Vec::new(alloc),
            callers,
            sum: 0,
        })
    }

    /// Adds one to the sum, which wraps.
    pub fn add_one(&mut self)
        ensures { IsAlike (account_of self.old) (account_of self.new) }
    {
        self.sum = self.sum.wrapping_add(1);
    }

    /// Makes room for one entry more. It is refused where there are 1,000,000, and without memory.
    pub fn reserve(&mut self) -> Result<(), AllocError>
        ensures same { IsAlike (account_of self.old) (account_of self.new) }
        ensures few { IfOk result (λ _. length self.old.log.items < 1000000) }
        ensures room { IfOk result (λ _. vec_len self.new.log < vec_capacity self.new.log) }
    {
        if self.log.len() >= MOST_ENTRIES {
            return Err(AllocError);
        }
        self.log.reserve(1)
    }

    /// Puts an entry at the end of the log.
    pub fn push(&mut self, entry: Entry)
        requires { vec_len self.old.log < vec_capacity self.old.log }
        ensures { Publishes entry (account_of self.old) (account_of self.new) }
    {
        self.log.push_reserved(entry);
    }

    /// The next caller joins, and its number is returned.
    pub fn add_caller(&mut self) -> Result<u64, AllocError>
        ensures number { IfOk result (λ n. n ≡ vec_len self.old.callers) }
        ensures joins { MatchResult result (λ _. Joins (account_of self.old) (account_of self.new))
            (λ _. IsAlike (account_of self.old) (account_of self.new)) }
    {
        let number = self.callers.len() as u64;
        self.callers.push(Caller { present: true })?;
        Ok(number)
    }

    /// A caller leaves.
    pub fn end_caller(&mut self, number: u64)
        requires { is_present self.old.callers.items number ≡ true }
        ensures { Leaves number (account_of self.old) (account_of self.new) }
    {
        self.callers[number as usize] = Caller { present: false };
    }
}
