//! What a seat knows.
use std::collections::LinkedList;

/// A caller that has left.
pub struct Ended {
    pub caller: u64,
    /// How many entries it made.
    pub made: u64,
    /// How many tickets it gave back.
    pub given: u64,
}

/// What a seat knows: its view. No value of it is made.
pub struct View<E> {
    /// Its number as a caller, if it has one.
    pub number: Option<u64>,
    /// The entries that it has seen.
    pub log: LinkedList<E>,
    /// What another seat had seen that it took in. It has seen these too from the next step on that
    /// reads the log.
    pub told: LinkedList<E>,
    /// How many entries are its own.
    pub made: u64,
    /// The edition that it has pinned.
    pub pin: Option<u64>,
    /// The edition and index that it has claimed.
    pub claim: Option<(u64, u32)>,
    /// How many tickets it gave back.
    pub given: u64,
    /// How many callers it knows to have joined after the first.
    pub known: u64,
    /// The greatest number of tickets given back that it was told.
    pub heard: u64,
    /// The editions and indexes of the plans that it got.
    pub served: LinkedList<(u64, u32)>,
    /// The callers that have left into it.
    pub ended: LinkedList<Ended>,
    /// The entry whose place it has fixed in this turn.
    pub raised: Option<E>,
    /// The caller that has left into it, and is still joined in the value.
    pub leaving: Option<u64>,
}
