//! Turns at a tally that threads share.
use mf_turn::Turn;
use mf_turn_rows::{Tally, add_together, shadows, watch};
use std::alloc::{AllocError, Global};
use std::sync::Wait;
use std::thread::Threads;

/// So many turns in each of so many threads, and the sum that the tally then has.
pub fn taken<R: Threads + Wait + Sync>(
    rt: &R,
    alloc: Global,
    threads: usize,
    count: u64,
) -> Result<u64, AllocError> {
    let (turn, mut first) = Turn::new(alloc, Tally::new(alloc)?)?;
    let seats = shadows(alloc, &turn, &mut first, threads)?;
    let seats = add_together(rt, &turn, seats, count)?;
    let tally = turn.take(rt, &mut first);
    Ok(tally.sum.wrapping_add(seats.len() as u64))
}

/// So many readings of the count, two by two, while nobody publishes.
pub fn counted(alloc: Global, count: u64) -> Result<u64, AllocError> {
    let (turn, mut first) = Turn::new(alloc, Tally::new(alloc)?)?;
    let seat = turn.split(&mut first);
    Ok(watch(&turn, seat, count / 2).unwrap_or(1))
}
