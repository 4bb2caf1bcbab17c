//! Many seats at once.
ghost use Rattle.std.specs.Prelude.{◌≡◌, ◌≢◌, ◌≤◌, ◌+◌, None, Some, All, IfOk, vec_len};
ghost use Rattle.mf_turn_rows.specs.Tallies.{IsFree, IsShadow, SameCaller};

use crate::{Entry, Tally, add, publish};
use mf_turn::{Seat, Turn};
use std::alloc::{AllocError, Global};
use std::sync::Wait;
use std::thread;
use std::thread::Threads;

/// Seats without numbers, so many, split off from one.
pub fn shadows(
    alloc: Global,
    turn: &Turn<Tally>,
    from: &mut Seat<Tally>,
    count: usize,
) -> Result<Vec<Seat<Tally>>, AllocError>
    requires { from.old.turn ≡ turn.now }
    ensures same { from.new ≡ from.old }
    ensures shadows { IfOk result (λ v. All (IsShadow turn.now) v.items) }
{
    let mut seats = Vec::with_capacity(alloc, count)?;
    for _ in 0..count {
        seats.push(turn.split(from))?;
    }
    Ok(seats)
}

/// Adds one to the sum so many times.
pub fn add_many<R: Wait>(rt: &R, turn: &Turn<Tally>, seat: Seat<Tally>, times: u64) -> Seat<Tally>
    requires { IsShadow turn.now seat }
    ensures { IsShadow turn.now result }
{
    let mut seat = seat;
    for _ in 0..times {
        add(rt, turn, &mut seat);
    }
    seat
}

/// The same at each of the seats, in a thread of its own.
pub fn add_together<R: Threads + Wait + Sync>(
    rt: &R,
    turn: &Turn<Tally>,
    seats: Vec<Seat<Tally>>,
    times: u64,
) -> Result<Vec<Seat<Tally>>, AllocError>
    requires { All (IsShadow turn.now) seats.items }
    ensures { IfOk result (λ v. All (IsShadow turn.now) v.items) }
{
    thread::map_vec(
        rt,
        seats,
        &|seat: Seat<Tally>| -> Seat<Tally>
            requires { IsShadow turn.now seat }
            ensures { IsShadow turn.entry.now result }
        { add_many(rt, turn, seat, times) },
    )
}

/// Joins seats without numbers back into one.
pub fn gather(turn: &Turn<Tally>, into: &mut Seat<Tally>, seats: Vec<Seat<Tally>>)
    requires free { IsFree turn.now into.old }
    requires leaving { into.old.view.leaving ≡ None }
    requires shadows { All (IsShadow turn.now) seats.items }
    ensures free { IsFree turn.now into.new }
{
    let mut seats = seats;
    while let Some(seat) = seats.pop() {
        turn.join(into, seat);
    }
}

/// Publishes a caller's first entries, so many.
pub fn publish_many<R: Wait>(
    rt: &R,
    turn: &Turn<Tally>,
    seat: Seat<Tally>,
    caller: u64,
    times: u32,
) -> Result<Seat<Tally>, AllocError>
    requires free { IsFree turn.now seat }
    requires number { seat.view.number ≡ Some caller }
    requires made { seat.view.made ≡ 0 }
    ensures free { IfOk result (λ s. s.taken ≡ None) }
    ensures same { IfOk result (λ s. SameCaller seat s) }
{
    let mut seat = seat;
    for made in 0..times {
        let nth = made as u64 + 1;
        publish(rt, turn, &mut seat, Entry { caller, nth })?;
    }
    Ok(seat)
}

/// Counts twice. The count doesn't fall between.
pub fn count_twice(turn: &Turn<Tally>, seat: &mut Seat<Tally>) -> (u64, u64)
    requires { IsFree turn.now seat.old }
    ensures free { IsFree turn.now seat.new }
    ensures rises { result.0 ≤ result.1 }
{
    let first = turn.count(seat);
    let second = turn.count(seat);
    (first, second)
}

/// Counts so many times, and answers the last count, or none where a count was less than the one
/// before.
pub fn watch(turn: &Turn<Tally>, seat: Seat<Tally>, times: u64) -> Option<u64>
    requires { IsFree turn.now seat }
{
    let mut seat = seat;
    let mut last = 0;
    for _ in 0..times {
        let (first, second) = count_twice(turn, &mut seat);
        if first < last || second < first {
            return None;
        }
        last = second;
    }
    Some(last)
}

/// Publishes in one thread and counts in another.
pub fn publish_and_watch<R: Threads + Wait + Sync>(
    rt: &R,
    turn: &Turn<Tally>,
    writer: Seat<Tally>,
    watcher: Seat<Tally>,
    times: u32,
) -> (Result<Seat<Tally>, AllocError>, Option<u64>)
    requires writer { IsFree turn.now writer }
    requires number { (writer.view.number ≡ Some 0) × (writer.view.made ≡ 0) }
    requires watcher { IsFree turn.now watcher }
    ensures { IfOk result.0 (λ s. IsFree turn.now s) }
{
    thread::join(
        rt,
        move || -> Result<Seat<Tally>, AllocError>
            requires { IsFree turn.now writer × (writer.view.number ≡ Some 0)
                × (writer.view.made ≡ 0) }
            ensures { IfOk result (λ s. IsFree turn.entry.now s) }
        { publish_many(rt, turn, writer, 0, times) },
        move || -> Option<u64>
            requires { IsFree turn.now watcher }
        { watch(turn, watcher, times as u64) },
    )
}
