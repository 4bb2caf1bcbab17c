//! Many passes at once.
ghost use Rattle.std.specs.Prelude.{◌≡◌, All, IfOk, None};
ghost use Rattle.mf_hub_rows.specs.Crowds.{CameFrom, IsOf};

use crate::message;
use mf_hub::{Hub, Pass};
use mf_io::PassError;
use std::alloc::{AllocError, Global};
use std::sync::Wait;
use std::thread;
use std::thread::Threads;

/// A pass that walked, and how often a number wasn't as it has to be, or a call was refused.
#[derive(Drop)]
pub struct Walked {
    pub pass: Pass,
    pub misses: u64,
}

/// Passes made from one, so many.
pub fn passes_of<R: Wait>(
    rt: &R,
    alloc: Global,
    hub: &Hub,
    from: &mut Pass,
    count: usize,
) -> Result<Vec<Pass>, PassError>
    requires { from.old.hub ≡ hub.now }
    ensures own { from.new.hub ≡ hub.now }
    ensures passes { IfOk result (λ passes. All (IsOf hub.now) passes.items) }
{
    let Ok(mut passes) = Vec::with_capacity(alloc, count) else {
        return Err(PassError::OutOfMemory);
    };
    for _ in 0..count {
        let pass = hub.new_pass(rt, from)?;
        if passes.push(pass).is_err() {
            return Err(PassError::OutOfMemory);
        }
    }
    Ok(passes)
}

/// Publishes, pins, makes a pass that publishes too, learns what that one saw, and lets it leave:
/// so many times.
pub fn walk<R: Wait>(rt: &R, alloc: Global, hub: &Hub, pass: Pass, rounds: u32) -> Walked
    requires { pass.hub ≡ hub.now }
    ensures { CameFrom hub.now result }
{
    let mut pass = pass;
    let mut misses: u64 = 0;
    for _ in 0..rounds {
        if !walk_once(rt, alloc, hub, &mut pass) {
            misses = misses.saturating_add(1);
        }
    }
    Walked { pass, misses }
}

/// One such round, and whether each number in it is as it has to be.
fn walk_once<R: Wait>(rt: &R, alloc: Global, hub: &Hub, pass: &mut Pass) -> bool
    requires { pass.old.hub ≡ hub.now }
    ensures { pass.new.hub ≡ hub.now }
{
    let before = pass.seen();
    let Ok(change) = message(alloc, "own") else {
        return false;
    };
    let Ok(edition) = hub.publish(rt, pass, change) else {
        return false;
    };
    if edition <= before || edition != pass.seen() {
        return false;
    }
    let Ok(pinned) = hub.pin(rt, pass) else {
        return false;
    };
    if pinned.number() < edition || pinned.number() != pass.seen() {
        return false;
    }
    let Ok(other) = hub.new_pass(rt, pass) else {
        return false;
    };
    let is_right = meet(rt, alloc, hub, pass, other);
    hub.unpin(rt, pass);
    is_right && hub.newest(pass) >= pinned.number()
}

/// Another pass publishes, the first one learns what it saw, and the other leaves into it.
fn meet<R: Wait>(rt: &R, alloc: Global, hub: &Hub, pass: &mut Pass, other: Pass) -> bool
    requires own { pass.old.hub ≡ hub.now }
    requires other { other.hub ≡ hub.now }
    requires unpinned { other.view.pin ≡ None }
    ensures { pass.new.hub ≡ hub.now }
{
    let mut other = other;
    let is_new = other.number() != pass.number() && other.seen() >= pass.seen();
    let Ok(change) = message(alloc, "other") else {
        return false;
    };
    let is_published = hub.publish(rt, &mut other, change).is_ok();
    let seen = other.seen();
    let note = hub.note(&mut other);
    hub.learn(pass, note);
    let has_learnt = pass.seen() >= seen;
    hub.leave(rt, pass, other);
    is_new && is_published && has_learnt && pass.seen() >= seen
}

/// Publishes so many times.
pub fn publish_many<R: Wait>(rt: &R, alloc: Global, hub: &Hub, pass: Pass, times: u32) -> Walked
    requires { pass.hub ≡ hub.now }
    ensures { CameFrom hub.now result }
{
    let mut pass = pass;
    let mut misses: u64 = 0;
    for _ in 0..times {
        let is_published = match message(alloc, "own") {
            Ok(change) => hub.publish(rt, &mut pass, change).is_ok(),
            Err(_) => false,
        };
        if !is_published {
            misses = misses.saturating_add(1);
        }
    }
    Walked { pass, misses }
}

/// The same with each of these passes, in a thread of its own.
pub fn publish_together<R: Threads + Wait + Sync>(
    rt: &R,
    alloc: Global,
    hub: &Hub,
    passes: Vec<Pass>,
    times: u32,
) -> Result<Vec<Walked>, AllocError>
    requires { All (IsOf hub.now) passes.items }
    ensures { IfOk result (λ walked. All (CameFrom hub.now) walked.items) }
{
    thread::map_vec(
        rt,
        passes,
        &|pass: Pass| -> Walked
            requires { pass.hub ≡ hub.now }
            ensures { CameFrom hub.entry.now result }
        { publish_many(rt, alloc, hub, pass, times) },
    )
}

/// Makes passes until one is refused, but no more than so many: how many were made, and the
/// refusal.
pub fn make_passes<R: Wait>(
    rt: &R,
    hub: &Hub,
    from: &mut Pass,
    most: u64,
) -> (u64, Option<PassError>)
    requires { from.old.hub ≡ hub.now }
    ensures { from.new.hub ≡ hub.now }
{
    for made in 0..most {
        if let Err(refusal) = hub.new_pass(rt, from) {
            return (made, Some(refusal));
        }
    }
    (most, None)
}

/// Walks with each of these passes, in a thread of its own.
pub fn walk_together<R: Threads + Wait + Sync>(
    rt: &R,
    alloc: Global,
    hub: &Hub,
    passes: Vec<Pass>,
    rounds: u32,
) -> Result<Vec<Walked>, AllocError>
    requires { All (IsOf hub.now) passes.items }
    ensures { IfOk result (λ walked. All (CameFrom hub.now) walked.items) }
{
    thread::map_vec(
        rt,
        passes,
        &|pass: Pass| -> Walked
            requires { pass.hub ≡ hub.now }
            ensures { CameFrom hub.entry.now result }
        { walk(rt, alloc, hub, pass, rounds) },
    )
}

/// The passes that walked, and how often something was wrong, added up.
pub fn gather(alloc: Global, hub: &Hub, walked: Vec<Walked>) -> Result<(Vec<Pass>, u64), AllocError>
    requires { All (CameFrom hub.now) walked.items }
    ensures { IfOk result (λ gathered. All (IsOf hub.now) gathered.0.items) }
{
    let mut walked = walked;
    let mut passes = Vec::with_capacity(alloc, walked.len())?;
    let mut misses: u64 = 0;
    while let Some(next) = walked.pop() {
        misses = misses.saturating_add(next.misses);
        passes.push(next.pass)?;
    }
    Ok((passes, misses))
}

/// One pass learns what each of these saw, and each learns what it saw by then.
pub fn share_notes(
    alloc: Global,
    hub: &Hub,
    home: &mut Pass,
    passes: Vec<Pass>,
) -> Result<Vec<Pass>, AllocError>
    requires home { home.old.hub ≡ hub.now }
    requires passes { All (IsOf hub.now) passes.items }
    ensures home { home.new.hub ≡ hub.now }
    ensures passes { IfOk result (λ passes. All (IsOf hub.now) passes.items) }
{
    let mut passes = passes;
    let mut shared = Vec::with_capacity(alloc, passes.len())?;
    while let Some(next) = passes.pop() {
        let mut pass = next;
        let note = hub.note(&mut pass);
        hub.learn(home, note);
        let back = hub.note(home);
        hub.learn(&mut pass, back);
        shared.push(pass)?;
    }
    Ok(shared)
}

/// The same so many times, in threads, and each time they then learn from one another what they
/// saw: the passes, and how often something was wrong.
pub fn walk_often<R: Threads + Wait + Sync>(
    rt: &R,
    alloc: Global,
    hub: &Hub,
    home: &mut Pass,
    passes: Vec<Pass>,
    times: u32,
    rounds: u32,
) -> Result<(Vec<Pass>, u64), AllocError>
    requires home { home.old.hub ≡ hub.now }
    requires passes { All (IsOf hub.now) passes.items }
    ensures home { home.new.hub ≡ hub.now }
    ensures passes { IfOk result (λ walked. All (IsOf hub.now) walked.0.items) }
{
    let mut passes = passes;
    let mut misses: u64 = 0;
    for _ in 0..times {
        let walked = walk_together(rt, alloc, hub, passes, rounds)?;
        let (walkers, missed) = gather(alloc, hub, walked)?;
        misses = misses.saturating_add(missed);
        passes = share_notes(alloc, hub, home, walkers)?;
    }
    Ok((passes, misses))
}

/// All of these leave into one.
pub fn leave_all<R: Wait>(rt: &R, hub: &Hub, home: &mut Pass, passes: Vec<Pass>)
    requires home { home.old.hub ≡ hub.now }
    requires passes { All (IsOf hub.now) passes.items }
    ensures { home.new.hub ≡ hub.now }
{
    let mut passes = passes;
    while let Some(next) = passes.pop() {
        let mut pass = next;
        hub.unpin(rt, &mut pass);
        hub.leave(rt, home, pass);
    }
}
