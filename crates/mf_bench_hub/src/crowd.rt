//! The same in several threads.
ghost use Rattle.std.specs.Prelude.{◌≡◌, All, IfOk};
ghost use Rattle.mf_hub_rows.specs.Crowds.{CameFrom, IsOf};

use crate::calls::{pin_many, publish_many};
use crate::changes::messages;
use crate::plans::{ask_each, format_many};
use mf_hub::{Hub, Pass};
use mf_hub_rows::{Walked, gather, passes_of};
use std::alloc::{AllocError, Global};
use std::sync::Wait;
use std::thread;
use std::thread::Threads;

/// The most messages of one publication.
const CATALOGUE: u32 = 4_000;

/// What the callers of a hub do.
#[derive(Clone, Copy, PartialEq, Eq)]
pub enum Call {
    /// They publish one message.
    Publish,
    /// They pin and unpin, while one more caller publishes.
    Pin,
    /// They format messages that are ready.
    Format,
    /// They ask for all messages, of which none is ready.
    Ask,
}

/// What is timed.
#[derive(Clone, Copy)]
pub struct Task {
    pub call: Call,
    /// How many messages the newest edition has.
    pub messages: u32,
    pub threads: usize,
    /// How often each of them does it.
    pub count: u32,
}

/// The number of the newest edition after a task, and how many calls were refused.
pub fn outcome<R: Threads + Wait + Sync>(
    rt: &R,
    alloc: Global,
    task: Task,
) -> Result<(u64, u64), AllocError> {
    let (hub, mut home) = Hub::new(alloc)?;
    fill(rt, alloc, &hub, &mut home, task.messages)?;
    let count = task
        .threads
        .saturating_add(usize::from(task.call == Call::Pin));
    let passes = passes_of(rt, alloc, &hub, &mut home, count).map_err(|_| AllocError)?;
    let misses = match task.call {
        Call::Ask => ask_often(rt, alloc, &hub, &mut home, passes, task)?,
        Call::Format => {
            let unready = ask_each(rt, &hub, &mut home, task.messages, 0);
            walked_misses(rt, alloc, &hub, passes, task)?.saturating_add(unready)
        }
        Call::Publish | Call::Pin => walked_misses(rt, alloc, &hub, passes, task)?,
    };
    Ok((hub.newest(&mut home), misses))
}

/// A task done once, and how many calls were refused.
fn walked_misses<R: Threads + Wait + Sync>(
    rt: &R,
    alloc: Global,
    hub: &Hub,
    passes: Vec<Pass>,
    task: Task,
) -> Result<u64, AllocError>
    requires { All (IsOf hub.now) passes.items }
{
    let walked = walk_together(rt, alloc, hub, passes, task)?;
    let (_passes, misses) = gather(alloc, hub, walked)?;
    Ok(misses)
}

/// Publishes a message anew, so that none is ready, and asks for all of them in threads: so often.
/// How many calls were refused, and how often not each message had been compiled just once.
fn ask_often<R: Threads + Wait + Sync>(
    rt: &R,
    alloc: Global,
    hub: &Hub,
    home: &mut Pass,
    passes: Vec<Pass>,
    task: Task,
) -> Result<u64, AllocError>
    requires home { home.old.hub ≡ hub.now }
    requires passes { All (IsOf hub.now) passes.items }
    ensures { home.new.hub ≡ hub.now }
{
    let mut passes = passes;
    let mut misses: u64 = 0;
    for _ in 0..task.count {
        fill(rt, alloc, hub, home, task.messages.min(1))?;
        let walked = walk_together(rt, alloc, hub, passes, task)?;
        let (walkers, missed) = gather(alloc, hub, walked)?;
        passes = walkers;
        let is_once = hub.stat(rt, home).starts == u64::from(task.messages);
        misses = misses
            .saturating_add(missed)
            .saturating_add(u64::from(!is_once));
    }
    Ok(misses)
}

/// Publishes so many messages.
fn fill<R: Wait>(
    rt: &R,
    alloc: Global,
    hub: &Hub,
    home: &mut Pass,
    count: u32,
) -> Result<(), AllocError>
    requires { home.old.hub ≡ hub.now }
    ensures { home.new.hub ≡ hub.now }
{
    let mut from = 0;
    while from < count {
        let to = from.saturating_add(CATALOGUE).min(count);
        let change = messages(alloc, from, to)?;
        hub.publish(rt, home, change).map_err(|_| AllocError)?;
        from = to;
    }
    Ok(())
}

/// A task, each pass in a thread of its own.
fn walk_together<R: Threads + Wait + Sync>(
    rt: &R,
    alloc: Global,
    hub: &Hub,
    passes: Vec<Pass>,
    task: Task,
) -> Result<Vec<Walked>, AllocError>
    requires { All (IsOf hub.now) passes.items }
    ensures { IfOk result (λ walked. All (CameFrom hub.now) walked.items) }
{
    thread::map_vec(
        rt,
        passes,
        &|pass: Pass| -> Walked
            requires { pass.hub ≡ hub.now }
            ensures { CameFrom hub.entry.now result }
        { walk(rt, alloc, hub, pass, task) },
    )
}

/// What one of them does.
fn walk<R: Wait>(rt: &R, alloc: Global, hub: &Hub, pass: Pass, task: Task) -> Walked
    requires { pass.hub ≡ hub.now }
    ensures { CameFrom hub.now result }
{
    match task.call {
        Call::Publish => publish_many(rt, alloc, hub, pass, task.messages, task.count),
        Call::Pin if pass.number() == 1 => {
            publish_many(rt, alloc, hub, pass, task.messages, task.count / 100)
        }
        Call::Pin => pin_many(rt, hub, pass, task.count),
        Call::Format => format_many(rt, alloc, hub, pass, task.messages, task.count),
        Call::Ask => ask_in_turn(rt, hub, pass, task),
    }
}

/// Asks for all messages, each caller from a message of its own on.
fn ask_in_turn<R: Wait>(rt: &R, hub: &Hub, pass: Pass, task: Task) -> Walked
    requires { pass.hub ≡ hub.now }
    ensures { CameFrom hub.now result }
{
    let mut pass = pass;
    let threads = u32::try_from(task.threads).unwrap_or(u32::MAX).max(1);
    let number = u32::try_from(pass.number()).unwrap_or(0);
    let from = (task.messages / threads).wrapping_mul(number);
    let misses = ask_each(rt, hub, &mut pass, task.messages, from);
    Walked { pass, misses }
}
