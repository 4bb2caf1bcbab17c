//! Callers that ask for messages, each in a thread of its own.
ghost use Rattle.std.specs.Prelude.{◌≡◌, All, IfOk};
ghost use Rattle.mf_hub_rows.specs.Crowds.{CameBack, IsOf};

use crate::{Compilations, Hold, message, plan_once};
use mf_hub::{Hub, Pass};
use mf_io::{NoGate, Place};
use rand::seq::SliceRandom;
use rand_core::SeedableRng;
use rand_pcg::Pcg32;
use std::alloc::{AllocError, Global};
use std::collections::BTreeSet;
use std::sync::Wait;
use std::thread;
use std::thread::Threads;

/// A pass that asked, how often something wasn't as it has to be, and which messages it compiled,
/// each by the number of its edition and its index.
#[derive(Drop)]
pub struct Asker {
    pub pass: Pass,
    pub misses: u64,
    pub compiled: Vec<(u64, u32)>,
}

/// Each of these passes but the last, so many, asks for message 0 through a gate that holds who
/// compiles it. The last one asks for message 1 beside them, and then opens the gate. Each does it
/// in a thread of its own.
pub fn ask_at_gate<R: Threads + Wait + Sync>(
    rt: &R,
    alloc: Global,
    hub: &Hub,
    passes: Vec<Pass>,
    gate: &Hold,
    others: u64,
) -> Result<Vec<Asker>, AllocError>
    requires { All (IsOf hub.now) passes.items }
    ensures { IfOk result (λ askers. All (CameBack hub.now) askers.items) }
{
    thread::map_vec(
        rt,
        passes,
        &|pass: Pass| -> Asker
            requires { pass.hub ≡ hub.now }
            ensures { CameBack hub.entry.now result }
        { ask_in_place(rt, alloc, hub, pass, gate, others) },
    )
}

/// What one of them does.
fn ask_in_place<R: Wait>(
    rt: &R,
    alloc: Global,
    hub: &Hub,
    pass: Pass,
    gate: &Hold,
    others: u64,
) -> Asker
    requires { pass.hub ≡ hub.now }
    ensures { CameBack hub.now result }
{
    let mut pass = pass;
    let is_right = if pass.number() > others {
        ask_beside(rt, hub, &mut pass, gate, others)
    } else {
        has_plan(plan_once(rt, hub, &mut pass, 0, gate))
    };
    Asker {
        pass,
        misses: u64::from(!is_right),
        compiled: Vec::new(alloc),
    }
}

/// Asks for message 1 once so many others have asked for message 0, of whom the gate holds one, and
/// opens the gate: whether it was answered before.
fn ask_beside<R: Wait>(rt: &R, hub: &Hub, pass: &mut Pass, gate: &Hold, others: u64) -> bool
    requires { pass.old.hub ≡ hub.now }
    ensures { pass.new.hub ≡ hub.now }
{
    let have_come = gate.await_at(Place::BeforePin, others)
        && gate.await_at(Place::BeforeCompile, 1);
    let is_answered = has_plan(plan_once(rt, hub, pass, 1, &NoGate));
    let is_held = gate.come(Place::AfterCompile) == 0 && !gate.was_left();
    gate.open();
    have_come && is_answered && is_held
}

fn has_plan(asked: Result<Option<u64>, AllocError>) -> bool {
    match asked {
        Ok(edition) => edition.is_some(),
        Err(_) => false,
    }
}

/// Each of these passes but the last, so many, asks for so many messages in a random order. The
/// last one publishes so many times meanwhile. Each does it in a thread of its own.
pub fn ask_together<R: Threads + Wait + Sync>(
    rt: &R,
    alloc: Global,
    hub: &Hub,
    passes: Vec<Pass>,
    askers: u64,
    messages: u32,
    times: u32,
) -> Result<Vec<Asker>, AllocError>
    requires { All (IsOf hub.now) passes.items }
    ensures { IfOk result (λ askers. All (CameBack hub.now) askers.items) }
{
    thread::map_vec(
        rt,
        passes,
        &|pass: Pass| -> Asker
            requires { pass.hub ≡ hub.now }
            ensures { CameBack hub.entry.now result }
        {
            if pass.number() > askers {
                publish_beside(rt, alloc, hub, pass, messages, times)
            } else {
                ask_all(rt, alloc, hub, pass, messages)
            }
        },
    )
}

/// Asks for so many messages in a random order.
pub fn ask_all<R: Wait>(rt: &R, alloc: Global, hub: &Hub, pass: Pass, messages: u32) -> Asker
    requires { pass.hub ≡ hub.now }
    ensures { CameBack hub.now result }
{
    let mut pass = pass;
    let mut compiled = Vec::new(alloc);
    let misses = match shuffled(alloc, messages, pass.number()) {
        Ok(order) => ask_in_order(rt, hub, &mut pass, &order, &mut compiled),
        Err(_) => 1,
    };
    Asker {
        pass,
        misses,
        compiled,
    }
}

/// The numbers below a count, in an order that a seed gives.
fn shuffled(alloc: Global, count: u32, seed: u64) -> Result<Vec<u32>, AllocError> {
    let mut order = Vec::with_capacity(alloc, count as usize)?;
    for index in 0..count {
        order.push(index)?;
    }
    order.shuffle(&mut Pcg32::seed_from_u64(seed));
    Ok(order)
}

/// Asks for messages one after the other: how often something was wrong where an edition has as
/// many messages.
fn ask_in_order<R: Wait>(
    rt: &R,
    hub: &Hub,
    pass: &mut Pass,
    order: &[u32],
    compiled: &mut Vec<(u64, u32)>,
) -> u64
    requires { pass.old.hub ≡ hub.now }
    ensures { pass.new.hub ≡ hub.now }
{
    let mut misses: u64 = 0;
    for index in order {
        match ask_one(rt, hub, pass, *index, compiled) {
            Ok(starts) if starts <= order.len() as u64 => {}
            _ => misses = misses.saturating_add(1),
        }
    }
    misses
}

/// Asks for one message, notes whether it was compiled for that, and gives the starts of the newest
/// edition, or more than there can be where something is wrong.
fn ask_one<R: Wait>(
    rt: &R,
    hub: &Hub,
    pass: &mut Pass,
    index: u32,
    compiled: &mut Vec<(u64, u32)>,
) -> Result<u64, AllocError>
    requires { pass.old.hub ≡ hub.now }
    ensures { pass.new.hub ≡ hub.now }
{
    let gate = Compilations::new();
    let Some(edition) = plan_once(rt, hub, pass, index, &gate)? else {
        return Ok(u64::MAX);
    };
    for _ in 0..gate.count() {
        compiled.push((edition, index))?;
    }
    let stat = hub.stat(rt, pass);
    if stat.edition < edition || stat.quits > 0 {
        return Ok(u64::MAX);
    }
    Ok(stat.starts)
}

/// Publishes one message so many times, and looks at the counts behind each.
fn publish_beside<R: Wait>(
    rt: &R,
    alloc: Global,
    hub: &Hub,
    pass: Pass,
    messages: u32,
    times: u32,
) -> Asker
    requires { pass.hub ≡ hub.now }
    ensures { CameBack hub.now result }
{
    let mut pass = pass;
    let mut misses: u64 = 0;
    for _ in 0..times {
        let published = match message(alloc, "m-0") {
            Ok(change) => hub.publish(rt, &mut pass, change).ok(),
            Err(_) => None,
        };
        let stat = hub.stat(rt, &mut pass);
        let is_counted = stat.quits == 0 && stat.starts <= u64::from(messages);
        if !is_counted || published != Some(stat.edition) {
            misses = misses.saturating_add(1);
        }
    }
    Asker {
        pass,
        misses,
        compiled: Vec::new(alloc),
    }
}

/// What all of these compiled, and how often something was wrong: a message that was compiled twice
/// in one edition counts too. Each pass leaves into one.
pub fn collect<R: Wait>(
    rt: &R,
    alloc: Global,
    hub: &Hub,
    home: &mut Pass,
    askers: Vec<Asker>,
) -> Result<(BTreeSet<(u64, u32)>, u64), AllocError>
    requires home { home.old.hub ≡ hub.now }
    requires askers { All (CameBack hub.now) askers.items }
    ensures { home.new.hub ≡ hub.now }
{
    let mut askers = askers;
    let mut all = BTreeSet::new(alloc);
    let mut misses: u64 = 0;
    while let Some(next) = askers.pop() {
        let Asker {
            pass,
            misses: missed,
            compiled,
        } = next;
        let again = note_all(&mut all, &compiled)?;
        misses = misses.saturating_add(missed).saturating_add(again);
        let mut pass = pass;
        hub.unpin(rt, &mut pass);
        hub.leave(rt, home, pass);
    }
    Ok((all, misses))
}

/// Puts compilations among others: how many of them were there already.
fn note_all(all: &mut BTreeSet<(u64, u32)>, compiled: &[(u64, u32)]) -> Result<u64, AllocError> {
    let mut again: u64 = 0;
    for pair in compiled {
        if !all.insert(*pair)? {
            again = again.saturating_add(1);
        }
    }
    Ok(again)
}
