//! What one thread does with the plans of messages.
ghost use Rattle.std.specs.Prelude.{◌≡◌};
ghost use Rattle.mf_hub_rows.specs.Crowds.{CameFrom, HasPinned};

use mf_edition::{Edition, newest_is_last};
use mf_hub::{Hub, Pass};
use mf_hub_rows::{Walked, plan_once};
use mf_io::NoGate;
use mf_locale::{Tag, read_tag};
use mf_render::{RenderError, render};
use mf_text::{Argued, Arguments, Text};
use std::alloc::{AllocError, Global};
use std::sync::Wait;

/// Formats one of so many messages, each time another one, so many times.
pub fn format_many<R: Wait>(
    rt: &R,
    alloc: Global,
    hub: &Hub,
    pass: Pass,
    among: u32,
    times: u32,
) -> Walked
    requires { pass.hub ≡ hub.now }
    ensures { CameFrom hub.now result }
{
    let mut pass = pass;
    let misses = match read_tag(alloc, "en") {
        Ok(tag) => count_misses(rt, alloc, hub, &mut pass, &tag, among, times),
        Err(_) => 1,
    };
    Walked { pass, misses }
}

fn count_misses<R: Wait>(
    rt: &R,
    alloc: Global,
    hub: &Hub,
    pass: &mut Pass,
    tag: &Tag,
    among: u32,
    times: u32,
) -> u64
    requires { pass.old.hub ≡ hub.now }
    ensures { pass.new.hub ≡ hub.now }
{
    let mut misses: u64 = 0;
    for round in 0..times {
        let index = round.wrapping_mul(7919) % among.max(1);
        if format_once(rt, alloc, hub, pass, tag, index) != Ok(true) {
            misses = misses.saturating_add(1);
        }
    }
    misses
}

/// Pins the newest edition, formats its message at an index, and ends the pin: whether there is
/// such a message.
fn format_once<R: Wait>(
    rt: &R,
    alloc: Global,
    hub: &Hub,
    pass: &mut Pass,
    tag: &Tag,
    index: u32,
) -> Result<bool, AllocError>
    requires { pass.old.hub ≡ hub.now }
    ensures { pass.new.hub ≡ hub.now }
{
    let edition = hub.pin(rt, pass)?;
    let is_there = format_pinned(rt, alloc, hub, pass, &edition, tag, index);
    hub.unpin(rt, pass);
    is_there
}

/// The same, of the edition that is pinned.
fn format_pinned<R: Wait>(
    rt: &R,
    alloc: Global,
    hub: &Hub,
    pass: &mut Pass,
    edition: &Edition,
    tag: &Tag,
    index: u32,
) -> Result<bool, AllocError>
    requires own { pass.old.hub ≡ hub.now }
    requires pinned { HasPinned edition.now pass.old.view }
    ensures { pass.new.hub ≡ hub.now }
{
    newest_is_last();
    if index >= edition.len() {
        return Ok(false);
    }
    let plan = hub.plan(rt, pass, index)?;
    let mut arguments = Arguments::new(alloc);
    arguments.insert(alloc, "name", Argued::Text(Text::of(alloc, "Ann")?))?;
    match render(alloc, &plan, edition, tag, &arguments) {
        Ok(formatted) => Ok(formatted.parts.len() > 0),
        Err(RenderError::TooLong { .. }) => Ok(false),
        Err(RenderError::OutOfMemory) => Err(AllocError),
    }
}

/// Asks for each of so many messages once, from one of them on: how many there aren't, or found no
/// memory.
pub fn ask_each<R: Wait>(rt: &R, hub: &Hub, pass: &mut Pass, messages: u32, from: u32) -> u64
    requires { pass.old.hub ≡ hub.now }
    ensures { pass.new.hub ≡ hub.now }
{
    let mut misses: u64 = 0;
    for step in 0..messages {
        let index = from.wrapping_add(step) % messages.max(1);
        match plan_once(rt, hub, pass, index, &NoGate) {
            Ok(Some(_edition)) => {}
            _ => misses = misses.saturating_add(1),
        }
    }
    misses
}
