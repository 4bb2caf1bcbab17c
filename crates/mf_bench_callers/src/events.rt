//! The events of a mixed script: eight callers pin, ask two by two for one message, have it
//! compiled or don't, and unpin.
ghost use Rattle.std.specs.Prelude.{IfOk};
ghost use Rattle.mf_core.specs.Running.{IsWhole};

use mf_core::{CoreError, Event, Told, World, step};
use mf_edition::{Catalogue, Change};
use mf_locale::read_tag;
use std::alloc::{AllocError, Global};

/// How many callers there are.
const CALLERS: u64 = 8;

/// How many messages there are.
const MESSAGES: u32 = 100;

/// How many events there are from one publication to the next.
const EVENTS: u64 = 4_096;

/// What so many events are told, in one number.
pub fn told(alloc: Global, count: u64) -> Result<u64, AllocError> {
    let mut world = World::new(alloc)?;
    let told = among(alloc, &mut world, count);
    world.end();
    told
}

/// The same in a World.
fn among(alloc: Global, world: &mut World, count: u64) -> Result<u64, AllocError>
    requires { IsWhole world.old }
    ensures { IsWhole world.new }
{
    begin(alloc, world)?;
    let mut sum = 0u64;
    for number in 0..count {
        sum = sum.wrapping_add(next(alloc, world, number)?);
    }
    Ok(sum)
}

/// The callers join, and the messages are published.
fn begin(alloc: Global, world: &mut World) -> Result<(), AllocError>
    requires { IsWhole world.old }
    ensures { IsWhole world.new }
{
    for caller in 0..CALLERS {
        tell(world, Event::Join { caller })?;
    }
    let change = messages(alloc, MESSAGES)?;
    tell(world, Event::Publish { caller: 0, change })?;
    Ok(())
}

/// One more event, behind a publication where one is due.
fn next(alloc: Global, world: &mut World, number: u64) -> Result<u64, AllocError>
    requires { IsWhole world.old }
    ensures { IsWhole world.new }
{
    if number % EVENTS == 0 {
        let change = messages(alloc, 1)?;
        tell(world, Event::Publish { caller: 0, change })?;
    }
    tell(world, event(number))
}

/// An event by its number.
fn event(number: u64) -> Event {
    let caller = number % CALLERS;
    let round = number / CALLERS;
    match round % 4 {
        0 => Event::Pin { caller },
        1 => Event::Ask {
            caller,
            index: ((round / 4).wrapping_add(caller / 2) % MESSAGES as u64) as u32,
        },
        2 => Event::Done { caller },
        _ => Event::Unpin { caller },
    }
}

/// What an event is told, as a number.
fn tell(world: &mut World, event: Event) -> Result<u64, AllocError>
    requires { IsWhole world.old }
    ensures { IsWhole world.new }
{
    match step(world, event) {
        Ok(Told::Joined) => Ok(1),
        Ok(Told::Published { edition } | Told::Pinned { edition }) => Ok(edition),
        Ok(Told::Ready) => Ok(2),
        Ok(Told::Claimed) => Ok(3),
        Ok(Told::Busy) => Ok(4),
        Ok(Told::Ended) => Ok(5),
        Err(CoreError::OutOfMemory) => Err(AllocError),
        Err(_) => Ok(6),
    }
}

/// A publication of so many messages.
fn messages(alloc: Global, count: u32) -> Result<Change, AllocError> {
    let tag = read_tag(alloc, "en").map_err(|_| AllocError)?;
    let mut catalogue = Catalogue::new(alloc, tag, count as usize)?;
    for number in 0..count {
        let id = format!(in alloc; "message-{number}")?;
        catalogue.put(alloc, id.as_str(), "Hello {$name}!")?;
    }
    Ok(Change::Catalogue(catalogue))
}
