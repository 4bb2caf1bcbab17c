//! Rows of events.
ghost use Rattle.mf_core.specs.Running.{IsWhole};

use crate::telling::shown;
use mf_core::{Event, World, step};
use mf_edition::{Catalogue, Change};
use mf_locale::read_tag;
use std::alloc::{AllocError, Global};

/// What the last of these events is told, in a World in which they all come one after the other.
pub fn told(alloc: Global, events: &str) -> Result<String, AllocError> {
    let mut world = World::new(alloc)?;
    let told = told_last(alloc, &mut world, events);
    world.end();
    told
}

/// What the last of these events is told.
fn told_last(alloc: Global, world: &mut World, events: &str) -> Result<String, AllocError>
    requires { IsWhole world.old }
    ensures { IsWhole world.new }
{
    let mut told = String::new(alloc);
    for words in events.split(", ") {
        told = told_next(alloc, world, words)?;
    }
    Ok(told)
}

/// What an event is told.
fn told_next(alloc: Global, world: &mut World, words: &str) -> Result<String, AllocError>
    requires { IsWhole world.old }
    ensures { IsWhole world.new }
{
    match event_of(alloc, words)? {
        Some(event) => shown(alloc, step(world, event)),
        None => String::from_str(alloc, "no event"),
    }
}

/// The event that words name: what is done, by whom, and the index that is asked for.
fn event_of(alloc: Global, words: &str) -> Result<Option<Event>, AllocError> {
    let mut words = words.split(' ');
    let (Some(name), Some(caller)) = (words.next(), words.next()) else {
        return Ok(None);
    };
    let Ok(caller) = caller.parse::<u64>() else {
        return Ok(None);
    };
    let index = words.next().unwrap_or("0").parse::<u32>().unwrap_or(0);
    Ok(match name {
        "join" => Some(Event::Join { caller }),
        "publish" => Some(Event::Publish {
            caller,
            change: change(alloc, "a")?,
        }),
        "pin" => Some(Event::Pin { caller }),
        "ask" => Some(Event::Ask { caller, index }),
        "done" => Some(Event::Done { caller }),
        "quit" => Some(Event::Quit { caller }),
        "unpin" => Some(Event::Unpin { caller }),
        "leave" => Some(Event::Leave { caller }),
        _ => None,
    })
}

/// The publication of a message with this id.
pub fn change(alloc: Global, id: &str) -> Result<Change, AllocError> {
    let tag = read_tag(alloc, "en").map_err(|_| AllocError)?;
    let mut catalogue = Catalogue::new(alloc, tag, 1)?;
    catalogue.put(alloc, id, "hello")?;
    Ok(Change::Catalogue(catalogue))
}
