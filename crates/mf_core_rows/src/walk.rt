//! A random walk, told by a World and by plain lists.
ghost use Rattle.mf_core.specs.Running.{IsWhole};

use crate::plain::Plain;
use crate::rows::change;
use mf_core::{CoreError, Event, Told, World, step};
use std::alloc::{AllocError, Global};

/// How many of the callers that joined last have events, beside the one that is to join.
const CALLERS: u64 = 8;

/// How often some answers came, and how often the two told an event otherwise.
#[derive(Clone, Copy)]
pub struct Tally {
    pub claimed: u64,
    pub busy: u64,
    pub ready: u64,
    pub differences: u64,
}

/// A walk of so many events.
pub fn walk(alloc: Global, count: u64) -> Result<Tally, AllocError> {
    let mut world = World::new(alloc)?;
    let tally = walk_in(alloc, &mut world, count);
    world.end();
    tally
}

/// The same in a World.
fn walk_in(alloc: Global, world: &mut World, count: u64) -> Result<Tally, AllocError>
    requires { IsWhole world.old }
    ensures { IsWhole world.new }
{
    let mut plain = Plain::new(alloc)?;
    let mut random: u64 = 1;
    let mut tally = Tally {
        claimed: 0,
        busy: 0,
        ready: 0,
        differences: 0,
    };
    for _ in 0..count {
        random = after(random);
        let event = event(alloc, random >> 33, &plain)?;
        let expected = plain.step(&event);
        let told = step(world, event);
        count_answer(&mut tally, &told);
        if told != expected {
            tally.differences = tally.differences.saturating_add(1);
        }
    }
    Ok(tally)
}

fn count_answer(tally: &mut Tally, told: &Result<Told, CoreError>) {
    match told {
        Ok(Told::Claimed) => tally.claimed = tally.claimed.saturating_add(1),
        Ok(Told::Busy) => tally.busy = tally.busy.saturating_add(1),
        Ok(Told::Ready) => tally.ready = tally.ready.saturating_add(1),
        _ => {}
    }
}

/// The next number of a linear congruence.
fn after(random: u64) -> u64 {
    random
        .wrapping_mul(6364136223846793005)
        .wrapping_add(1442695040888963407)
}

/// The event that a random number names.
fn event(alloc: Global, random: u64, plain: &Plain) -> Result<Event, AllocError> {
    let joined = plain.joined();
    let first = joined.saturating_sub(CALLERS);
    let caller = first.saturating_add(random % (joined.min(CALLERS) + 1));
    let index = (random / 9 % 4) as u32;
    Ok(match random / 36 % 16 {
        0 | 1 => seldom(caller, joined, random),
        2 => Event::Publish {
            caller,
            change: change(alloc, id(plain.newest()))?,
        },
        3 | 4 | 5 => Event::Pin { caller },
        6 | 7 | 8 | 9 | 10 => Event::Ask { caller, index },
        11 | 12 | 13 => Event::Done { caller },
        14 => Event::Quit { caller },
        _ => Event::Unpin { caller },
    })
}

/// Callers join and leave seldom once there are enough, since none comes back.
fn seldom(caller: u64, joined: u64, random: u64) -> Event {
    match random / 576 % 64 {
        0 => Event::Leave { caller },
        1 => Event::Join { caller },
        _ if joined < CALLERS => Event::Join { caller },
        _ => Event::Pin { caller },
    }
}

/// The id of a publication: the first three are of a message each.
fn id(published: u64) -> &'static str {
    match published % 3 {
        0 => "a",
        1 => "b",
        _ => "c",
    }
}
