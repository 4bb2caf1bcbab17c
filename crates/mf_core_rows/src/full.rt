//! A full log.
ghost use Rattle.mf_core.specs.Running.{IsWhole};

use crate::rows::change;
use crate::telling::shown;
use mf_core::{Event, World, step};
use std::alloc::{AllocError, Global};

/// What one more publication is told behind so many.
pub fn told(alloc: Global, publications: u64) -> Result<String, AllocError> {
    let mut world = World::new(alloc)?;
    let told = told_last(alloc, &mut world, publications);
    world.end();
    told
}

/// The same in a World.
fn told_last(alloc: Global, world: &mut World, publications: u64) -> Result<String, AllocError>
    requires { IsWhole world.old }
    ensures { IsWhole world.new }
{
    let mut told = shown(alloc, step(world, Event::Join { caller: 0 }))?;
    for _ in 0..publications {
        told = publish(alloc, world)?;
    }
    let last = publish(alloc, world)?;
    format!(in alloc; "{told}, {last}")
}

/// What a publication of the first caller is told.
fn publish(alloc: Global, world: &mut World) -> Result<String, AllocError>
    requires { IsWhole world.old }
    ensures { IsWhole world.new }
{
    let change = change(alloc, "a")?;
    shown(alloc, step(world, Event::Publish { caller: 0, change }))
}
