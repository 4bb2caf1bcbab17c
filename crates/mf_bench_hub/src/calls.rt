//! What one thread does, so many times.
ghost use Rattle.std.specs.Prelude.{◌≡◌};
ghost use Rattle.mf_hub_rows.specs.Crowds.{CameFrom};

use crate::changes::messages;
use mf_hub::{Hub, Pass};
use mf_hub_rows::Walked;
use std::alloc::Global;
use std::sync::Wait;

/// Publishes one of so many messages anew, so many times.
pub fn publish_many<R: Wait>(
    rt: &R,
    alloc: Global,
    hub: &Hub,
    pass: Pass,
    among: u32,
    times: u32,
) -> Walked
    requires { pass.hub ≡ hub.now }
    ensures { CameFrom hub.now result }
{
    let mut pass = pass;
    let mut misses: u64 = 0;
    for round in 0..times {
        let number = round.wrapping_mul(7919) % among.max(1);
        let is_published = match messages(alloc, number, number.saturating_add(1)) {
            Ok(change) => hub.publish(rt, &mut pass, change).is_ok(),
            Err(_) => false,
        };
        if !is_published {
            misses = misses.saturating_add(1);
        }
    }
    Walked { pass, misses }
}

/// Pins the newest edition and ends the pin, so many times.
pub fn pin_many<R: Wait>(rt: &R, hub: &Hub, pass: Pass, times: u32) -> Walked
    requires { pass.hub ≡ hub.now }
    ensures { CameFrom hub.now result }
{
    let mut pass = pass;
    let mut misses: u64 = 0;
    for _ in 0..times {
        if hub.pin(rt, &mut pass).is_err() {
            misses = misses.saturating_add(1);
        }
        hub.unpin(rt, &mut pass);
    }
    Walked { pass, misses }
}
