//! Plans that callers take.
ghost use Rattle.std.specs.Prelude.{◌≡◌};
ghost use Rattle.mf_hub_rows.specs.Crowds.{HasPinned};

use mf_edition::{Edition, newest_is_last};
use mf_hub::{Hub, Pass};
use mf_io::{Gate, Place};
use mf_plan::Plan;
use std::alloc::AllocError;
use std::sync::{Arc, Wait};

/// The plan of the message at an index of the edition that is pinned, if there is such a message.
pub fn plan_pinned<R: Wait, G: Gate>(
    rt: &R,
    hub: &Hub,
    pass: &mut Pass,
    edition: &Edition,
    index: u32,
    gate: &G,
) -> Result<Option<Arc<Plan>>, AllocError>
    requires own { pass.old.hub ≡ hub.now }
    requires pinned { HasPinned edition.now pass.old.view }
    ensures { pass.new.hub ≡ hub.now }
{
    newest_is_last();
    if index >= edition.len() {
        return Ok(None);
    }
    let plan = hub.plan_at(rt, pass, index, gate)?;
    Ok(Some(plan))
}

/// Pins the newest edition, takes the plan of its message at an index, and ends the pin: the
/// edition's number, if it has such a message.
pub fn plan_once<R: Wait, G: Gate>(
    rt: &R,
    hub: &Hub,
    pass: &mut Pass,
    index: u32,
    gate: &G,
) -> Result<Option<u64>, AllocError>
    requires { pass.old.hub ≡ hub.now }
    ensures { pass.new.hub ≡ hub.now }
{
    gate.at(rt, Place::BeforePin);
    let edition = hub.pin(rt, pass)?;
    let plan = plan_pinned(rt, hub, pass, &edition, index, gate);
    hub.unpin(rt, pass);
    match plan? {
        Some(_plan) => Ok(Some(edition.number())),
        None => Ok(None),
    }
}
