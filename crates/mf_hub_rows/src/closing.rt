//! What closing a hub gives.
ghost use Rattle.std.specs.Prelude.{◌≡◌, IfSome};

use mf_edition::Log;
use mf_hub::{CloseError, Hub, Pass};
use std::sync::Wait;

/// The log of a hub that was closed, if it was.
pub fn closed_log(closed: Result<Log, (CloseError, Hub, Pass)>) -> Option<Log> {
    match closed {
        Ok(log) => Some(log),
        Err((_error, _hub, _pass)) => None,
    }
}

/// Why a hub isn't closed, if it isn't, and the hub and the pass, which are as they were.
pub fn refused_close<R: Wait>(hub: Hub, rt: &R, pass: Pass) -> Option<(CloseError, Hub, Pass)>
    requires { pass.hub ≡ hub }
    ensures { IfSome result (λ back. (back.1 ≡ hub) × (back.2.hub ≡ hub)) }
{
    match hub.close(rt, pass) {
        Ok(_log) => None,
        Err(back) => Some(back),
    }
}
