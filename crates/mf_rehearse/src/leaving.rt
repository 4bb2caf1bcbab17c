//! The callers of a script, from the first pass to the last.
ghost use Rattle.std.specs.Prelude.{◌≡◌, IfOk, None, Some};
ghost use Rattle.mf_hub.specs.Passes.{Inherits};
ghost use Rattle.mf_rehearse.specs.Leaving.{ClosesLater, HaveLeft};
ghost use Rattle.mf_rehearse.specs.Playing.{AreShort, IsBlank};
ghost use Rattle.mf_wire.specs.Lines.{lines_of};

use crate::playing::{Played, passes_for, play_all};
use crate::script::callers_in;
use mf_edition::Log;
use mf_hub::{Hub, Pass};
use mf_io::{Gate, MemorySink};
use std::alloc::{AllocError, Global};
use std::sync::Wait;
use std::thread::Threads;

/// The replies that a caller got.
#[derive(Drop)]
pub(crate) struct Kept {
    pub(crate) number: u64,
    pub(crate) replies: MemorySink,
}

/// A caller leaves, and its replies are kept.
fn leave<R: Wait>(rt: &R, hub: &Hub, home: &mut Pass, played: Played) -> Kept
    requires own { home.old.hub ≡ hub.now }
    requires its_own { played.pass.hub ≡ hub.now }
    requires unpinned { played.pass.view.pin ≡ None }
    ensures own { home.new.hub ≡ home.old.hub }
    ensures inherits { Inherits home.old.view played.pass.view home.new.view }
    ensures number { result.number ≡ played.number }
    ensures replies { result.replies ≡ played.replies }
{
    let Played {
        number,
        replies,
        pass,
    } = played;
    hub.leave(rt, home, pass);
    Kept { number, replies }
}

/// As many callers as an input has send their requests, each in a thread of its own, and leave.
pub(crate) fn replies_to_all<R: Threads + Wait + Sync, G: Gate + Sync>(
    rt: &R,
    alloc: Global,
    hub: &Hub,
    home: &mut Pass,
    input: &[u8],
    gate: &G,
) -> Result<Vec<Kept>, AllocError>
    requires own { home.old.hub ≡ hub.now }
    requires blank { IsBlank home.old.view }
    requires first { home.old.view.number ≡ Some 0 }
    requires short { AreShort (lines_of input.now) }
    ensures own { home.new.hub ≡ home.old.hub }
    ensures left { IfOk result (λ kept. HaveLeft (lines_of input.now) home.new.view kept.items) }
{
    let passes = passes_for(rt, alloc, hub, home, callers_in(input))?;
    let mut played = play_all(rt, alloc, hub, passes, input, gate)?;
    let mut kept = Vec::new(alloc);
    while let Some(next) = played.pop() {
        let one = next?;
        let replies = leave(rt, hub, home, one);
        kept.push(replies)?;
    }
    Ok(kept)
}

/// The log of a hub which all but this pass have left. Where others are said to be there, it is
/// asked for again.
pub(crate) fn closed_log<R: Wait>(rt: &R, hub: Hub, home: Pass) -> Log
    requires own { home.hub ≡ hub }
    ensures { ClosesLater home.view result }
{
    let mut hub = hub;
    let mut home = home;
    for _ in rt.forever() {
        match hub.close(rt, home) {
            Ok(log) => return log,
            Err((_, open, pass)) => {
                hub = open;
                home = pass;
            }
        }
    }
    unreachable!()
}
