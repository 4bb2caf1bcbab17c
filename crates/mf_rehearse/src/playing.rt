//! The callers of a script, each of which sends its requests.
ghost use Rattle.std.specs.Prelude.{◌≡◌, All, IfOk, vec_len};
ghost use Rattle.mf_lines.specs.Cut.{IsLine};
ghost use Rattle.mf_rehearse.specs.Playing.{AreShort, HasPlayed, IsBlank, IsReady, IsTold};
ghost use Rattle.mf_wire.specs.Lines.{lines_of};

use crate::reading::CAPS;
use crate::script::requests_of;
use mf_hub::{Hub, Pass};
use mf_io::{Gate, MemorySink, MemorySource, PassError, Status};
use mf_session::session_shared;
use std::alloc::{AllocError, Global};
use std::sync::Wait;
use std::thread;
use std::thread::Threads;

/// A caller that has sent its requests: its number, the replies that it got, and its pass.
#[derive(Drop)]
pub(crate) struct Played {
    pub(crate) number: u64,
    pub(crate) replies: MemorySink,
    pub(crate) pass: Pass,
}

/// Answers requests as the caller of a pass.
fn answer_all<R: Wait, G: Gate>(
    rt: &R,
    alloc: Global,
    hub: &Hub,
    pass: Pass,
    requests: Vec<u8>,
    gate: &G,
) -> Result<(MemorySink, Pass), AllocError>
    requires own { pass.hub ≡ hub.now }
    ensures own { IfOk result (λ answered. answered.1.hub ≡ hub.now) }
    ensures told { IfOk result (λ answered. IsTold pass requests.items answered.0.taken answered.1) }
{
    let mut source = MemorySource::new(vec![in alloc; requests]?, Vec::new(alloc));
    let mut sink = MemorySink::new(alloc, usize::MAX, Vec::new(alloc));
    match session_shared(rt, alloc, hub, pass, &mut source, &mut sink, &CAPS, gate) {
        (Status::Ended, pass) => {
            pass.is_at_rest();
            Ok((sink, pass))
        }
        _ => Err(AllocError),
    }
}

/// Sends a caller's requests among the lines of an input.
fn play<R: Wait, G: Gate>(
    rt: &R,
    alloc: Global,
    hub: &Hub,
    pass: Pass,
    input: &[u8],
    gate: &G,
) -> Result<Played, AllocError>
    requires ready { IsReady hub.now pass }
    requires short { AreShort (lines_of input.now) }
    ensures { IfOk result (HasPlayed hub.now (lines_of input.now)) }
{
    let number = pass.number();
    let requests = requests_of(alloc, input, number)?;
    let (replies, pass) = answer_all(rt, alloc, hub, pass, requests, gate)?;
    Ok(Played {
        number,
        replies,
        pass,
    })
}

/// A pass for the next caller. Where it is refused because too many were made, it is asked for
/// again.
fn next_pass<R: Wait>(rt: &R, hub: &Hub, home: &mut Pass) -> Result<Pass, AllocError>
    requires own { home.old.hub ≡ hub.now }
    requires home { IsBlank home.old.view }
    ensures own { home.new.hub ≡ home.old.hub }
    ensures home { IsBlank home.new.view }
    ensures number { home.new.view.number ≡ home.old.view.number }
    ensures ready { IfOk result (IsReady hub.now) }
{
    for _ in rt.forever() {
        match hub.new_pass(rt, home) {
            Ok(pass) => {
                pass.is_at_rest();
                return Ok(pass);
            }
            Err(PassError::OutOfMemory) => return Err(AllocError),
            Err(PassError::CallersFull { .. }) => {}
        }
    }
    unreachable!()
}

/// So many passes.
pub(crate) fn passes_for<R: Wait>(
    rt: &R,
    alloc: Global,
    hub: &Hub,
    home: &mut Pass,
    count: u64,
) -> Result<Vec<Pass>, AllocError>
    requires own { home.old.hub ≡ hub.now }
    requires home { IsBlank home.old.view }
    ensures own { home.new.hub ≡ home.old.hub }
    ensures home { IsBlank home.new.view }
    ensures number { home.new.view.number ≡ home.old.view.number }
    ensures ready { IfOk result (λ passes. All (IsReady hub.now) passes.items) }
    ensures many { IfOk result (λ passes. vec_len passes ≡ count) }
{
    let mut passes = Vec::new(alloc);
    for _ in 0..count {
        let pass = next_pass(rt, hub, home)?;
        passes.push(pass)?;
    }
    Ok(passes)
}

/// Each of these callers sends its requests, in a thread of its own.
pub(crate) fn play_all<R: Threads + Wait + Sync, G: Gate + Sync>(
    rt: &R,
    alloc: Global,
    hub: &Hub,
    passes: Vec<Pass>,
    input: &[u8],
    gate: &G,
) -> Result<Vec<Result<Played, AllocError>>, AllocError>
    requires ready { All (IsReady hub.now) passes.items }
    requires short { AreShort (lines_of input.now) }
    ensures played { IfOk result (λ played.
        All (λ one. IfOk one (HasPlayed hub.now (lines_of input.now))) played.items) }
    ensures many { IfOk result (λ played. vec_len played ≡ vec_len passes) }
{
    thread::map_vec(
        rt,
        passes,
        &|pass: Pass| -> Result<Played, AllocError>
            requires { IsReady hub.now pass × AreShort (lines_of input.now) }
            ensures { IfOk result (HasPlayed hub.entry.now (lines_of input.entry.now)) }
        { play(rt, alloc, hub, pass, input, gate) },
    )
}
