//! Callers of a hub, alone and in threads.
ghost use Rattle.std.specs.Prelude.{◌≡◌, All, IfOk, None};
ghost use Rattle.mf_session_rows.specs.Calling.{IsAt};

use crate::gates::SecondPin;
use crate::pieces::{CAPS, pieces};
use mf_hub::{Hub, Pass};
use mf_io::{Gate, MemorySink, MemorySource, NoGate, Status};
use mf_session::session_shared;
use std::alloc::{AllocError, Global};
use std::sync::Wait;
use std::thread;
use std::thread::Threads;

/// The bytes of a piece in which a caller's lines come.
const PIECE: usize = 1 << 20;

/// A caller of a hub, what it sends, and what it was answered, as far as it was.
#[derive(Drop)]
pub struct Caller {
    pub pass: Pass,
    pub input: Vec<u8>,
    pub output: Vec<u8>,
    pub status: Status,
}

impl Caller {
    /// A caller that is to send these bytes.
    pub fn new(alloc: Global, pass: Pass, input: &[u8]) -> Result<Caller, AllocError>
        ensures pass { IfOk result (λ caller. caller.pass ≡ pass) }
    {
        Ok(Caller {
            pass,
            input: Vec::from_slice(alloc, input)?,
            output: Vec::new(alloc),
            status: Status::OutOfMemory,
        })
    }
}

/// A session with a caller, whose lines come in pieces of at most so many bytes.
pub fn talk<G: Gate, R: Wait>(
    rt: &R,
    alloc: Global,
    hub: &Hub,
    caller: Caller,
    length: usize,
    gate: &G,
) -> Caller
    requires { caller.pass.hub ≡ hub.now }
    ensures { IsAt hub.now result }
{
    let Caller {
        pass,
        input,
        output: _,
        status: _,
    } = caller;
    let mut source = MemorySource::new(pieces(alloc, &input, length), Vec::new(alloc));
    let mut sink = MemorySink::new(alloc, usize::MAX, Vec::new(alloc));
    let (status, pass) = session_shared(rt, alloc, hub, pass, &mut source, &mut sink, &CAPS, gate);
    let output = Vec::from_slice(alloc, sink.taken()).unwrap_or(Vec::new(alloc));
    Caller {
        pass,
        input,
        output,
        status,
    }
}

/// The same with each of these, in a thread of its own.
pub fn talk_together<R: Threads + Wait + Sync>(
    rt: &R,
    alloc: Global,
    hub: &Hub,
    callers: Vec<Caller>,
) -> Result<Vec<Caller>, AllocError>
    requires { All (IsAt hub.now) callers.items }
    ensures { IfOk result (λ told. All (IsAt hub.now) told.items) }
{
    thread::map_vec(
        rt,
        callers,
        &|caller: Caller| -> Caller
            requires { IsAt hub.now caller }
            ensures { IsAt hub.entry.now result }
        { talk(rt, alloc, hub, caller, PIECE, &NoGate) },
    )
}

/// The same, but caller 1 passes a gate, and the others begin when it is held there and open the
/// gate when they are answered.
pub fn talk_held<R: Threads + Wait + Sync>(
    rt: &R,
    alloc: Global,
    hub: &Hub,
    callers: Vec<Caller>,
    gate: &SecondPin,
) -> Result<Vec<Caller>, AllocError>
    requires { All (IsAt hub.now) callers.items }
    ensures { IfOk result (λ told. All (IsAt hub.now) told.items) }
{
    thread::map_vec(
        rt,
        callers,
        &|caller: Caller| -> Caller
            requires { IsAt hub.now caller }
            ensures { IsAt hub.entry.now result }
        { talk_beside(rt, alloc, hub, caller, gate) },
    )
}

/// What one of them does.
fn talk_beside<R: Wait>(
    rt: &R,
    alloc: Global,
    hub: &Hub,
    caller: Caller,
    gate: &SecondPin,
) -> Caller
    requires { IsAt hub.now caller }
    ensures { IsAt hub.now result }
{
    if caller.pass.number() == 1 {
        return talk(rt, alloc, hub, caller, PIECE, gate);
    }
    gate.await_holding();
    let told = talk(rt, alloc, hub, caller, PIECE, &NoGate);
    gate.open();
    told
}
