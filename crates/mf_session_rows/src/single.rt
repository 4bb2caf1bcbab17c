//! Sessions with one caller, over a hub and at a desk.
use crate::callers::{Caller, talk};
use crate::pieces::{CAPS, pieces};
use mf_hub::{Alone, Hub};
use mf_io::{MemorySink, MemorySource, NoGate, Status};
use mf_session::session_alone;
use std::alloc::{AllocError, Global};
use std::sync::Wait;

/// What the first caller of a hub is answered, and how its session ends.
pub fn shared<R: Wait>(
    rt: &R,
    alloc: Global,
    input: &[u8],
    length: usize,
) -> Result<(Status, Vec<u8>), AllocError> {
    let (hub, pass) = Hub::new(alloc)?;
    let caller = Caller::new(alloc, pass, input)?;
    let told = talk(rt, alloc, &hub, caller, length, &NoGate);
    Ok((told.status, told.output))
}

/// What the one caller of a desk is answered, and how its session ends.
pub fn alone(alloc: Global, input: &[u8], length: usize) -> Result<(Status, Vec<u8>), AllocError> {
    let mut desk = Alone::new(alloc)?;
    let mut source = MemorySource::new(pieces(alloc, input, length), Vec::new(alloc));
    let mut sink = MemorySink::new(alloc, usize::MAX, Vec::new(alloc));
    let status = session_alone(alloc, &mut desk, &mut source, &mut sink, &CAPS);
    Ok((status, Vec::from_slice(alloc, sink.taken())?))
}
