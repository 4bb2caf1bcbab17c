//! The ends of connections in memory.

use crate::HoldsFirst;
use mf_io::{Failed, MemorySink, MemorySource, Sink};
use std::alloc::{AllocError, Global};

/// What a peer sends, in pieces of the length given.
pub fn source(alloc: Global, bytes: &[u8]) -> Result<MemorySource, AllocError> {
    let mut pieces = Vec::new(alloc);
    pieces.push(Vec::from_slice(alloc, bytes)?)?;
    Ok(MemorySource::new(pieces, Vec::new(alloc)))
}

/// What a peer takes, whose calls with the numbers in `failing` fail.
pub fn sink(alloc: Global, failing: &[u64]) -> Result<MemorySink, AllocError> {
    Ok(MemorySink::new(alloc, 3, Vec::from_slice(alloc, failing)?))
}

/// A sink whose peer may be slow to read: each write to it waits until so many others are
/// answered.
#[derive(Drop)]
pub struct Peer<'a> {
    sink: &'a mut MemorySink,
    gate: &'a HoldsFirst,
    until: u64,
}

impl<'a> Peer<'a> {
    /// A peer that reads once so many others are answered.
    pub fn new(sink: &'a mut MemorySink, gate: &'a HoldsFirst, until: u64) -> Peer<'a> {
        Peer { sink, gate, until }
    }
}

impl<'a> Sink for Peer<'a> {
    ghost use Rattle.std.specs.Prelude.{Some};

    ghost taken = { λ p. Some p.sink.now.taken };

    ghost faults = { λ p. p.sink.now.calls.faults };

    fn write(&mut self, piece: &[u8]) -> Result<usize, Failed> {
        self.gate.wait_until(self.until);
        self.sink.write(piece)
    }

    fn flush(&mut self) -> Result<(), Failed> {
        self.sink.flush()
    }
}
