//! A sink in memory.
ghost use Rattle.std.specs.Prelude.{◌≡◌, ℕ, ◌≤◌, ◌<◌, ◌↔◌, [], ◌++◌, Some, IfOk, OnOk, OnErr, IsErr, length, take, min};
ghost use Rattle.std.specs.Io.{WritesAtMost};
ghost use Rattle.std.specs.Io.KnownBytes.{Keeps, WriteAppends};
ghost use Rattle.mf_io.specs.Faults.{HasCause};
ghost use Rattle.mf_io.specs.Memory.{NextFails, TakesMost, failed, no_calls, passed};

use crate::calls::Calls;
use crate::{Failed, Sink};
use std::alloc::Global;
use std::marker::Model;

/// A sink that holds in memory what it takes, and fails at the calls that it is told to.
///
/// A write takes at most so many bytes at once. Writes and flushes are counted together, from 1. A
/// call that fails takes nothing, and a write that finds no memory fails.
#[derive(Drop)]
pub struct MemorySink {
    taken: Vec<u8>,
    most: usize,
    calls: Calls,
}

impl Model for MemorySink {
    ghost use Rattle.std.specs.Prelude.{◌≤◌};
    ghost use Rattle.mf_io.specs.Memory.{Intake};

    ghost Value = { Intake };

    ghost view = { λ s. record { taken = s.taken.items; most = s.most; calls = s.calls } };

    ghost invariant = { λ s. 1 ≤ s.most };
}

impl MemorySink {
    /// A sink whose writes take at most `most` bytes, and whose calls with the numbers in `failing`
    /// fail.
    pub fn new(alloc: Global, most: usize, failing: Vec<u64>) -> MemorySink
        requires { 1 ≤ most }
        ensures taken { result.taken ≡ [] }
        ensures most { result.most ≡ most }
        ensures calls { result.calls ≡ no_calls failing.items }
    {
        MemorySink {
            taken: Vec::new(alloc),
            most,
            calls: Calls::new(failing),
        }
    }

    /// The bytes that were taken so far.
    pub fn taken(&self) -> &[u8]
        ensures { result.now ≡ self.now.taken }
    {
        &self.taken
    }

    /// How many calls have failed. At `u64::MAX` the count stays.
    pub fn faults(&self) -> u64
        ensures { result ≡ self.now.calls.faults }
    {
        self.calls.faults()
    }
}

impl Sink for MemorySink {
    ghost taken = { λ s. Some s.taken };

    ghost faults = { λ s. s.calls.faults };

    fn write(&mut self, piece: &[u8]) -> Result<usize, Failed>
        ensures bound { WritesAtMost result piece.now }
        ensures some { IfOk result (λ n. 0 < length piece.now → 0 < n) }
        ensures bytes { WriteAppends (Some self.old.taken) (Some self.new.taken) result piece.now }
        ensures cause { HasCause self.old.calls.faults self.new.calls.faults result }

        // Want of memory alone makes another call fail.
        ensures fails { NextFails self.old.calls → IsErr result }
        ensures takes { IfOk result (TakesMost self.old self.new piece.now) }
        ensures keeps { OnErr result (self.new ≡ record self.old { calls = failed self.old.calls }) }
    {
        self.calls.begin()?;
        let front = &piece[..piece.len().min(self.most)];
        match self.taken.extend_from_slice(front) {
            Ok(()) => Ok(front.len()),
            Err(_) => Err(self.calls.fault()),
        }
    }

    fn flush(&mut self) -> Result<(), Failed>
        ensures bytes { Keeps (Some self.old.taken) (Some self.new.taken) }
        ensures cause { HasCause self.old.calls.faults self.new.calls.faults result }

        ensures fails { IsErr result ↔ NextFails self.old.calls }
        ensures flushed { OnOk result (self.new ≡ record self.old { calls = passed self.old.calls }) }
        ensures keeps { OnErr result (self.new ≡ record self.old { calls = failed self.old.calls }) }
    {
        self.calls.begin()
    }
}
