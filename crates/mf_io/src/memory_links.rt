//! A listener in memory.
ghost use Rattle.std.specs.Prelude.{◌≡◌, ◌↔◌, Some, IfOk, OnErr, IsErr, length};
ghost use Rattle.mf_io.specs.Faults.{HasCause};
ghost use Rattle.mf_io.specs.Links.{GivesFirst, LeavesLinks};
ghost use Rattle.mf_io.specs.Memory.{NextFails, failed, no_calls};

use crate::calls::Calls;
use crate::{Failed, Listener, MemorySink, MemorySource, Sink, Source};
use std::marker::Model;
use std::vec::IntoIter;

/// A listener that gives connections of memory in their order, and fails at the calls that it is
/// told to.
///
/// Calls are counted from 1. A call that fails gives no connection. A test that is to see what a
/// connection was answered lends its sinks, since whoever is given a connection owns it.
#[derive(Drop)]
pub struct MemoryLinks<S = MemorySource, K = MemorySink> {
    pairs: IntoIter<(S, K)>,
    calls: Calls,
}

impl<S, K> Model for MemoryLinks<S, K> {
    ghost use Rattle.std.specs.Prelude.{◌≡◌, length};
    ghost use Rattle.std.specs.Vec.Iter.{into_iter_items, into_iter_len};
    ghost use Rattle.mf_io.specs.Links.{Pending, pending_code};

    ghost Value = { Pending S K };

    ghost coded = { pending_code S.code K.code };

    ghost view = { λ l. record { pairs = into_iter_items l.pairs; calls = l.calls } };

    ghost invariant = { λ l. into_iter_len l.pairs ≡ length (into_iter_items l.pairs) };
}

impl<S, K> MemoryLinks<S, K> {
    /// A listener of these connections whose calls with the numbers in `failing` fail.
    pub fn new(pairs: Vec<(S, K)>, failing: Vec<u64>) -> MemoryLinks<S, K>
        ensures pairs { result.pairs ≡ pairs.items }
        ensures calls { result.calls ≡ no_calls failing.items }
    {
        MemoryLinks {
            pairs: pairs.into_iter(),
            calls: Calls::new(failing),
        }
    }

    /// How many calls have failed. At `u64::MAX` the count stays.
    pub fn faults(&self) -> u64
        ensures { result ≡ self.now.calls.faults }
    {
        self.calls.faults()
    }
}

impl<S: Source, K: Sink> Listener for MemoryLinks<S, K> {
    type From = S;

    type To = K;

    ghost left = { λ l. Some (length l.pairs) };

    ghost faults = { λ l. l.calls.faults };

    fn accept(&mut self) -> Result<Option<(S, K)>, Failed>
        ensures left { LeavesLinks (Some (length self.old.pairs)) (Some (length self.new.pairs)) result }
        ensures cause { HasCause self.old.calls.faults self.new.calls.faults result }

        ensures fails { IsErr result ↔ NextFails self.old.calls }
        ensures gives { IfOk result (GivesFirst self.old self.new) }
        ensures keeps { OnErr result (self.new ≡ record self.old { calls = failed self.old.calls }) }
    {
        self.calls.begin()?;
        Ok(self.pairs.next())
    }
}
