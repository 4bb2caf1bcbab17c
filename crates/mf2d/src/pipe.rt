//! The command `pipe`.
ghost use Rattle.std.specs.Prelude.{◌≡◌, ◌≤◌};
ghost use Rattle.mf_io.specs.Faults.{Rose};
ghost use Rattle.mf2d.specs.Commands.{Pipes};

use mf_hub::Alone;
use mf_io::{Caps, Sink, Source, Status};
use mf_session::session_alone;
use std::alloc::Global;

/// The most bytes of a line, and the bytes at which the input stops.
const CAPS: Caps = Caps {
    line: 1_048_576,
    input: 4_294_967_296,
};

/// Answers each line of the input at a desk at which nothing was published.
pub(crate) fn pipe<S: Source, K: Sink>(alloc: Global, source: &mut S, sink: &mut K) -> Status
    ensures pipes { Pipes result (source.new ≡ source.old) (sink.new ≡ sink.old)
        (S.left source.old) (S.left source.new) (K.taken sink.old) (K.taken sink.new) }
    ensures read_fault { result ≡ Status.ReadFault
        → Rose (S.faults source.old) (S.faults source.new) }
    ensures write_fault { result ≡ Status.WriteFault
        → Rose (K.faults sink.old) (K.faults sink.new) }
    ensures source_count { S.faults source.old ≤ S.faults source.new }
    ensures sink_count { K.faults sink.old ≤ K.faults sink.new }
{
    match Alone::new(alloc) {
        Ok(mut desk) => session_alone(alloc, &mut desk, source, sink, &CAPS),
        Err(_) => Status::OutOfMemory,
    }
}
