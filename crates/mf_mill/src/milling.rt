//! A large run.
ghost use Rattle.std.specs.Prelude.{◌≡◌, ◌≤◌, OnErr, OnOk};
ghost use Rattle.mf_io.specs.Faults.{HasCause, Rose};
ghost use Rattle.mf_mill.specs.Mills.{IsSummary, Mills, MillsInPart, MillsWhole};

use crate::running::summed_up;
use mf_io::{Failed, Sink, Status};
use mf_lines::send_line;
use std::alloc::Global;

/// Answers a script of so many requests for sentences in memory, and writes the one line that sums
/// the replies up.
///
/// The script publishes what English says of its numbers, then a message before each hundred of
/// requests for it, and asks for the counts at the end. The line has the last edition, the
/// requests, the compilations that were begun in the last edition, and the bytes of the texts of
/// all sentences.
///
/// It ends with `Ended`, `WriteFault`, or `OutOfMemory`, where some request found no memory and
/// nothing was written.
pub fn mill<K: Sink>(alloc: Global, count: u32, sink: &mut K) -> Status
    ensures mills { Mills count result (sink.new ≡ sink.old) (K.taken sink.old) (K.taken sink.new) }
    ensures write_fault { result ≡ Status.WriteFault
        → Rose (K.faults sink.old) (K.faults sink.new) }
    ensures sink_count { K.faults sink.old ≤ K.faults sink.new }
{
    match summed_up(alloc, count) {
        Ok(line) => match write_line(count, &line, sink) {
            Ok(()) => Status::Ended,
            Err(Failed) => Status::WriteFault,
        },
        Err(_) => Status::OutOfMemory,
    }
}

/// Writes the line of a run of so many requests, and passes it on.
fn write_line<K: Sink>(count: u32, line: &[u8], sink: &mut K) -> Result<(), Failed>
    requires { IsSummary count line.now }
    ensures whole { OnOk result (MillsWhole count (K.taken sink.old) (K.taken sink.new)) }
    ensures part { OnErr result (MillsInPart count (K.taken sink.old) (K.taken sink.new)) }
    ensures cause { HasCause (K.faults sink.old) (K.faults sink.new) result }
{
    send_line(sink, line)?;
    sink.flush()
}
