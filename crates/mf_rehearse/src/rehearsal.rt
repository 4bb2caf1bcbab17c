//! A rehearsal.
ghost use Rattle.std.specs.Prelude.{◌≡◌, ◌≤◌, List, IfOk, OnErr, OnOk};
ghost use Rattle.std.specs.Io.KnownBytes.{Appends};
ghost use Rattle.mf_io.specs.Faults.{HasCause, Rose};
ghost use Rattle.mf_io.specs.Known.{TakesFront};
ghost use Rattle.mf_rehearse.specs.Leaving.{AreLines, Matches};
ghost use Rattle.mf_rehearse.specs.Played.{Part, replies_of};
ghost use Rattle.mf_rehearse.specs.Playing.{AreShort};
ghost use Rattle.mf_rehearse.specs.Prints.{print};
ghost use Rattle.mf_rehearse.specs.Rehearsals.{rehearse_caps, IsRehearsal, Rehearses};
ghost use Rattle.mf_lines.specs.Served.{written};
ghost use Rattle.mf_wire.specs.Lines.{lines_of};

use crate::leaving::{Kept, closed_log, replies_to_all};
use crate::printing::{print_log, print_replies};
use crate::reading::read_lines;
use crate::script::callers_in;
use mf_edition::Log;
use mf_hub::Hub;
use mf_io::{Failed, Gate, Sink, Source, Status, send};
use std::alloc::{AllocError, Global};
use std::sync::Wait;
use std::thread::Threads;

/// The replies to a caller among those that were kept.
fn replies_to(kept: &[Kept], caller: u64) -> &[u8]
    ensures { (parts : List Part) → Matches kept.now parts → result.now ≡ written (replies_of parts caller) }
{
    let mut rest = kept;
    while let [first, more @ ..] = rest {
        if first.number == caller {
            return first.replies.taken();
        }
        rest = more;
    }
    &[]
}

/// What is written of a rehearsal.
fn print(alloc: Global, kept: &[Kept], log: &Log, callers: u64) -> Result<Vec<u8>, AllocError>
    requires { callers ≤ 8 }
    ensures { IfOk result (λ output. (parts : List Part) → Matches kept.now parts → AreLines parts
        → output.items ≡ print callers (replies_of parts) log.now) }
{
    let mut output = Vec::new(alloc);
    let mut caller: u8 = 0;
    while (caller as u64) < callers {
        caller += 1;
        print_replies(&mut output, caller, replies_to(kept, caller as u64))?;
    }
    print_log(&mut output, log)?;
    output.extend_from_slice(b"legal yes\n")?;
    Ok(output)
}

/// What is written of a rehearsal of the lines of an input.
fn rehearse_lines<R: Threads + Wait + Sync, G: Gate + Sync>(
    rt: &R,
    alloc: Global,
    input: &[u8],
    gate: &G,
) -> Result<Vec<u8>, AllocError>
    requires { AreShort (lines_of input.now) }
    ensures { IfOk result (λ output. IsRehearsal (lines_of input.now) output.items) }
{
    let (hub, mut home) = Hub::new(alloc)?;
    let kept = replies_to_all(rt, alloc, &hub, &mut home, input, gate)?;
    let log = closed_log(rt, hub, home);
    print(alloc, &kept, &log, callers_in(input))
}

/// Writes an output, and passes it on.
fn write<K: Sink>(sink: &mut K, output: &[u8]) -> Result<(), Failed>
    ensures sent { OnOk result (Appends (K.taken sink.old) (K.taken sink.new) output.now) }
    ensures stopped { OnErr result (TakesFront (K.taken sink.old) (K.taken sink.new) output.now) }
    ensures cause { HasCause (K.faults sink.old) (K.faults sink.new) result }
{
    send(sink, output)?;
    sink.flush()
}

/// Reads a script, lets its callers send their requests to one hub, each in a thread of its own,
/// and writes the replies by callers, the log, and the verdict that they make one legal history.
///
/// A line that begins with a digit d from 1 to 8 and a space is caller d's, the rest being its
/// request; any other line is caller 1's. There are as many callers as the greatest digit, and at
/// least two.
///
/// It ends with `Ended`, `WriteFault` (a front of the output was written), or, where nothing was
/// written, `ReadFault`, `LineTooLong` (a line has more than 1,048,576 bytes), `InputFull`
/// (16,777,216 bytes came, and the end wasn't told by then) or `OutOfMemory`.
pub fn rehearse<S: Source, K: Sink, G: Gate + Sync, R: Threads + Wait + Sync>(
    rt: &R,
    alloc: Global,
    source: &mut S,
    sink: &mut K,
    gate: &G,
) -> Status
    ensures rehearses { Rehearses rehearse_caps (S.left source.old) (S.left source.new)
        (K.taken sink.old) (K.taken sink.new) result (sink.new ≡ sink.old) }
    ensures read_fault { result ≡ Status.ReadFault
        → Rose (S.faults source.old) (S.faults source.new) }
    ensures write_fault { result ≡ Status.WriteFault
        → Rose (K.faults sink.old) (K.faults sink.new) }
    ensures source_count { S.faults source.old ≤ S.faults source.new }
    ensures sink_count { K.faults sink.old ≤ K.faults sink.new }
{
    match read_lines(alloc, source) {
        Ok(input) => match rehearse_lines(rt, alloc, &input, gate) {
            Ok(output) => match write(sink, &output) {
                Ok(()) => Status::Ended,
                Err(Failed) => Status::WriteFault,
            },
            Err(_) => Status::OutOfMemory,
        },
        Err(status) => status,
    }
}
