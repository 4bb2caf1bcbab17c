//! An input answered line by line.
ghost use Rattle.std.specs.Prelude.{◌≡◌, ◌≤◌, ◌+◌, []};
ghost use Rattle.mf_io.specs.Caps.{IsCaps};
ghost use Rattle.mf_io.specs.Faults.{Rose};
ghost use Rattle.mf_lines.specs.Served.{Served};
ghost use Rattle.mf_lines.specs.Sessions.{Outcome};

use crate::buffer::Buffer;
use crate::clerk::Clerk;
use crate::lines::{answer_last, answer_whole};
use mf_io::{Caps, Failed, Sink, Source, Status};
use std::alloc::Global;

/// Answers each line of an input in order, and writes each reply with its line feed.
///
/// All whole lines that were read are answered, and their replies passed on, before more is read.
/// What follows the last line feed is a line too, where it isn't empty and the end of the input is
/// told. A read gets room for at least 4,096 bytes, or for as many as the cap on the input leaves,
/// where these are fewer.
///
/// It ends with one of these:
///
/// - `Ended`: the input was read to its end, and each line was answered.
/// - `ReadFault`: the source failed. The whole lines that were read are answered.
/// - `WriteFault`: the sink failed. Every reply but the last begun was written whole.
/// - `LineTooLong`: a line has more bytes than its cap, its line feed left out. The lines before it
///   are answered.
/// - `InputFull`: as many bytes as the cap on the input came, and the end wasn't told by then. The
///   whole lines among them are answered.
/// - `OutOfMemory`: there was no memory for a buffer. Nothing was read.
pub fn answer_input<C: Clerk, S: Source, K: Sink>(
    alloc: Global,
    clerk: &mut C,
    desk: &mut C::Desk,
    source: &mut S,
    sink: &mut K,
    caps: &Caps,
) -> Status
    requires { IsCaps caps.now }

    // What was taken, answered and written, by the status.
    ensures outcome { Outcome (Served C.answers) caps.now desk.old desk.new
        (S.left source.old) (S.left source.new) (K.taken sink.old) (K.taken sink.new)
        result (source.new ≡ source.old) (sink.new ≡ sink.old) }

    // A fault comes only where its object's count rose, and no count falls.
    ensures read_fault { result ≡ Status.ReadFault
        → Rose (S.faults source.old) (S.faults source.new) }
    ensures write_fault { result ≡ Status.WriteFault
        → Rose (K.faults sink.old) (K.faults sink.new) }
    ensures source_count { S.faults source.old ≤ S.faults source.new }
    ensures sink_count { K.faults sink.old ≤ K.faults sink.new }
{
    match Buffer::new(alloc, caps.line) {
        Ok(mut buffer) => answer_through(alloc, clerk, desk, source, sink, caps, &mut buffer),
        Err(_) => Status::OutOfMemory,
    }
}

/// Answers an input by way of an empty buffer.
fn answer_through<C: Clerk, S: Source, K: Sink>(
    alloc: Global,
    clerk: &mut C,
    desk: &mut C::Desk,
    source: &mut S,
    sink: &mut K,
    caps: &Caps,
    buffer: &mut Buffer,
) -> Status
    requires caps { IsCaps caps.now }
    requires empty { buffer.old.bytes ≡ [] }
    requires size { caps.now.line + 4096 ≤ buffer.old.size }
    ensures outcome { Outcome (Served C.answers) caps.now desk.old desk.new
        (S.left source.old) (S.left source.new) (K.taken sink.old) (K.taken sink.new)
        result (source.new ≡ source.old) (sink.new ≡ sink.old) }
    ensures read_fault { result ≡ Status.ReadFault
        → Rose (S.faults source.old) (S.faults source.new) }
    ensures write_fault { result ≡ Status.WriteFault
        → Rose (K.faults sink.old) (K.faults sink.new) }
    ensures source_count { S.faults source.old ≤ S.faults source.new }
    ensures sink_count { K.faults sink.old ≤ K.faults sink.new }
{
    let mut taken = 0;
    while taken < caps.input {
        // What waits is the front of one line.
        let known = buffer.waiting().len();
        let Ok(count) = buffer.read(source, caps.input - taken) else {
            return Status::ReadFault;
        };
        if count == 0 {
            return match answer_last(alloc, clerk, desk, sink, buffer.waiting()) {
                Ok(()) => Status::Ended,
                Err(Failed) => Status::WriteFault,
            };
        }
        taken += count as u64;
        let Ok(passed) = answer_whole(alloc, clerk, desk, sink, caps.line, buffer.waiting(), known)
        else {
            return Status::WriteFault;
        };
        buffer.pass(passed);
        if buffer.waiting().len() as u64 > caps.line {
            return Status::LineTooLong;
        }
    }
    Status::InputFull
}
