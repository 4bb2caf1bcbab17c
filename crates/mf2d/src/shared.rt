//! The commands whose callers share a log.
ghost use Rattle.std.specs.Prelude.{◌≡◌, ◌≤◌, chars};
ghost use Rattle.mf_io.specs.Faults.{Rose};
ghost use Rattle.mf2d.specs.Shared.{shared_command_limited, shared_command_named, shared_command_of, SharedOutcome};

use crate::command::count_of;
use mf_io::{Gate, Listener, Sink, Source, Status};
use mf_rehearse::rehearse;
use mf_service::serve_hub;
use mf_text::Texts;
use std::alloc::Global;
use std::sync::Wait;
use std::thread::Threads;

/// The most connections that are served.
const MOST_CONNECTIONS: u32 = 1_000_000;

/// What the words of the command line ask for, where callers share a log.
#[derive(Clone, Copy, Debug, PartialEq, Eq)]
pub enum SharedCommand {
    /// Lets the callers of a script send their requests at once.
    Rehearse,
    /// Serves so many connections.
    Serve(u32),
}

/// The command that the words after the program's name spell.
fn shared_command_of(words: &Texts) -> Option<SharedCommand>
    ensures { result ≡ shared_command_of words.now }
{
    match words.as_slice() {
        [word] => shared_command_named(word.as_str()),
        [word, address, limit] => {
            shared_command_limited(word.as_str(), address.as_str(), limit.as_str())
        }
        _ => None,
    }
}

/// The command that a word alone spells.
fn shared_command_named(word: &str) -> Option<SharedCommand>
    ensures { result ≡ shared_command_named (chars word.now) }
{
    if word == "rehearse" {
        Some(SharedCommand::Rehearse)
    } else {
        None
    }
}

/// The command that a word, an address and a limit spell.
fn shared_command_limited(word: &str, address: &str, limit: &str) -> Option<SharedCommand>
    ensures { result ≡ shared_command_limited (chars word.now) address.now limit.now }
{
    if word == "serve" && !address.is_empty() {
        Some(SharedCommand::Serve(count_of(MOST_CONNECTIONS, limit)?))
    } else {
        None
    }
}

/// Does what the words after the program's name say, where callers share a log. A fault is answered
/// only where its object's count of faults rose. It may wait, and it starts threads: where one
/// can't be started, its caller runs in this one.
///
/// `rehearse` reads its input whole. A line that begins with a digit d from 1 to 8 and a space is
/// caller d's, the rest being its request; any other line is caller 1's. There are as many callers
/// as the greatest digit, and at least two, and each sends its requests in a thread of its own to
/// one log. Then the replies are written by callers, each behind its caller's digit and a space,
/// then the entries of the log, and then `legal yes`: the log and what each caller sent and got
/// make one legal history, and no other verdict can come. Its statuses are `Ended`, `WriteFault` (a
/// front of that was written), and, where nothing was written, `ReadFault`, `LineTooLong` (a line
/// has more than 1,048,576 bytes), `InputFull` (16,777,216 bytes came, and the end of the input
/// wasn't told by then) and `OutOfMemory`.
///
/// `serve ADDR LIMIT`, where ADDR isn't empty and LIMIT is from 1 to 1,000,000, serves as many
/// connections of the listener, or all that come, each in a thread of its own and as a caller of
/// one log: what a connection sends is answered as by `pipe`. Then it writes the line that says how
/// many sessions ended with the end of their input, how many were stopped by a fault or a cap, and
/// how many found no memory to begin with. Its statuses are `Ended`, `WriteFault` (a front of the
/// line was written), `ListenFault`, where the listener failed and the line was written as far as
/// it could be, and `OutOfMemory`, where no connection was taken in. It doesn't read the input.
///
/// Any other words are `Usage`.
pub fn top_shared<S: Source, K: Sink, L: Listener, G: Gate + Sync, R: Threads + Wait + Sync>(
    rt: &R,
    alloc: Global,
    words: &Texts,
    source: &mut S,
    sink: &mut K,
    listener: &mut L,
    gate: &G,
) -> Status
where
    L::From: Send + Drop,
    L::To: Send + Drop,

    // What was taken in and written, by the words and the status.
    ensures outcome { SharedOutcome (shared_command_of words.now) result
        (source.new ≡ source.old) (sink.new ≡ sink.old) (listener.new ≡ listener.old)
        (S.left source.old) (S.left source.new) (K.taken sink.old) (K.taken sink.new)
        (L.left listener.old) (L.left listener.new) }

    // A fault comes only where its object's count rose, and no count falls.
    ensures read_fault { result ≡ Status.ReadFault
        → Rose (S.faults source.old) (S.faults source.new) }
    ensures write_fault { result ≡ Status.WriteFault
        → Rose (K.faults sink.old) (K.faults sink.new) }
    ensures listen_fault { result ≡ Status.ListenFault
        → Rose (L.faults listener.old) (L.faults listener.new) }
    ensures source_count { S.faults source.old ≤ S.faults source.new }
    ensures sink_count { K.faults sink.old ≤ K.faults sink.new }
    ensures listener_count { L.faults listener.old ≤ L.faults listener.new }
{
    match shared_command_of(words) {
        Some(SharedCommand::Rehearse) => rehearse(rt, alloc, source, sink, gate),
        Some(SharedCommand::Serve(limit)) => serve_hub(rt, alloc, listener, sink, limit, gate),
        None => Status::Usage,
    }
}
