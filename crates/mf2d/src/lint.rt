//! The command `lint`.
ghost use Rattle.std.specs.Prelude.{◌≡◌, ◌≤◌, IfOk, OnErr, OnOk, chars, encode_utf8_all};
ghost use Rattle.mf_io.specs.Faults.{HasCause, Rose};
ghost use Rattle.mf_transcript.specs.Replies.{IsLineOf, IsLintReply};
ghost use Rattle.mf2d.specs.Lint.{Lints, LintsInPart, LintsInput, LintsWhole};

use mf_io::{Failed, GatherError, Sink, Source, Status, gather};
use mf_lines::send_line;
use mf_session::lint_reply;
use mf_text::Text;
use mf_wire::{MEMORY_LINE, reply_line};
use std::alloc::{AllocError, Global};

/// The bytes at which `lint` stops reading: an input has fewer.
const CAP: u64 = 1_048_577;

/// The line for an input that is no UTF-8.
const BAD_UTF8_LINE: &str = r#"{"error":"bad-utf8"}"#;

/// Reads the whole input as one source, and writes its line.
pub(crate) fn lint<S: Source, K: Sink>(alloc: Global, source: &mut S, sink: &mut K) -> Status
    ensures lints { Lints result (source.new ≡ source.old) (sink.new ≡ sink.old)
        (S.left source.old) (S.left source.new) (K.taken sink.old) (K.taken sink.new) }
    ensures read_fault { result ≡ Status.ReadFault
        → Rose (S.faults source.old) (S.faults source.new) }
    ensures write_fault { result ≡ Status.WriteFault
        → Rose (K.faults sink.old) (K.faults sink.new) }
    ensures source_count { S.faults source.old ≤ S.faults source.new }
    ensures sink_count { K.faults sink.old ≤ K.faults sink.new }
{
    match gather(alloc, source, CAP) {
        Ok(input) => match write_line(alloc, &input, sink) {
            Ok(()) => Status::Ended,
            Err(Failed) => Status::WriteFault,
        },
        Err(GatherError::Failed) => Status::ReadFault,
        Err(GatherError::Full) => Status::LineTooLong,
        Err(GatherError::OutOfMemory) => Status::OutOfMemory,
    }
}

/// Writes the line of an input, and passes it on.
fn write_line<K: Sink>(alloc: Global, input: &[u8], sink: &mut K) -> Result<(), Failed>
    ensures whole { OnOk result (LintsWhole input.now (K.taken sink.old) (K.taken sink.new)) }
    ensures part { OnErr result (LintsInPart input.now (K.taken sink.old) (K.taken sink.new)) }
    ensures cause { HasCause (K.faults sink.old) (K.faults sink.new) result }
{
    send_answer(alloc, input, sink)?;
    sink.flush()
}

/// Writes the line of an input.
fn send_answer<K: Sink>(alloc: Global, input: &[u8], sink: &mut K) -> Result<(), Failed>
    ensures whole { OnOk result (LintsWhole input.now (K.taken sink.old) (K.taken sink.new)) }
    ensures part { OnErr result (LintsInPart input.now (K.taken sink.old) (K.taken sink.new)) }
    ensures cause { HasCause (K.faults sink.old) (K.faults sink.new) result }
{
    match input_line(alloc, input) {
        Ok(line) => send_line(sink, line.as_str().as_bytes()),
        Err(_) => send_line(sink, MEMORY_LINE),
    }
}

/// The line of an input.
fn input_line(alloc: Global, input: &[u8]) -> Result<Text, AllocError>
    ensures { IfOk result (λ line. LintsInput input.now (encode_utf8_all line)) }
{
    match str::from_utf8(input) {
        Ok(source) => source_line(alloc, source),
        Err(_) => Text::of(alloc, BAD_UTF8_LINE),
    }
}

/// The line of a source.
fn source_line(alloc: Global, source: &str) -> Result<Text, AllocError>
    ensures { IfOk result (λ line. IsLineOf (IsLintReply (chars source.now)) (encode_utf8_all line)) }
{
    reply_line(alloc, &lint_reply(alloc, source)?)
}
