//! Who answers a line, and how the reply is written.
ghost use Rattle.std.specs.Prelude.{ℕ, List, IfOk, OnErr, OnOk, encode_utf8_all};
ghost use Rattle.std.specs.Io.KnownBytes.{Appends};
ghost use Rattle.mf_io.specs.Faults.{HasCause};
ghost use Rattle.mf_io.specs.Known.{TakesFront};
ghost use Rattle.mf_wire.specs.Replies.{memory_line};
ghost use Rattle.mf_lines.specs.Served.{ended};

use mf_io::{Failed, Sink, send};
use mf_text::Text;
use std::alloc::{AllocError, Global};

/// Who answers lines at a desk, one after the other. A clerk may keep memory from line to line, on
/// which no answer rests.
pub trait Clerk {
    /// What is kept from one line to the next.
    type Desk;

    /// A line is answered by a reply, from one state of the desk to the next.
    ghost answers: { Self.Desk → List ℕ → List ℕ → Self.Desk → Type 0 };

    /// The reply line to a line, both without their line feeds.
    ///
    /// # Errors
    ///
    /// `AllocError` where there is no memory for the reply: the line is answered by the memory line
    /// then.
    fn answer(
        &mut self,
        alloc: Global,
        desk: &mut Self::Desk,
        line: &[u8],
    ) -> Result<Text, AllocError>
        ensures ok { IfOk result (λ reply.
            answers desk.old line.now (encode_utf8_all reply) desk.new) }
        ensures err { OnErr result (answers desk.old line.now memory_line desk.new) };
}

/// Writes a reply with its line feed.
///
/// # Errors
///
/// `Failed` where a write failed: a front of the two was taken then.
pub fn send_line<K: Sink>(sink: &mut K, reply: &[u8]) -> Result<(), Failed>
    ensures sent { OnOk result (Appends (K.taken sink.old) (K.taken sink.new) (ended reply.now)) }
    ensures stopped { OnErr result
        (TakesFront (K.taken sink.old) (K.taken sink.new) (ended reply.now)) }
    ensures cause { HasCause (K.faults sink.old) (K.faults sink.new) result }
{
    send(sink, reply)?;
    send(sink, b"\n")
}
