//! The line that sums the connections up.
ghost use Rattle.std.specs.Prelude.{◌++◌, OnErr, OnOk, decimal};
ghost use Rattle.std.specs.Io.KnownBytes.{Appends};
ghost use Rattle.mf_io.specs.Faults.{HasCause};
ghost use Rattle.mf_io.specs.Known.{TakesFront};
ghost use Rattle.mf_lines.specs.Served.{ended};
ghost use Rattle.mf_serve.specs.Serving.{tally_of};
ghost use Rattle.mf_service.specs.Summaries.{summary};

use itoa::Buffer;
use mf_io::{Failed, Sink, send};
use mf_serve::Served;

/// Writes the line that sums the connections up, and passes it on.
pub(crate) fn write_summary<K: Sink>(sink: &mut K, served: &Served) -> Result<(), Failed>
    ensures sent { OnOk result (Appends (K.taken sink.old) (K.taken sink.new)
        (ended (summary (tally_of served.now)))) }
    ensures stopped { OnErr result (TakesFront (K.taken sink.old) (K.taken sink.new)
        (ended (summary (tally_of served.now)))) }
    ensures cause { HasCause (K.faults sink.old) (K.faults sink.new) result }
{
    send_summary(sink, served)?;
    sink.flush()
}

/// Writes the line with its line feed.
fn send_summary<K: Sink>(sink: &mut K, served: &Served) -> Result<(), Failed>
    ensures sent { OnOk result (Appends (K.taken sink.old) (K.taken sink.new)
        (ended (summary (tally_of served.now)))) }
    ensures stopped { OnErr result (TakesFront (K.taken sink.old) (K.taken sink.new)
        (ended (summary (tally_of served.now)))) }
    ensures cause { HasCause (K.faults sink.old) (K.faults sink.new) result }
{
    send_number(sink, br#"{"ended":"#, served.ended)?;
    send_number(sink, br#","faulted":"#, served.faulted)?;
    send_number(sink, br#","ok":"serve","refused":"#, served.refused)?;
    send(sink, b"}\n")
}

/// Writes a piece, and then the digits of a number.
fn send_number<K: Sink>(sink: &mut K, piece: &[u8], number: u64) -> Result<(), Failed>
    ensures sent { OnOk result (Appends (K.taken sink.old) (K.taken sink.new)
        (piece.now ++ decimal number)) }
    ensures stopped { OnErr result (TakesFront (K.taken sink.old) (K.taken sink.new)
        (piece.now ++ decimal number)) }
    ensures cause { HasCause (K.faults sink.old) (K.faults sink.new) result }
{
    send(sink, piece)?;
    send(sink, Buffer::new().format(number).as_bytes())
}
