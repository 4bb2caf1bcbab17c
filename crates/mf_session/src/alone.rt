//! A session with the one caller of a desk.
ghost use Rattle.std.specs.Prelude.{◌≡◌, ◌≤◌};
ghost use Rattle.mf_io.specs.Caps.{IsCaps};
ghost use Rattle.mf_io.specs.Faults.{Rose};
ghost use Rattle.mf_lines.specs.Sessions.{Outcome};
ghost use Rattle.mf_session.specs.Turns.{Turns};
ghost use Rattle.mf_transcript.specs.Sole.{Sole};

use crate::desk::answer;
use mf_hub::Alone;
use mf_io::{Caps, Sink, Source, Status};
use mf_lines::{Clerk, answer_input};
use mf_requests::RequestReader;
use mf_text::Text;
use std::alloc::{AllocError, Global};

/// Who answers at the desk of one caller.
#[derive(Drop)]
struct AloneClerk {
    reader: RequestReader,
}

impl Clerk for AloneClerk {
    type Desk = Alone;

    ghost answers = { Turns };

    fn answer(&mut self, alloc: Global, desk: &mut Alone, line: &[u8]) -> Result<Text, AllocError> {
        answer(alloc, &mut self.reader, desk, line)
    }
}

/// Answers each line of a source at a desk, in order, and writes each reply with its line feed to a
/// sink.
///
/// A line asks for a publication, for a sentence of the newest edition, for what there is to say of
/// a source, or for the counts. A line that finds no memory is answered by the memory line.
///
/// The session ends with `Ended` (the input was read to its end), `ReadFault`, `WriteFault`,
/// `LineTooLong` (a line has more bytes than its cap), `InputFull` (as many bytes as the cap on the
/// input came, and the end wasn't told by then) or `OutOfMemory`, before anything is read. What was
/// published stands.
pub fn session_alone<S: Source, K: Sink>(
    alloc: Global,
    desk: &mut Alone,
    source: &mut S,
    sink: &mut K,
    caps: &Caps,
) -> Status
    requires { IsCaps caps.now }

    // What was taken, answered and written, by the status.
    ensures outcome { Outcome Sole caps.now desk.old desk.new
        (S.left source.old) (S.left source.new) (K.taken sink.old) (K.taken sink.new)
        result (source.new ≡ source.old) (sink.new ≡ sink.old) }

    // A fault comes only where its object's count rose, and no count falls.
    ensures read_fault { result ≡ Status.ReadFault
        → Rose (S.faults source.old) (S.faults source.new) }
    ensures write_fault { result ≡ Status.WriteFault
        → Rose (K.faults sink.old) (K.faults sink.new) }
    ensures source_count { S.faults source.old ≤ S.faults source.new }
    ensures sink_count { K.faults sink.old ≤ K.faults sink.new }
{
    let mut clerk = AloneClerk {
        reader: RequestReader::new(alloc),
    };
    answer_input(alloc, &mut clerk, desk, source, sink, caps)
}
