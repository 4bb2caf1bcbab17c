//! A session with one of the callers that share a log.
ghost use Rattle.std.specs.Prelude.{◌≡◌, ◌≤◌};
ghost use Rattle.mf_io.specs.Caps.{IsCaps};
ghost use Rattle.mf_io.specs.Faults.{Rose};
ghost use Rattle.mf_session.specs.Sharing.{Calls, IsFree, SharedOutcome};

use crate::calls::answer_shared;
use mf_hub::{Hub, Pass};
use mf_io::{Caps, Gate, Sink, Source, Status};
use mf_lines::{Clerk, answer_input};
use mf_requests::RequestReader;
use mf_text::Text;
use std::alloc::{AllocError, Global};
use std::marker::Model;
use std::sync::Wait;

/// A pass at the hub that it is of, seen as the pass.
#[derive(Drop)]
struct Counter<'h> {
    hub: &'h Hub,
    pass: Pass,
}

impl<'h> Model for Counter<'h> {
    ghost use Rattle.std.specs.Prelude.{◌≡◌};
    ghost use Rattle.mf_hub.specs.Passes.{PassState};

    ghost Value = { PassState };

    ghost view = { λ c. c.pass };

    ghost invariant = { λ c. c.pass.hub ≡ c.hub.now };
}

/// Who answers one of the callers that share a log.
#[derive(Drop)]
struct SharedClerk<'c, R, G> {
    rt: &'c R,
    gate: &'c G,
    reader: RequestReader,
}

impl<'c, R: Wait, G: Gate> Clerk for SharedClerk<'c, R, G> {
    type Desk = Counter<'c>;

    ghost answers = { Calls };

    fn answer(
        &mut self,
        alloc: Global,
        desk: &mut Counter<'c>,
        line: &[u8],
    ) -> Result<Text, AllocError> {
        answer_shared(
            self.rt,
            alloc,
            self.gate,
            &mut self.reader,
            desk.hub,
            &mut desk.pass,
            line,
        )
    }
}

/// Answers each line of a source over a hub, in order, as the caller of a pass, and writes each
/// reply with its line feed to a sink. The pass comes back without a pin.
///
/// Lines, replies and statuses are those of [`session_alone`](crate::session_alone). Each sentence
/// is of the edition that is the newest when the request is answered; it is pinned for that and let
/// go before the reply is written, so that a slow peer holds no edition. The gate is passed before
/// each pin, and before and after each compilation.
pub fn session_shared<S: Source, K: Sink, G: Gate, R: Wait>(
    rt: &R,
    alloc: Global,
    hub: &Hub,
    pass: Pass,
    source: &mut S,
    sink: &mut K,
    caps: &Caps,
    gate: &G,
) -> (Status, Pass)
    requires caps { IsCaps caps.now }
    requires own { pass.hub ≡ hub.now }

    ensures own { result.1.hub ≡ hub.now }
    ensures free { IsFree result.1.view }

    // What was taken, answered and written, by the status.
    ensures outcome { SharedOutcome caps.now pass result.1
        (S.left source.old) (S.left source.new) (K.taken sink.old) (K.taken sink.new)
        result.0 (source.new ≡ source.old) (sink.new ≡ sink.old) }

    // A fault comes only where its object's count rose, and no count falls.
    ensures read_fault { result.0 ≡ Status.ReadFault
        → Rose (S.faults source.old) (S.faults source.new) }
    ensures write_fault { result.0 ≡ Status.WriteFault
        → Rose (K.faults sink.old) (K.faults sink.new) }
    ensures source_count { S.faults source.old ≤ S.faults source.new }
    ensures sink_count { K.faults sink.old ≤ K.faults sink.new }
{
    pass.is_at_rest();
    let _ = pass.number();
    let mut clerk = SharedClerk {
        rt,
        gate,
        reader: RequestReader::new(alloc),
    };
    let mut counter = Counter { hub, pass };
    let status = answer_input(alloc, &mut clerk, &mut counter, source, sink, caps);
    let Counter { hub: _, mut pass } = counter;
    hub.unpin(rt, &mut pass);
    pass.is_at_rest();
    (status, pass)
}
