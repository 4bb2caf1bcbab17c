//! Connections over a hub of their own.
ghost use Rattle.std.specs.Prelude.{◌≡◌, ◌≤◌, None};
ghost use Rattle.mf_io.specs.Faults.{Rose};
ghost use Rattle.mf_serve.specs.Serving.{HasGiven, Stops, tally_of};
ghost use Rattle.mf_serve.specs.Tallies.{sessions};
ghost use Rattle.mf_service.specs.Services.{ServesHub};

use crate::summary::write_summary;
use crate::visit::{Service, Visit};
use mf_hub::{Hub, Pass};
use mf_io::{Failed, Gate, Listener, Sink, Status};
use mf_serve::{Served, Tally, serve};
use std::alloc::Global;
use std::sync::Wait;
use std::thread::Threads;

/// Serves connections of a listener, each in a thread of its own and as a caller of one hub, until
/// there were so many or no more come; then it writes the line that sums them up. That is written
/// after a fault of the listener too.
///
/// It ends with `Ended`, `WriteFault` (a front of the line was written), `ListenFault`, whether the
/// line could be written or not, or `OutOfMemory`, where no connection was taken in and nothing
/// written.
pub fn serve_hub<L: Listener, K: Sink, G: Gate + Sync, R: Threads + Wait + Sync>(
    rt: &R,
    alloc: Global,
    listener: &mut L,
    sink: &mut K,
    limit: u32,
    gate: &G,
) -> Status
where
    L::From: Send + Drop,
    L::To: Send + Drop,
    requires limit { limit ≤ 1000000 }

    ensures serves { ServesHub limit (L.left listener.old) (L.left listener.new)
        (K.taken sink.old) (K.taken sink.new)
        result (listener.new ≡ listener.old) (sink.new ≡ sink.old) }
    ensures listen_fault { result ≡ Status.ListenFault
        → Rose (L.faults listener.old) (L.faults listener.new) }
    ensures write_fault { result ≡ Status.WriteFault
        → Rose (K.faults sink.old) (K.faults sink.new) }
    ensures listener_count { L.faults listener.old ≤ L.faults listener.new }
    ensures sink_count { K.faults sink.old ≤ K.faults sink.new }
{
    match Hub::new(alloc) {
        Ok((hub, pass)) => {
            let served = serve_over(rt, alloc, listener, &hub, pass, limit, gate);
            let written = write_summary(sink, &served);
            match (served.status, written) {
                (Status::ListenFault, _) => Status::ListenFault,
                (_, Ok(())) => Status::Ended,
                (_, Err(Failed)) => Status::WriteFault,
            }
        }
        Err(_) => Status::OutOfMemory,
    }
}

/// Serves connections over a hub.
fn serve_over<L: Listener, G: Gate + Sync, R: Threads + Wait + Sync>(
    rt: &R,
    alloc: Global,
    listener: &mut L,
    hub: &Hub,
    pass: Pass,
    limit: u32,
    gate: &G,
) -> Served
where
    L::From: Send + Drop,
    L::To: Send + Drop,
    requires limit { limit ≤ 1000000 }
    requires own { pass.hub ≡ hub.now }
    requires unpinned { pass.view.pin ≡ None }

    ensures given { HasGiven (sessions (tally_of result))
        (L.left listener.old) (L.left listener.new) }
    ensures stops { Stops limit (sessions (tally_of result)) (L.left listener.old) result.status }
    ensures cause { result.status ≡ Status.ListenFault
        → Rose (L.faults listener.old) (L.faults listener.new) }
    ensures count { L.faults listener.old ≤ L.faults listener.new }
{
    let service = Service { hub, gate };
    let mut home = Visit {
        pass,
        tally: Tally::new(),
    };
    serve(rt, alloc, listener, &service, &mut home, limit as u64)
}
