//! Taking connections in.
ghost use Rattle.std.specs.Prelude.{◌≡◌, ◌≤◌, ◌+◌, vec_len};
ghost use Rattle.mf_io.specs.Faults.{Rose};
ghost use Rattle.mf_io.specs.declared.statuses.Status.TheVariants.{ListenFault};
ghost use Rattle.mf_serve.specs.Serving.{HasGiven, Serves, Stops, tally_of};
ghost use Rattle.mf_serve.specs.Tallies.{no_sessions, sessions};

use crate::crew::Crew;
use crate::{Job, Tally};
use mf_io::{Failed, Listener, Status};
use std::alloc::Global;
use std::sync::Wait;
use std::thread;
use std::thread::{Scope, Threads};

/// How the sessions of all connections ended, and why no more were taken in.
#[derive(Clone, Copy, Debug, PartialEq, Eq)]
pub struct Served {
    /// `Ended` at the limit or where no more connections come, `ListenFault` where the listener
    /// failed.
    pub status: Status,
    /// How many read their input to its end.
    pub ended: u64,
    /// How many were stopped by a fault or a cap.
    pub faulted: u64,
    /// How many found no memory to begin with.
    pub refused: u64,
}

impl Served {
    fn of(status: Status, tally: Tally) -> Served
        ensures status { result.status ≡ status }
        ensures tally { tally_of result ≡ tally }
    {
        Served {
            status,
            ended: tally.ended,
            faulted: tally.faulted,
            refused: tally.refused,
        }
    }
}

/// Serves connections of a listener, each in a thread of its own, until there were so many, no more
/// come, or the listener fails. It returns once every session is over.
///
/// A connection is served on this thread where no other can be started, so the next one waits for
/// it, and one for which the job has no token is let go and counted as refused.
pub fn serve<L: Listener, J: Job<L::From, L::To> + Sync, R: Threads + Wait + Sync>(
    rt: &R,
    alloc: Global,
    listener: &mut L,
    job: &J,
    home: &mut J::Token,
    limit: u64,
) -> Served
where
    L::From: Send + Drop,
    L::To: Send + Drop,
    J::Token: Send + Drop,
    requires limit { limit ≤ 1000000 }
    requires own { J.owns job.now home.old }
    requires fresh { J.tally home.old ≡ no_sessions }

    ensures own { J.owns job.now home.new }
    ensures tally { J.tally home.new ≡ tally_of result }
    ensures given { HasGiven (sessions (tally_of result))
        (L.left listener.old) (L.left listener.new) }
    ensures stops { Stops limit (sessions (tally_of result)) (L.left listener.old) result.status }
    ensures cause { result.status ≡ ListenFault
        → Rose (L.faults listener.old) (L.faults listener.new) }
    ensures count { L.faults listener.old ≤ L.faults listener.new }
{
    let (served, _listener) = serve_from(rt, alloc, listener, job, home, limit);
    served
}

/// The same, with the listener handed back: the closure of a scope tells what it did to a `&mut`
/// only where it gives that back, and of several such references its caller learns it for the last.
fn serve_from<'l, L: Listener, J: Job<L::From, L::To> + Sync, R: Threads + Wait + Sync>(
    rt: &R,
    alloc: Global,
    listener: &'l mut L,
    job: &J,
    home: &mut J::Token,
    limit: u64,
) -> (Served, &'l mut L)
where
    L::From: Send + Drop,
    L::To: Send + Drop,
    J::Token: Send + Drop,
    requires limit { limit ≤ 1000000 }
    requires own { J.owns job.now home.old }
    requires fresh { J.tally home.old ≡ no_sessions }

    ensures own { J.owns job.now home.new }
    ensures tally { J.tally home.new ≡ tally_of result.0 }
    ensures serves { Serves limit (sessions (tally_of result.0)) result.0.status
        (L.left listener.old) (L.left result.1.now)
        (L.faults listener.old) (L.faults result.1.now) }
    ensures same { result.1.ghost_name ≡ listener.entry.ghost_name }
{
    let (served, listener, _home) = thread::scope(
        thread::scope_env(),
        rt,
        move |scope| -> (Served, &mut L, &mut J::Token)
            requires limit { limit ≤ 1000000 }
            requires own { J.owns job.now home.now }
            requires fresh { J.tally home.now ≡ no_sessions }

            ensures own { J.owns job.entry.now result.2.now }
            ensures tally { J.tally result.2.now ≡ tally_of result.0 }
            ensures serves { Serves limit (sessions (tally_of result.0)) result.0.status
                (L.left listener.entry.now) (L.left result.1.now)
                (L.faults listener.entry.now) (L.faults result.1.now) }
            ensures same { result.1.ghost_name ≡ listener.entry.ghost_name }
            ensures home { result.2.ghost_name ≡ home.entry.ghost_name }
        {
            let served = serve_in(rt, alloc, scope, &mut *listener, job, &mut *home, limit);
            (served, listener, home)
        },
    );
    (served, listener)
}

/// The same with a scope for the threads.
fn serve_in<'s, 'e: 's, L: Listener, J: Job<L::From, L::To> + Sync, R: Threads + Wait + Sync>(
    rt: &'e R,
    alloc: Global,
    scope: &'s Scope<'s, &'e ()>,
    listener: &mut L,
    job: &'e J,
    home: &mut J::Token,
    limit: u64,
) -> Served
where
    L::From: Send + Drop + 'e,
    L::To: Send + Drop + 'e,
    J::Token: Send + Drop + 'e,
    requires limit { limit ≤ 1000000 }
    requires own { J.owns job.now home.old }
    requires fresh { J.tally home.old ≡ no_sessions }

    ensures own { J.owns job.now home.new }
    ensures tally { J.tally home.new ≡ tally_of result }
    ensures serves { Serves limit (sessions (tally_of result)) result.status
        (L.left listener.old) (L.left listener.new)
        (L.faults listener.old) (L.faults listener.new) }
{
    let mut crew = Crew::new(alloc, job);
    let status = take_in(rt, alloc, scope, listener, &mut crew, home, limit);
    Served::of(status, crew.finish(rt, home))
}

/// Takes connections in, and says why no more are.
fn take_in<
    's,
    'e: 's,
    'r: 's,
    'j: 's,
    L: Listener,
    J: Job<L::From, L::To> + Sync,
    R: Threads + Wait + Sync,
>(
    rt: &'r R,
    alloc: Global,
    scope: &Scope<'s, &'e ()>,
    listener: &mut L,
    crew: &mut Crew<'j, L::From, L::To, J::Token, J>,
    home: &mut J::Token,
    limit: u64,
) -> Status
where
    L::From: Send + Drop + 'j,
    L::To: Send + Drop + 'j,
    J::Token: Send + Drop + 'j,
    requires limit { limit ≤ 1000000 }
    requires own { J.owns crew.old.job.now home.old }
    requires tally { J.tally home.old ≡ crew.old.tally }
    requires none { sessions crew.old.tally + vec_len crew.old.running ≡ 0 }

    ensures job { crew.new.job.now ≡ crew.old.job.now }
    ensures own { J.owns crew.new.job.now home.new }
    ensures tally { J.tally home.new ≡ crew.new.tally }
    ensures serves { Serves limit (sessions crew.new.tally + vec_len crew.new.running) result
        (L.left listener.old) (L.left listener.new)
        (L.faults listener.old) (L.faults listener.new) }
{
    let mut taken: u64 = 0;
    while taken < limit {
        match listener.accept() {
            Ok(Some((source, sink))) => crew.admit(rt, alloc, scope, home, source, sink),
            Ok(None) => return Status::Ended,
            Err(Failed) => return Status::ListenFault,
        }
        taken += 1;
    }
    Status::Ended
}
