//! Sessions, each in a thread of its own.
ghost use Rattle.std.specs.Prelude.{◌≡◌, IfOk, IfErr};
ghost use Rattle.mf_serve.specs.Tallies.{counted, no_sessions};

use crate::Job;
use mf_io::{Sink, Source, Status};
use std::alloc::{AllocError, Global};
use std::marker::PhantomData;
use std::snapshot::Snapshot;
use std::sync::atomic::{AtomicBool, Ordering};
use std::sync::{Arc, Wait};
use std::thread::{Promise, PromisedHandle, Scope, Threads};

/// That a token comes back which is the job's own and has counted one session, the one that it was
/// carried through.
#[derive(Drop)]
pub(crate) struct OneSession<J, S, K> {
    job: Snapshot<J>,
    ends: PhantomData<(S, K)>,
}

impl<S: Source, K: Sink, T, J: Job<S, K, Token = T>> Promise<(Status, T)> for OneSession<J, S, K> {
    ghost use Rattle.std.specs.Prelude.{◌≡◌};
    ghost use Rattle.mf_serve.specs.Tallies.{counted, no_sessions};

    ghost kept_by = { λ p r. J.owns p.job.value r.1 × (J.tally r.1 ≡ counted r.0 no_sessions) };
}

/// A session that runs in a thread, and whether it is over.
#[derive(Drop)]
pub(crate) struct Running<S: Source, K: Sink, T: Drop, J: Job<S, K, Token = T>> {
    thread: PromisedHandle<(Status, T), OneSession<J, S, K>>,
    over: Arc<AtomicBool, Global>,
}

impl<S: Source, K: Sink, T: Drop, J: Job<S, K, Token = T>> Running<S, K, T, J> {
    /// Whether the session is over, so that its thread isn't waited for.
    pub(crate) fn is_over(&self) -> bool {
        self.over.load(Ordering::SeqCst)
    }

    /// How the session ended, and its token. It waits for the end.
    pub(crate) fn end<R: Threads>(self, rt: &R) -> (Status, T)
        ensures own { J.owns self.thread.promise.job.value result.1 }
        ensures one { J.tally result.1 ≡ counted result.0 no_sessions }
    {
        self.thread.join(rt)
    }
}

/// Runs the session of a connection, and lets go of the connection.
#[tactic(auto, using(crate::proofs::Counts::fresh_room))]
pub(crate) fn attend<S: Source + Drop, K: Sink + Drop, T, J: Job<S, K, Token = T>, R: Wait>(
    rt: &R,
    alloc: Global,
    job: &J,
    token: T,
    source: S,
    sink: K,
) -> (Status, T)
    requires own { J.owns job.now token }
    requires fresh { J.tally token ≡ no_sessions }
    ensures own { J.owns job.now result.1 }
    ensures one { J.tally result.1 ≡ counted result.0 no_sessions }
{
    let mut source = source;
    let mut sink = sink;
    job.run(rt, alloc, token, &mut source, &mut sink)
}

/// Starts the session of a connection in a thread. Where no thread can be made it is run here, and
/// `Err` has its end.
pub(crate) fn start<
    's,
    E: 's,
    S: Source + Send + Drop + 's,
    K: Sink + Send + Drop + 's,
    T: Send + Drop + 's,
    J: Job<S, K, Token = T> + Sync,
    R: Wait + Sync,
>(
    rt: &'s R,
    alloc: Global,
    scope: &Scope<'s, E>,
    job: &'s J,
    token: T,
    source: S,
    sink: K,
) -> Result<Running<S, K, T, J>, (Status, T)>
    requires own { J.owns job.now token }
    requires fresh { J.tally token ≡ no_sessions }
    ensures thread { IfOk result (λ running. running.thread.promise.job.value ≡ job.now) }
    ensures own { IfErr result (λ end. J.owns job.now end.1) }
    ensures one { IfErr result (λ end. J.tally end.1 ≡ counted end.0 no_sessions) }
{
    let Ok((over, told)) = two_ends(alloc) else {
        return Err(attend(rt, alloc, job, token, source, sink));
    };
    let promise = OneSession {
        job: Snapshot::of(job),
        ends: PhantomData,
    };
    match scope.spawn_with(
        promise,
        move || -> (Status, T)
            requires { J.owns job.now token × (J.tally token ≡ no_sessions) }
            ensures { J.owns job.entry.now result.1
                × (J.tally result.1 ≡ counted result.0 no_sessions) }
        {
            let end = attend(rt, alloc, job, token, source, sink);
            told.store(true, Ordering::SeqCst);
            end
        },
    ) {
        Ok(thread) => Ok(Running { thread, over }),
        Err(refused) => Err((refused.value)()),
    }
}

/// A flag that isn't set, held by two.
fn two_ends(
    alloc: Global,
) -> Result<(Arc<AtomicBool, Global>, Arc<AtomicBool, Global>), AllocError> {
    let over = Arc::new(alloc, AtomicBool::new(false))?;
    let told = Arc::try_clone(&over)?;
    Ok((over, told))
}
