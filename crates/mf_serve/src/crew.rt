//! The sessions that run beside one another, and those that are over.
ghost use Rattle.std.specs.Prelude.{◌≡◌, ◌+◌, ◌<◌, ◌≤◌, [], All, vec_len};
ghost use Rattle.mf_serve.specs.Tallies.{counted, no_sessions, sessions};

use crate::sessions::{Running, attend, start};
use crate::{Job, Tally};
use mf_io::{Sink, Source, Status};
use std::alloc::Global;
use std::sync::Wait;
use std::thread::{Scope, Threads};

/// How many sessions may run before those that are over are looked for.
const FEW: usize = 16;

/// The sessions of a job that run, and the tally of those that are over.
#[derive(Drop)]
pub(crate) struct Crew<'j, S: Source, K: Sink, T: Drop, J: Job<S, K, Token = T>> {
    pub(crate) job: &'j J,
    pub(crate) tally: Tally,
    pub(crate) running: Vec<Running<S, K, T, J>>,
    many: usize,
    ghost own: { All (λ r. r.thread.promise.job.value ≡ job.now) running.items },
}

impl<
    'j,
    S: Source + Send + Drop + 'j,
    K: Sink + Send + Drop + 'j,
    T: Send + Drop + 'j,
    J: Job<S, K, Token = T> + Sync,
> Crew<'j, S, K, T, J> {
    /// No session of a job yet.
    pub(crate) fn new(alloc: Global, job: &'j J) -> Crew<'j, S, K, T, J>
        ensures job { result.job.now ≡ job.now }
        ensures tally { result.tally ≡ no_sessions }
        ensures running { vec_len result.running ≡ 0 }
    {
        Crew {
            job,
            tally: Tally::new(),
            running: Vec::new(alloc),
            many: FEW,
        }
    }

    /// Takes a connection in: its session is started, or counted as refused.
    pub(crate) fn admit<'s, E: 's, R: Threads + Wait + Sync>(
        &mut self,
        rt: &'s R,
        alloc: Global,
        scope: &Scope<'s, E>,
        home: &mut T,
        source: S,
        sink: K,
    )
    where
        'j: 's,
        requires own { J.owns self.old.job.now home.old }
        requires tally { J.tally home.old ≡ self.old.tally }
        requires room { sessions self.old.tally + vec_len self.old.running < 1000000 }
        ensures job { self.new.job.now ≡ self.old.job.now }
        ensures own { J.owns self.new.job.now home.new }
        ensures tally { J.tally home.new ≡ self.new.tally }
        ensures one { sessions self.new.tally + vec_len self.new.running
            ≡ sessions self.old.tally + vec_len self.old.running + 1 }
    {
        if self.running.len() >= self.many {
            self.gather(rt, home);
            self.many = self.running.len().saturating_mul(2).max(FEW);
        }
        let Ok(token) = self.job.ready(rt, alloc, home) else {
            self.tally.count(Status::OutOfMemory);
            return;
        };
        if self.running.reserve(1).is_err() {
            let (status, token) = attend(rt, alloc, self.job, token, source, sink);
            self.settle(rt, home, status, token);
            return;
        }
        match start(rt, alloc, scope, self.job, token, source, sink) {
            Ok(running) => self.running.push_reserved(running),
            Err((status, token)) => self.settle(rt, home, status, token),
        }
    }

    /// Takes home the tokens of the sessions that are over.
    fn gather<R: Threads + Wait>(&mut self, rt: &R, home: &mut T)
        requires own { J.owns self.old.job.now home.old }
        requires tally { J.tally home.old ≡ self.old.tally }
        requires room { sessions self.old.tally + vec_len self.old.running < 1000000 }
        ensures job { self.new.job.now ≡ self.old.job.now }
        ensures own { J.owns self.new.job.now home.new }
        ensures tally { J.tally home.new ≡ self.new.tally }
        ensures same { sessions self.new.tally + vec_len self.new.running
            ≡ sessions self.old.tally + vec_len self.old.running }
    {
        let mut at = 0;
        while at < self.running.len() {
            if self.running[at].is_over() {
                let (status, token) = self.running.swap_remove(at).end(rt);
                self.settle(rt, home, status, token);
            } else {
                at += 1;
            }
        }
    }

    /// Waits for the sessions that still run, and takes their tokens home.
    pub(crate) fn finish<R: Threads + Wait>(self, rt: &R, home: &mut T) -> Tally
        requires own { J.owns self.job.now home.old }
        requires tally { J.tally home.old ≡ self.tally }
        requires room { sessions self.tally + vec_len self.running ≤ 1000000 }
        ensures own { J.owns self.entry.job.now home.new }
        ensures tally { J.tally home.new ≡ result }
        ensures all { sessions result ≡ sessions self.entry.tally + vec_len self.entry.running }
    {
        let mut crew = self;
        while let Some(running) = crew.running.pop() {
            let (status, token) = running.end(rt);
            crew.settle(rt, home, status, token);
        }
        crew.tally
    }

    /// Takes a token home, and counts how its session ended.
    fn settle<R: Wait>(&mut self, rt: &R, home: &mut T, status: Status, token: T)
        requires home { J.owns self.old.job.now home.old }
        requires own { J.owns self.old.job.now token }
        requires one { J.tally token ≡ counted status no_sessions }
        requires tally { J.tally home.old ≡ self.old.tally }
        requires room { sessions self.old.tally < 1000000 }
        ensures job { self.new.job.now ≡ self.old.job.now }
        ensures home { J.owns self.new.job.now home.new }
        ensures tally { J.tally home.new ≡ self.new.tally }
        ensures counted { sessions self.new.tally ≡ sessions self.old.tally + 1 }
        ensures running { self.new.running ≡ self.old.running }
    {
        self.job.back(rt, home, token);
        self.tally.count(status);
    }
}
