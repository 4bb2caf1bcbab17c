//! A job that sends back what it is sent.
ghost use Rattle.std.specs.Prelude.{◌≡◌};
ghost use Rattle.mf_io.specs.declared.statuses.Status.TheVariants.{Ended};
ghost use Rattle.mf_serve.specs.Tallies.{counted, no_sessions};
ghost use Rattle.mf_serve_rows.specs.Echoes.{SendsBack};

use mf_io::{Gate, GatherError, Place, Sink, Source, Status, gather, send};
use mf_serve::{Job, Tally};
use std::alloc::{AllocError, Global};
use std::sync::Wait;
use std::sync::atomic::{AtomicU64, Ordering};

/// More bytes than a session takes.
const CAP: u64 = 4096;

/// What a session carries: the house that its token is of, and the sessions that it has carried.
#[derive(Clone, Copy, Debug, PartialEq, Eq)]
pub struct Visit {
    pub house: u64,
    pub tally: Tally,
}

/// Sends back what it is sent, once the peer has sent all of it.
#[derive(Drop)]
pub struct Echo<G> {
    /// The house that its tokens are of.
    pub house: u64,
    /// What a session passes before it reads, and after it has written.
    pub gate: G,
    /// How many tokens came back.
    pub returned: AtomicU64,
    most: u64,
    given: AtomicU64,
}

impl<G> Echo<G> {
    /// A job of a house with so many tokens.
    pub fn new(house: u64, gate: G, most: u64) -> Echo<G>
        ensures { result.house ≡ house }
    {
        Echo {
            house,
            gate,
            returned: AtomicU64::new(0),
            most,
            given: AtomicU64::new(0),
        }
    }

    /// A token that has carried no session.
    pub fn visit(&self) -> Visit
        ensures house { result.house ≡ self.now.house }
        ensures tally { result.tally ≡ no_sessions }
    {
        Visit {
            house: self.house,
            tally: Tally::new(),
        }
    }
}

impl<S: Source, K: Sink, G: Gate> Job<S, K> for Echo<G> {
    ghost use Rattle.std.specs.Prelude.{◌≡◌};
    ghost use Rattle.mf_serve_rows.specs.Echoes.{SendsBack};

    type Token = Visit;

    ghost owns = { λ echo visit. visit.house ≡ echo.house };

    ghost tally = { λ visit. visit.tally };

    ghost runs = { λ echo before after from from' to to' status.
        SendsBack (S.left from) (K.taken to) (K.taken to') status };

    fn ready<R: Wait>(
        &self,
        _rt: &R,
        _alloc: Global,
        home: &mut Visit,
    ) -> Result<Visit, AllocError> {
        if self.given.fetch_add(1, Ordering::SeqCst) >= self.most {
            home.tally.count(Status::OutOfMemory);
            return Err(AllocError);
        }
        Ok(self.visit())
    }

    fn run<R: Wait>(
        &self,
        rt: &R,
        alloc: Global,
        token: Visit,
        source: &mut S,
        sink: &mut K,
    ) -> (Status, Visit) {
        self.gate.at(rt, Place::BeforePin);
        let status = send_back(alloc, source, sink);
        self.gate.at(rt, Place::AfterCompile);
        let mut token = token;
        token.tally.count(status);
        (status, token)
    }

    fn back<R: Wait>(&self, _rt: &R, home: &mut Visit, token: Visit) {
        home.tally.add(token.tally);
        self.returned.fetch_add(1, Ordering::SeqCst);
    }
}

/// Sends back what a source has left.
fn send_back<S: Source, K: Sink>(alloc: Global, source: &mut S, sink: &mut K) -> Status
    ensures { SendsBack (S.left source.old) (K.taken sink.old) (K.taken sink.new) result }
{
    let input = match gather(alloc, source, CAP) {
        Ok(input) => input,
        Err(GatherError::Failed) => return Status::ReadFault,
        Err(GatherError::Full) => return Status::InputFull,
        Err(GatherError::OutOfMemory) => return Status::OutOfMemory,
    };
    match send(sink, input.as_slice()) {
        Ok(()) => Status::Ended,
        Err(_) => Status::WriteFault,
    }
}
