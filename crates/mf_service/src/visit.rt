//! What is done with a connection: a session over the hub.
use mf_hub::{Hub, Pass};
use mf_io::{Caps, Gate, PassError, Sink, Source, Status};
use mf_serve::{Job, Tally};
use mf_session::session_shared;
use std::alloc::{AllocError, Global};
use std::sync::Wait;

/// The most bytes of a line, and the bytes at which the input of a connection stops.
const CAPS: Caps = Caps {
    line: 1_048_576,
    input: 4_294_967_296,
};

/// What the sessions of all connections share.
#[derive(Drop)]
pub(crate) struct Service<'a, G> {
    pub(crate) hub: &'a Hub,
    pub(crate) gate: &'a G,
}

/// What a session carries: its pass, and how the sessions ended that it has carried.
#[derive(Drop)]
pub(crate) struct Visit {
    pub(crate) pass: Pass,
    pub(crate) tally: Tally,
}

impl<S: Source, K: Sink, G: Gate> Job<S, K> for Service<'_, G> {
    ghost use Rattle.std.specs.Prelude.{◌≡◌, None};
    ghost use Rattle.mf_session.specs.Sharing.{SharedOutcome};
    ghost use Rattle.mf_service.specs.Services.{connection_caps};

    type Token = Visit;

    ghost owns = { λ service visit.
        (visit.pass.hub ≡ service.hub.now) × (visit.pass.view.pin ≡ None) };

    ghost tally = { λ visit. visit.tally };

    ghost runs = { λ service before after from from' to to' status.
        SharedOutcome connection_caps before.pass after.pass
        (S.left from) (S.left from') (K.taken to) (K.taken to')
        status (from' ≡ from) (to' ≡ to) };

    fn ready<R: Wait>(
        &self,
        rt: &R,
        _alloc: Global,
        home: &mut Visit,
    ) -> Result<Visit, AllocError> {
        for _ in rt.forever() {
            match self.hub.new_pass(rt, &mut home.pass) {
                Ok(pass) => {
                    return Ok(Visit {
                        pass,
                        tally: Tally::new(),
                    });
                }
                Err(PassError::OutOfMemory) => {
                    home.tally.count(Status::OutOfMemory);
                    return Err(AllocError);
                }
                // Other connections may be over by then.
                Err(PassError::CallersFull { .. }) => {}
            }
        }
        unreachable!()
    }

    fn run<R: Wait>(
        &self,
        rt: &R,
        alloc: Global,
        token: Visit,
        source: &mut S,
        sink: &mut K,
    ) -> (Status, Visit) {
        let Visit { pass, mut tally } = token;
        let (status, pass) = session_shared(
            rt, alloc, self.hub, pass, source, sink, &CAPS, self.gate,
        );
        tally.count(status);
        (status, Visit { pass, tally })
    }

    fn back<R: Wait>(&self, rt: &R, home: &mut Visit, token: Visit) {
        let Visit { pass, tally } = token;
        self.hub.leave(rt, &mut home.pass, pass);
        home.tally.add(tally);
    }
}
