//! What is done with a connection.
ghost use Rattle.std.specs.Prelude.{◌≡◌, IfOk, OnErr};
ghost use Rattle.mf_io.specs.declared.statuses.Status.{Status};
ghost use Rattle.mf_io.specs.declared.statuses.Status.TheVariants.{OutOfMemory};
ghost use Rattle.mf_serve.specs.declared.tallies.Tally.{Tally};
ghost use Rattle.mf_serve.specs.Tallies.{HasRoom, HasRoomFor, added, counted, no_sessions};

use mf_io::{Sink, Source, Status};
use std::alloc::{AllocError, Global};
use std::sync::Wait;

/// What is done with a connection. It is shared by the threads of all connections.
///
/// A token is what a session carries with it. Whoever serves has a token called home: `ready` takes
/// one for a session from it, `run` carries that one through the session, and `back` puts it back.
/// `owns` says that a token is this job's own, `tally` how the sessions ended that it has carried,
/// and `runs` what a run promises of the token, the source and the sink, each before and after, and
/// of the status.
pub trait Job<S: Source, K: Sink> {
    type Token;

    ghost owns: { Self → Self.Token → Type 0 };

    ghost tally: { Self.Token → Tally };

    ghost runs: { Self → Self.Token → Self.Token → S → S → K → K → Status → Type 0 };

    /// A token for one session.
    ///
    /// # Errors
    ///
    /// There is no memory for it. Home counts a session that was refused.
    fn ready<R: Wait>(
        &self,
        rt: &R,
        alloc: Global,
        home: &mut Self::Token,
    ) -> Result<Self::Token, AllocError>
        requires own { owns self.now home.old }
        requires room { HasRoom (tally home.old) }
        ensures own { IfOk result (owns self.now) }
        ensures fresh { IfOk result (λ token. tally token ≡ no_sessions) }
        ensures kept { IfOk result (λ token. tally home.new ≡ tally home.old) }
        ensures home { owns self.now home.new }
        ensures refused { OnErr result (tally home.new ≡ counted OutOfMemory (tally home.old)) };

    /// Carries a token through the session of a connection, and says how it ended.
    fn run<R: Wait>(
        &self,
        rt: &R,
        alloc: Global,
        token: Self::Token,
        source: &mut S,
        sink: &mut K,
    ) -> (Status, Self::Token)
        requires own { owns self.now token }
        requires room { HasRoom (tally token) }
        ensures own { owns self.now result.1 }
        ensures tally { tally result.1 ≡ counted result.0 (tally token) }
        ensures runs { runs self.now token result.1
            source.old source.new sink.old sink.new result.0 };

    /// Takes a token back home, with its sessions.
    fn back<R: Wait>(&self, rt: &R, home: &mut Self::Token, token: Self::Token)
        requires home { owns self.now home.old }
        requires own { owns self.now token }
        requires room { HasRoomFor (tally token) (tally home.old) }
        ensures home { owns self.now home.new }
        ensures tally { tally home.new ≡ added (tally token) (tally home.old) };
}
