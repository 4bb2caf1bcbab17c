//! Where connections come from.
ghost use Rattle.std.specs.Prelude.{ℕ, Option};
ghost use Rattle.mf_io.specs.Faults.{HasCause};
ghost use Rattle.mf_io.specs.Links.{LeavesLinks};

use crate::{Failed, Sink, Source};

/// Connections to serve, which come one after another. Each is a source and a sink.
///
/// `left` is the number of connections still to come, where the listener tells it: a socket
/// doesn't. `faults` counts the calls that failed.
pub trait Listener {
    type From: Source;

    type To: Sink;

    ghost left: { Self → Option ℕ };

    ghost faults: { Self → ℕ };

    /// Gives the next connection, or none where no more come. A call that fails gives none, and may
    /// be tried again.
    fn accept(&mut self) -> Result<Option<(Self::From, Self::To)>, Failed>
        ensures left { LeavesLinks (left self.old) (left self.new) result }
        ensures cause { HasCause (faults self.old) (faults self.new) result };
}
