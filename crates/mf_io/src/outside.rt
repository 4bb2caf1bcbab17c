//! The two ends of a session.
ghost use Rattle.std.specs.Prelude.{ℕ, List, Option, IfOk, length, ◌<◌};
ghost use Rattle.std.specs.Io.{ReadsAtMost, WritesAtMost};
ghost use Rattle.std.specs.Io.KnownBytes.{Keeps, ReadConsumes, WriteAppends};
ghost use Rattle.mf_io.specs.Faults.{HasCause};

use thiserror::Error;

/// A call of a source, a sink or a listener failed, and its count of faults rose or stands at its
/// last value.
#[derive(Clone, Copy, Debug, PartialEq, Eq, Error)]
#[error("reading, writing or accepting failed")]
pub struct Failed;

/// Bytes to read, which come in parts.
///
/// `left` is the bytes still to come, where the source tells them: files, sockets and terminals
/// don't. `faults` counts the calls that failed.
pub trait Source {
    ghost left: { Self → Option (List ℕ) };

    ghost faults: { Self → ℕ };

    /// Puts bytes at the front of `buf` and says how many. `Ok(0)` on a buffer that isn't empty is
    /// the end of the input. A call that fails gives nothing, and may be tried again.
    fn read(&mut self, buf: &mut [u8]) -> Result<usize, Failed>
        ensures bound { ReadsAtMost result buf.new }
        ensures bytes { ReadConsumes (left self.old) (left self.new) result buf.new }
        ensures cause { HasCause (faults self.old) (faults self.new) result };
}

/// A place to write bytes to, which takes them in parts.
///
/// `taken` is the bytes that it has taken, where it tells them: files, sockets and terminals don't.
/// `faults` counts the calls that failed.
pub trait Sink {
    ghost taken: { Self → Option (List ℕ) };

    ghost faults: { Self → ℕ };

    /// Takes a front of `piece` and says how many bytes: at least one, where the piece isn't empty.
    /// A call that fails takes nothing.
    fn write(&mut self, piece: &[u8]) -> Result<usize, Failed>
        ensures bound { WritesAtMost result piece.now }
        ensures some { IfOk result (λ n. 0 < length piece.now → 0 < n) }
        ensures bytes { WriteAppends (taken self.old) (taken self.new) result piece.now }
        ensures cause { HasCause (faults self.old) (faults self.new) result };

    /// Passes on what was taken, where the sink holds it back.
    fn flush(&mut self) -> Result<(), Failed>
        ensures bytes { Keeps (taken self.old) (taken self.new) }
        ensures cause { HasCause (faults self.old) (faults self.new) result };
}
