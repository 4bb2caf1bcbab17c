//! How many sessions ended in which way.
ghost use Rattle.std.specs.Prelude.{◌≡◌};
ghost use Rattle.mf_serve.specs.Tallies.{HasRoom, HasRoomFor, added, counted, no_sessions};

use mf_io::Status;

/// How many sessions ended in which way: their input was read to its end, they were stopped by a
/// fault or a cap, or they found no memory to begin with.
#[derive(Clone, Copy, Debug, PartialEq, Eq)]
pub struct Tally {
    pub ended: u64,
    pub faulted: u64,
    pub refused: u64,
}

impl Tally {
    /// The tally of no session.
    pub fn new() -> Tally
        ensures { result ≡ no_sessions }
    {
        Tally {
            ended: 0,
            faulted: 0,
            refused: 0,
        }
    }

    /// Counts a session that ended with a status.
    pub fn count(&mut self, status: Status)
        requires { HasRoom self.old }
        ensures { self.new ≡ counted status self.old }
    {
        match status {
            Status::Ended => self.ended += 1,
            Status::OutOfMemory => self.refused += 1,
            _ => self.faulted += 1,
        }
    }

    /// Adds the sessions of another tally.
    pub fn add(&mut self, other: Tally)
        requires { HasRoomFor other self.old }
        ensures { self.new ≡ added other self.old }
    {
        self.ended += other.ended;
        self.faulted += other.faulted;
        self.refused += other.refused;
    }
}
