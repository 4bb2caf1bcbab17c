ghost use Rattle.std.specs.Prelude.{◌≡◌, ◌^◌, ◌<◌};
/// How far the messages of an edition are compiled.
#[derive(Clone, Copy, Debug, PartialEq, Eq)]
pub struct Stat {
    /// The edition.
    pub edition: u64,
    /// How often the compilation of one of its messages was begun.
    pub starts: u64,
    /// How often one was given up for want of memory. Of each message no more than 2^31 - 1 are
    /// counted.
    pub quits: u64,
}

impl Stat {
    /// These counts.
    pub(crate) fn of(edition: u64, starts: u64, quits: u64) -> Stat
        ensures is { result ≡ record { edition = edition; starts = starts; quits = quits } }
        ensures small { quits < 2 ^ 64 }
    {
        Stat {
            edition,
            starts,
            quits,
        }
    }
}
