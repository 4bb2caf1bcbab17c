ghost use Rattle.std.specs.Prelude.{◌≡◌};

/// What has become of the compilation of a message.
#[derive(Debug, Drop)]
pub enum State<P> {
    /// Nobody compiles it.
    Idle,
    /// Somebody compiles it, and holds its ticket.
    Claimed,
    /// It is compiled.
    Ready(P),
}

impl<P> State<P> {
    ghost use Rattle.mf_flight.specs.Slots.{taken};

    /// One where it is claimed or ready, else nothing.
    pub(crate) fn taken(&self) -> u64
        ensures { result ≡ taken self.now }
    {
        match self {
            State::Idle => 0,
            State::Claimed | State::Ready(_) => 1,
        }
    }
}

/// An entry: its state, and how often its ticket was given back, which stays at 2^31 - 1.
#[derive(Debug, Drop)]
pub struct Slot<P> {
    pub state: State<P>,
    pub quits: u64,
}
