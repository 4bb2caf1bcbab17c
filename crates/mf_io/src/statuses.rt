//! How the program ends.
ghost use Rattle.std.specs.Prelude.{◌≡◌};
ghost use Rattle.mf_io.specs.Statuses.{status_number};

/// How a run of the program ended.
#[derive(Clone, Copy, Debug, PartialEq, Eq)]
pub enum Status {
    /// The input was read to its end and answered.
    Ended,
    /// The words of the command line are no command.
    Usage,
    /// The source failed.
    ReadFault,
    /// The sink failed.
    WriteFault,
    /// A line is longer than its cap.
    LineTooLong,
    /// There was no memory to begin with.
    OutOfMemory,
    /// The input reached its cap before its end was told.
    InputFull,
    /// The listener failed.
    ListenFault,
}

impl Status {
    /// The exit status of the process, from 0 to 7.
    pub fn number(self) -> u8
        ensures { result ≡ status_number self }
    {
        match self {
            Status::Ended => 0,
            Status::Usage => 1,
            Status::ReadFault => 2,
            Status::WriteFault => 3,
            Status::LineTooLong => 4,
            Status::OutOfMemory => 5,
            Status::InputFull => 6,
            Status::ListenFault => 7,
        }
    }
}
