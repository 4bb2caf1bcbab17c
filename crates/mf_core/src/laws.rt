//! What holds of every list of events. It does nothing when it is called.
ghost use Rattle.mf_core.specs.Laws.{EntriesAreAccepted, PinsAreNewest, ReadyWasDone};
ghost use Rattle.mf_core.specs.Runs.{OncePlusQuits};
ghost use Rattle.mf_core.specs.Valid.{IsInductive, Valid};

use mf_edition::editions_stay;

/// Each event keeps what holds of every World. A number that a pin is told is the log's length, and
/// no smaller than any told before. The entries of a caller are its accepted publications, each
/// once, in order. What is told to be ready was done before. No message is begun more than once,
/// but for those that were given back.
pub fn every_run()
    ensures inductive { IsInductive Valid }
    ensures pins { PinsAreNewest }
    ensures entries { EntriesAreAccepted }
    ensures ready { ReadyWasDone }
    ensures once { OncePlusQuits }
{
    editions_stay();
}
