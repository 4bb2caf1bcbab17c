//! Entries that are asked for and made ready.
ghost use Rattle.std.specs.Prelude.{IfOk};
ghost use Rattle.mf_bench_callers.specs.Entries.{IsUnclaimed};

use mf_flight::{Asked, Flights};
use std::alloc::{AllocError, Global};

/// As many entries of an edition asked for and made ready, and the sums over the edition.
pub fn asked(alloc: Global, count: u32) -> Result<u64, AllocError> {
    let flights = ready(alloc, 1, count)?;
    let (starts, quits) = flights.totals(1);
    Ok(starts.wrapping_add(quits))
}

/// The same behind the retirement of the edition.
pub fn retired(alloc: Global, count: u32) -> Result<u64, AllocError> {
    let mut flights = ready(alloc, 1, count)?;
    flights.retire(1);
    let (starts, quits) = flights.totals(1);
    Ok(starts.wrapping_add(quits))
}

/// As many entries of an edition that are ready.
fn ready(alloc: Global, edition: u64, count: u32) -> Result<Flights<u32>, AllocError>
    ensures { IfOk result (IsUnclaimed edition) }
{
    let mut flights = Flights::new(alloc);
    for index in 0..count {
        make_ready(&mut flights, edition, index)?;
    }
    Ok(flights)
}

/// An entry asked for and made ready.
fn make_ready(flights: &mut Flights<u32>, edition: u64, index: u32) -> Result<(), AllocError>
    requires { IsUnclaimed edition flights.old }
    ensures { IsUnclaimed edition flights.new }
{
    match flights.ask(edition, index)? {
        Asked::Ready | Asked::Busy => {}
        Asked::Claimed(ticket) => flights.done(ticket.spend(), index),
    }
    Ok(())
}
