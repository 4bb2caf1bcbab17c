//! Compilations.
use mf_flight::{Asked, Flights};
use mf_plan::{Plan, compile};
use std::alloc::{AllocError, Global};
use std::sync::Arc;

/// How many of so many compilations of a source were of a message without errors.
pub fn compiled(alloc: Global, source: &str, count: u64) -> Result<u64, AllocError> {
    let mut valid = 0u64;
    for _ in 0..count {
        if is_valid(&*compiled_once(alloc, source)?) {
            valid = valid.wrapping_add(1);
        }
    }
    Ok(valid)
}

/// The plan of a source, compiled for a ticket.
fn compiled_once(alloc: Global, source: &str) -> Result<Arc<Plan>, AllocError> {
    let mut flights: Flights<()> = Flights::new(alloc);
    match flights.ask(1, 0)? {
        Asked::Ready | Asked::Busy => Err(AllocError),
        Asked::Claimed(ticket) => match compile(alloc, ticket, source) {
            Ok((plan, spent)) => {
                flights.done(spent, ());
                Ok(plan)
            }
            Err((refusal, ticket)) => {
                flights.quit(ticket);
                Err(refusal)
            }
        },
    }
}

/// Whether a plan has a message.
fn is_valid(plan: &Plan) -> bool {
    match plan {
        Plan::Valid(_) => true,
        Plan::Invalid(_) => false,
    }
}
