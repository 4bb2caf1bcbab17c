//! What rows of sources don't show: a message with too many declarations, and a source compiled for
//! its ticket.
use mf_flight::{Asked, Flights};
use mf_plan::{Plan, compile};
use std::alloc::{AllocError, Global};
use std::test::Fail;

/// The number of errors of a message that declares one variable so many times, and the first of
/// them.
fn errors_of(alloc: Global, declarations: usize) -> Result<(usize, &'static str), AllocError> {
    let mut source = String::new(alloc);
    for _ in 0..declarations {
        source.push_str(".local $a = {1}\n")?;
    }
    source.push_str("{{}}")?;
    match Plan::of(alloc, source.as_str())? {
        Plan::Valid(_) => Ok((0, "none")),
        Plan::Invalid(faults) => {
            let first = faults.get(0).map(|fault| fault.kind.as_str());
            Ok((faults.len(), first.unwrap_or("none")))
        }
    }
}

// Each declaration but the first is a duplicate; past the limit nothing further is looked for.
#[test]
fn a_message_has_at_most_256_declarations(rt: HostRuntime) -> Result<(), Fail> {
    assert_eq!(rt; errors_of(rt.alloc(), 1)?, (0, "none"));
    assert_eq!(rt; errors_of(rt.alloc(), 256)?, (255, "duplicate-declaration"));
    assert_eq!(rt; errors_of(rt.alloc(), 257)?, (1, "limit"));
    Ok(())
}

#[test]
fn a_source_is_compiled_for_its_ticket(rt: HostRuntime) -> Result<(), Fail> {
    let mut flights: Flights<()> = Flights::new(rt.alloc());
    match flights.ask(1, 7)? {
        Asked::Ready | Asked::Busy => Err(Fail::new("what nobody asked for was claimed")),
        Asked::Claimed(ticket) => match compile(rt.alloc(), ticket, "Hello {$name}!") {
            Ok((plan, spent)) => {
                assert!(rt; matches!(*plan, Plan::Valid(_)));
                assert_eq!(rt; (spent.edition(), spent.index()), (1, 7));
                flights.done(spent, ());
                Ok(())
            }
            Err((refusal, ticket)) => {
                flights.quit(ticket);
                Err(Fail::from(refusal))
            }
        },
    }
}
