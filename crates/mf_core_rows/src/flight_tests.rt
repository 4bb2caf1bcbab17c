//! The calls of mf_flight, with ample memory.
use mf_flight::{Asked, Flights};
use std::test::Fail;

#[test]
fn a_ticket_is_given_back_and_another_is_spent(rt: HostRuntime) -> Result<(), Fail> {
    let mut flights = Flights::new(rt.alloc());
    let first = match flights.ask(1, 0)? {
        Asked::Claimed(ticket) => ticket,
        Asked::Ready | Asked::Busy => panic!(rt; "it was idle"),
    };
    assert_eq!(rt; (first.edition(), first.index()), (1, 0));
    flights.quit(first);
    assert_eq!(rt; flights.counts(1, 0), (1, 1));
    let second = match flights.ask(1, 0)? {
        Asked::Claimed(ticket) => ticket,
        Asked::Ready | Asked::Busy => panic!(rt; "it was given back"),
    };
    assert_eq!(rt; flights.counts(1, 0), (2, 1));
    assert_eq!(rt; flights.get(1, 0), None);
    let spent = second.spend();
    assert_eq!(rt; (spent.edition(), spent.index()), (1, 0));
    flights.done(spent, 7);
    assert_eq!(rt; flights.get(1, 0), Some(&7));
    match flights.ask(1, 0)? {
        Asked::Ready => {}
        Asked::Busy => panic!(rt; "it is ready"),
        Asked::Claimed(ticket) => flights.quit(ticket),
    }
    assert_eq!(rt; flights.counts(1, 0), (2, 1));
    Ok(())
}

#[test]
fn editions_stand_side_by_side(rt: HostRuntime) -> Result<(), Fail> {
    let mut flights: Flights<u64> = Flights::new(rt.alloc());
    match flights.ask(2, 7)? {
        Asked::Claimed(ticket) => flights.quit(ticket),
        Asked::Ready | Asked::Busy => panic!(rt; "it was idle"),
    }
    let held = match flights.ask(3, 7)? {
        Asked::Claimed(ticket) => ticket,
        Asked::Ready | Asked::Busy => panic!(rt; "it was idle"),
    };
    match flights.ask(3, 7).expect(&rt, "there is memory") {
        Asked::Busy => {}
        Asked::Ready => panic!(rt; "it is claimed"),
        Asked::Claimed(ticket) => flights.quit(ticket),
    }
    assert_eq!(rt;
        (flights.totals(2), flights.totals(3), flights.totals(4)),
        ((1, 1), (1, 0), (0, 0))
    );
    flights.quit(held);
    flights.retire(2);
    assert_eq!(rt; (flights.totals(2), flights.totals(3)), ((0, 0), (1, 1)));
    Ok(())
}
