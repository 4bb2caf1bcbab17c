//! That a message is compiled once in an edition, and that who waits for it is waited for by nobody
//! else.
use crate::{Hold, ask_all, ask_at_gate, ask_together, collect, messages, passes_of, plan_once};
use mf_hub::{Hub, Stat};
use mf_io::{NoGate, Place};
use std::test::Fail;

/// After so many turns a gate holds nobody any more.
const TURNS: u64 = 1_000_000;

#[test]
fn a_ready_message_is_answered_while_another_is_compiled(rt: HostRuntime) -> Result<(), Fail> {
    let (hub, mut home) = Hub::new(rt.alloc())?;
    hub.publish(&rt, &mut home, messages(rt.alloc(), 3)?)?;
    assert_eq!(rt; plan_once(&rt, &hub, &mut home, 1, &NoGate)?, Some(1));
    let passes = passes_of(&rt, rt.alloc(), &hub, &mut home, 9)?;
    let gate = Hold::new(Place::BeforeCompile, TURNS);
    let askers = ask_at_gate(&rt, rt.alloc(), &hub, passes, &gate, 8)?;
    let (_, misses) = collect(&rt, rt.alloc(), &hub, &mut home, askers)?;
    assert_eq!(rt; misses, 0);
    assert_eq!(rt; gate.come(Place::BeforeCompile), 1);
    let stat = Stat {
        edition: 1,
        starts: 2,
        quits: 0,
    };
    assert_eq!(rt; hub.stat(&rt, &mut home), stat);
    Ok(())
}

#[test]
fn eight_callers_compile_no_message_of_an_edition_twice(rt: HostRuntime) -> Result<(), Fail> {
    let (hub, mut home) = Hub::new(rt.alloc())?;
    hub.publish(&rt, &mut home, messages(rt.alloc(), 200)?)?;
    let passes = passes_of(&rt, rt.alloc(), &hub, &mut home, 9)?;
    let askers = ask_together(&rt, rt.alloc(), &hub, passes, 8, 200, 200)?;
    let (compiled, misses) = collect(&rt, rt.alloc(), &hub, &mut home, askers)?;
    assert_eq!(rt; misses, 0);
    assert!(rt; compiled.len() >= 200);
    let last = ask_all(&rt, rt.alloc(), &hub, home, 200);
    assert_eq!(rt; last.misses, 0);
    let mut count = last.compiled.len();
    for pair in &compiled {
        assert!(rt; !last.compiled.contains(pair));
        if pair.0 == 201 {
            count = count.saturating_add(1);
        }
    }
    assert_eq!(rt; count, 200);
    let mut home = last.pass;
    let stat = Stat {
        edition: 201,
        starts: 200,
        quits: 0,
    };
    assert_eq!(rt; hub.stat(&rt, &mut home), stat);
    Ok(())
}

/// Here no allocation fails. By `rt try --test --fail-alloc 50 -- without_memory` one of the
/// compilation does, which is then given up once and begun twice.
#[test]
fn a_message_left_without_memory_is_compiled_when_it_is_asked_again(
    rt: HostRuntime,
) -> Result<(), Fail> {
    let (hub, mut home) = Hub::new(rt.alloc())?;
    hub.publish(&rt, &mut home, messages(rt.alloc(), 1)?)?;
    let is_refused = plan_once(&rt, &hub, &mut home, 0, &NoGate).is_err();
    let quits = hub.stat(&rt, &mut home).quits;
    assert!(rt; quits <= u64::from(is_refused));
    assert_eq!(rt; plan_once(&rt, &hub, &mut home, 0, &NoGate)?, Some(1));
    assert_eq!(rt; plan_once(&rt, &hub, &mut home, 0, &NoGate)?, Some(1));
    let stat = Stat {
        edition: 1,
        starts: quits + 1,
        quits,
    };
    assert_eq!(rt; hub.stat(&rt, &mut home), stat);
    Ok(())
}
