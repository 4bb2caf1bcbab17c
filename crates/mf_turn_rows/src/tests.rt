//! What no clause says: that turns come, and what comes of many threads.
ghost use Rattle.std.specs.Prelude.{◌≡◌};

use crate::{Tally, add_together, enter, gather, leave, publish_and_watch, publish_many, shadows};
use mf_turn::Turn;
use std::test::Fail;

/// How often each thread takes the turn.
const TIMES: u64 = 100_000;

#[test]
fn sums_of_two_and_four_threads_are_right(rt: HostRuntime) -> Result<(), Fail> {
    let (turn, mut first) = Turn::new(rt.alloc(), Tally::new(rt.alloc())?)?;
    let two = shadows(rt.alloc(), &turn, &mut first, 2)?;
    let two = add_together(&rt, &turn, two, TIMES)?;
    gather(&turn, &mut first, two);
    let four = shadows(rt.alloc(), &turn, &mut first, 4)?;
    let four = add_together(&rt, &turn, four, TIMES)?;
    assert_eq!(rt; four.len(), 4);
    let tally = turn.take(&rt, &mut first);
    assert_eq!(rt; tally.sum, 600_000);
    Ok(())
}

#[test]
fn a_count_never_falls(rt: HostRuntime) -> Result<(), Fail> {
    let (turn, mut first) = Turn::new(rt.alloc(), Tally::new(rt.alloc())?)?;
    let watcher = turn.split(&mut first);
    let (writer, last) = publish_and_watch(&rt, &turn, first, watcher, 20_000);
    let mut writer = writer?;
    assert!(rt; last.is_some());
    assert_eq!(rt; turn.count(&mut writer), 20_000);
    Ok(())
}

#[test]
fn callers_come_and_leave(rt: HostRuntime) -> Result<(), Fail> {
    let (turn, mut first) = Turn::new(rt.alloc(), Tally::new(rt.alloc())?)?;
    let (second, number) = enter(&rt, &turn, &mut first)?;
    assert_eq!(rt; number, 1);
    let second = publish_many(&rt, &turn, second, number, 3)?;
    leave(&rt, &turn, &mut first, second, number);
    let tally = turn.take(&rt, &mut first);
    assert_eq!(rt; tally.log.len(), 3);
    assert_eq!(rt; tally.log[2].nth, 3);
    assert_eq!(rt; tally.callers.len(), 2);
    assert!(rt; tally.callers[0].present);
    assert!(rt; !tally.callers[1].present);
    Ok(())
}
