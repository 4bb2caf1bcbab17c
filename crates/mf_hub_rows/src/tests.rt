//! What no clause says: that turns come, and what comes of many threads; and each call with ample
//! memory.
use crate::{
    closed_log, gather, is_numbered, leave_all, make_passes, message, passes_of, publish_together,
    refused_close, too_large, walk_often,
};
use mf_edition::PublishError;
use mf_hub::{CloseError, Hub};
use mf_io::PassError;
use std::test::Fail;

#[test]
fn four_threads_publish_pin_learn_and_leave(rt: HostRuntime) -> Result<(), Fail> {
    let (hub, mut home) = Hub::new(rt.alloc())?;
    let passes = passes_of(&rt, rt.alloc(), &hub, &mut home, 4)?;
    let (passes, misses) = walk_often(&rt, rt.alloc(), &hub, &mut home, passes, 5, 500)?;
    assert_eq!(rt; misses, 0);
    leave_all(&rt, &hub, &mut home, passes);
    assert_eq!(rt; home.seen(), 20_000);
    let closed = closed_log(hub.close(&rt, home));
    assert!(rt; closed.is_some());
    let Some(log) = closed else {
        return Ok(());
    };
    assert_eq!(rt; log.len(), 20_000);
    assert!(rt; is_numbered(rt.alloc(), &log)?);
    Ok(())
}

#[test]
fn two_threads_publish_a_hundred_times(rt: HostRuntime) -> Result<(), Fail> {
    let (hub, mut home) = Hub::new(rt.alloc())?;
    let passes = passes_of(&rt, rt.alloc(), &hub, &mut home, 2)?;
    let walked = publish_together(&rt, rt.alloc(), &hub, passes, 100)?;
    let (passes, misses) = gather(rt.alloc(), &hub, walked)?;
    assert_eq!(rt; misses, 0);
    leave_all(&rt, &hub, &mut home, passes);
    let closed = closed_log(hub.close(&rt, home));
    assert!(rt; closed.is_some());
    let Some(log) = closed else {
        return Ok(());
    };
    assert_eq!(rt; log.len(), 200);
    assert!(rt; is_numbered(rt.alloc(), &log)?);
    Ok(())
}

#[test]
fn a_million_passes_are_made(rt: HostRuntime) -> Result<(), Fail> {
    let (hub, mut first) = Hub::new(rt.alloc())?;
    let made = make_passes(&rt, &hub, &mut first, 1_000_001);
    let full = PassError::CallersFull { made: 1_000_000 };
    assert_eq!(rt; made, (1_000_000, Some(full)));
    let change = message(rt.alloc(), "a")?;
    assert_eq!(rt; hub.publish(&rt, &mut first, change)?, 1);
    assert_eq!(rt; make_passes(&rt, &hub, &mut first, 1), (0, Some(full)));
    assert_eq!(rt; first.seen(), 1);
    Ok(())
}

#[test]
fn passes_see_what_others_publish(rt: HostRuntime) -> Result<(), Fail> {
    let (hub, mut first) = Hub::new(rt.alloc())?;
    let mut second = hub.new_pass(&rt, &mut first)?;
    let mut third = hub.new_pass(&rt, &mut first)?;
    assert_eq!(rt; third.number(), 2);
    assert_eq!(rt; hub.pin(&rt, &mut third)?.number(), 0);
    let change = message(rt.alloc(), "a")?;
    assert_eq!(rt; hub.publish(&rt, &mut first, change)?, 1);
    assert_eq!(rt; hub.newest(&mut second), 1);
    assert_eq!(rt; hub.pin(&rt, &mut third)?.number(), 1);
    hub.unpin(&rt, &mut third);
    Ok(())
}

#[test]
fn a_hub_closes_when_all_others_have_left(rt: HostRuntime) -> Result<(), Fail> {
    let (hub, mut first) = Hub::new(rt.alloc())?;
    let mut second = hub.new_pass(&rt, &mut first)?;
    let change = message(rt.alloc(), "a")?;
    hub.publish(&rt, &mut second, change)?;
    let change = message(rt.alloc(), "b")?;
    hub.publish(&rt, &mut second, change)?;
    let note = hub.note(&mut second);
    hub.learn(&mut first, note);
    assert_eq!(rt; first.seen(), 2);
    let refused = refused_close(hub, &rt, first);
    assert!(rt; refused.is_some());
    let Some((error, hub, first)) = refused else {
        return Ok(());
    };
    assert_eq!(rt; error, CloseError::Others { live: 1 });
    let mut first = first;
    hub.leave(&rt, &mut first, second);
    let closed = closed_log(hub.close(&rt, first));
    assert!(rt; closed.is_some());
    let Some(log) = closed else {
        return Ok(());
    };
    assert_eq!(rt; log.len(), 2);
    Ok(())
}

#[test]
fn a_refused_publication_changes_nothing(rt: HostRuntime) -> Result<(), Fail> {
    let (hub, mut first) = Hub::new(rt.alloc())?;
    assert_eq!(rt; hub.pin(&rt, &mut first)?.number(), 0);
    let change = too_large(rt.alloc())?;
    let refused = hub.publish(&rt, &mut first, change);
    assert_eq!(rt;
        refused,
        Err(PublishError::StoreFull {
            used: 0,
            size: 268_435_457
        })
    );
    assert_eq!(rt; hub.newest(&mut first), 0);
    let change = message(rt.alloc(), "a")?;
    assert_eq!(rt; hub.publish(&rt, &mut first, change)?, 1);
    let closed = closed_log(hub.close(&rt, first));
    assert!(rt; closed.is_some());
    let Some(log) = closed else {
        return Ok(());
    };
    assert_eq!(rt; log.len(), 1);
    Ok(())
}
