//! The calls of mf_core, with ample memory.
use mf_core::*;
use mf_edition::{Catalogue, Change};
use mf_locale::read_tag;
use std::alloc::Global;
use std::test::Fail;

/// A change of one message.
fn change(alloc: Global) -> Result<Change, Fail> {
    let mut catalogue = Catalogue::new(alloc, read_tag(alloc, "en")?, 1)?;
    catalogue.put(alloc, "a", "hello")?;
    Ok(Change::Catalogue(catalogue))
}

/// The events of one message that two callers ask for, with their answers.
fn events(alloc: Global) -> Result<[(Event, Told); 11], Fail> {
    Ok([
        (Event::Join { caller: 0 }, Told::Joined),
        (
            Event::Publish {
                caller: 0,
                change: change(alloc)?,
            },
            Told::Published { edition: 1 },
        ),
        (Event::Pin { caller: 0 }, Told::Pinned { edition: 1 }),
        (
            Event::Ask {
                caller: 0,
                index: 0,
            },
            Told::Claimed,
        ),
        (Event::Join { caller: 1 }, Told::Joined),
        (Event::Pin { caller: 1 }, Told::Pinned { edition: 1 }),
        (
            Event::Ask {
                caller: 1,
                index: 0,
            },
            Told::Busy,
        ),
        (Event::Quit { caller: 0 }, Told::Ended),
        (
            Event::Ask {
                caller: 1,
                index: 0,
            },
            Told::Claimed,
        ),
        (Event::Done { caller: 1 }, Told::Ended),
        (
            Event::Ask {
                caller: 0,
                index: 0,
            },
            Told::Ready,
        ),
    ])
}

#[test]
fn a_message_is_given_back_and_compiled_by_another(rt: HostRuntime) -> Result<(), Fail> {
    let events = events(rt.alloc())?;
    let mut world = World::new(rt.alloc()).expect(&rt, "there is memory");
    for (event, told) in events {
        assert_eq!(rt; step(&mut world, event), Ok(told));
    }
    world.end();
    Ok(())
}

#[test]
fn who_has_not_joined_may_not_ask(rt: HostRuntime) -> Result<(), Fail> {
    let mut world = World::new(rt.alloc()).expect(&rt, "there is memory");
    let away = CallerState {
        joined: false,
        made: 0,
        seen: 0,
        pinned: None,
        claim: None,
    };
    let pinned = CallerState {
        joined: true,
        pinned: Some(0),
        ..away
    };
    let ask = || Event::Ask {
        caller: 0,
        index: 0,
    };
    let rows = [
        (ask(), Err(CoreError::NotYours { state: away })),
        (Event::Join { caller: 0 }, Ok(Told::Joined)),
        (Event::Pin { caller: 0 }, Ok(Told::Pinned { edition: 0 })),
        (ask(), Err(CoreError::NotYours { state: pinned })),
        (Event::Unpin { caller: 0 }, Ok(Told::Ended)),
        (Event::Leave { caller: 0 }, Ok(Told::Ended)),
    ];
    for (event, answer) in rows {
        assert_eq!(rt; step(&mut world, event), answer);
    }
    world.end();
    Ok(())
}
