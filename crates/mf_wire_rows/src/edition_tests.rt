//! What rows of requests can't show of mf_edition: each call with ample memory, the next edition
//! beside the old one, the bounds of a log, and when changes are equal.
use mf_edition::{
    Catalogue, Change, Entry, Handler, Log, Publications, PublishError, SharedHandler,
};
use mf_locale::{SharedRecord, chain, read_tag, root};
use mf_text::{Pairs, Text};
use mf_tree::{Identifier, Name};
use mf_value::{Entries, HandlerDef};
use std::alloc::{AllocError, Global};
use std::test::Fail;

/// The publication of one message in English.
fn message(alloc: Global, id: &str, source: &str) -> Result<Change, Fail> {
    let mut catalogue = Catalogue::new(alloc, read_tag(alloc, "en")?, 1)?;
    catalogue.put(alloc, id, source)?;
    Ok(Change::Catalogue(catalogue))
}

/// The publication of the root record for English, of this size.
fn record(alloc: Global, size: u64) -> Result<Change, Fail> {
    Ok(Change::Locale {
        tag: read_tag(alloc, "en")?,
        place: SharedRecord::new(alloc, root(alloc)?)?,
        size,
    })
}

fn name(alloc: Global, text: &str) -> Result<Identifier, AllocError> {
    Ok(Identifier {
        namespace: None,
        name: Name::new(alloc, Text::of(alloc, text)?)?,
    })
}

/// The publication of a handler that has a text for no operand.
fn handler(alloc: Global, text: &str) -> Result<Change, AllocError> {
    let def = HandlerDef::Table {
        entries: Entries::new(alloc, Pairs::new(alloc))?,
        default: None,
    };
    let name = name(alloc, text)?;
    Ok(Change::Handler(SharedHandler::new(alloc, Handler { name, def })?))
}

/// An entry of caller 7.
fn entry(nth: u64, change: Change) -> Entry {
    Entry {
        caller: 7,
        nth,
        change,
    }
}

/// A message, a record and a handler published one after the other.
fn published(alloc: Global) -> Result<Publications, Fail> {
    let mut publications = Publications::new(alloc)?;
    publications.publish(entry(1, message(alloc, "a", "A")?))?;
    publications.publish(entry(2, record(alloc, 64)?))?;
    publications.publish(entry(3, handler(alloc, "f")?))?;
    Ok(publications)
}

#[test]
fn a_message_is_found(rt: HostRuntime) -> Result<(), Fail> {
    let publications = published(rt.alloc())?;
    let tag = read_tag(rt.alloc(), "en-GB")?;
    let id = Text::of(rt.alloc(), "a")?;
    assert_eq!(rt; publications.newest().find(&tag, &id), None);
    let chain = chain(rt.alloc(), &tag)?;
    assert!(rt; publications.newest().find_along(chain, &id).is_some());
    Ok(())
}

#[test]
fn a_record_and_a_handler_are_found(rt: HostRuntime) -> Result<(), Fail> {
    let publications = published(rt.alloc())?;
    let tag = read_tag(rt.alloc(), "en")?;
    assert_eq!(rt; publications.newest().place_for(&tag).layout.primary, 3);
    let name = name(rt.alloc(), "f")?;
    assert!(rt; publications.newest().handler(&name).is_some());
    Ok(())
}

#[test]
fn entries_and_messages_are_lent(rt: HostRuntime) -> Result<(), Fail> {
    let publications = published(rt.alloc())?;
    let item = publications.newest().item(0);
    assert_eq!(rt; item.map(|item| item.source()), Some("A"));
    let second = publications.log().get(1);
    assert_eq!(rt; second.map(|entry| entry.nth), Some(2));
    Ok(())
}

#[test]
fn the_next_edition_stands_beside_the_old_one(rt: HostRuntime) -> Result<(), Fail> {
    let mut publications = Publications::new(rt.alloc())?;
    publications.publish(entry(1, message(rt.alloc(), "a", "1")?))?;
    let change = message(rt.alloc(), "b", "2")?;
    let refusal = publications.log().refusal(&change);
    assert_eq!(rt; refusal, None);
    if refusal == None {
        let next = publications.newest().next(&change)?;
        assert_eq!(rt; (next.number(), next.len()), (2, 2));
    }
    assert_eq!(rt; publications.newest().len(), 1);
    Ok(())
}

fn full(used: u64, size: u64) -> Result<(), PublishError> {
    Err(PublishError::StoreFull { used, size })
}

#[test]
fn a_log_has_so_many_bytes(rt: HostRuntime) -> Result<(), Fail> {
    let mut publications = Publications::new(rt.alloc())?;
    for (size, expected) in [
        (268_435_389, Ok(())),
        (68, full(268_435_389, 68)),
        (u64::MAX, full(268_435_389, u64::MAX)),
        (67, Ok(())),
        (67, full(268_435_456, 67)),
    ] {
        let change = record(rt.alloc(), size)?;
        assert_eq!(rt; publications.publish(entry(1, change)), expected);
    }
    assert_eq!(rt; publications.newest().number(), 2);
    Ok(())
}

#[test]
fn a_log_has_so_many_entries(rt: HostRuntime) -> Result<(), Fail> {
    let mut log = Log::new(rt.alloc());
    for nth in 1..65_537 {
        assert_eq!(rt; log.push(entry(nth, record(rt.alloc(), 0)?)), Ok(()));
    }
    let full = Err(PublishError::EditionsFull { entries: 65_536 });
    let huge = record(rt.alloc(), u64::MAX)?;
    assert_eq!(rt; log.push(entry(65_537, huge)), full);
    assert_eq!(rt; (log.len(), log.used()), (65_536, 65_536 * 64));
    Ok(())
}

/// Whether two changes are equal.
fn are_equal(one: Change, other: Change) -> bool {
    one == other
}

#[test]
fn changes_are_equal_by_their_values(rt: HostRuntime) -> Result<(), Fail> {
    let alloc = rt.alloc();
    for (id, size, name, expected) in [("a", 77, "f", true), ("b", 78, "g", false)] {
        assert_eq!(rt;
            are_equal(message(alloc, "a", "b")?, message(alloc, id, "b")?),
            expected
        );
        assert_eq!(rt;
            are_equal(record(alloc, 77)?, record(alloc, size)?),
            expected
        );
        assert_eq!(rt;
            are_equal(handler(alloc, "f")?, handler(alloc, name)?),
            expected
        );
    }
    Ok(())
}
