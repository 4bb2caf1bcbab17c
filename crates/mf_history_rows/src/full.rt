//! Logs that have all the entries, or all the bytes, that they may have.
use mf_edition::{Catalogue, Change, Entry, Log};
use mf_history::{Exchange, Exchanges, Transcript, Transcripts, Verdict, legal};
use mf_io::Bytes;
use mf_locale::{Tag, read_tag};
use mf_text::Text;
use std::alloc::{AllocError, Global};

/// The publication that there is no room for.
const REQUEST: &str = "{\"op\":\"publish\",\"locale\":\"en\",\"messages\":{\"b\":\"\"}}";

/// The bytes of a source with which one message fills a log.
const LONGEST_SOURCE: usize = 268_435_389;

/// The verdict on a log of 65,536 entries of caller 1, and on a line of caller 0 with this reply.
pub fn full_log(alloc: Global, reply: &str) -> Result<Verdict, AllocError> {
    let mut log = Log::new(alloc);
    for nth in 1..65_537 {
        push_message(alloc, &mut log, nth, "A")?;
    }
    judge(alloc, &log, reply)
}

/// The verdict on a log that one message of caller 1 fills, and on a line of caller 0 with this
/// reply.
pub fn full_store(alloc: Global, reply: &str) -> Result<Verdict, AllocError> {
    let mut source = String::with_capacity(alloc, LONGEST_SOURCE)?;
    for _ in 0..LONGEST_SOURCE {
        source.push('x')?;
    }
    let mut log = Log::new(alloc);
    push_message(alloc, &mut log, 1, source.as_str())?;
    judge(alloc, &log, reply)
}

/// Puts a publication of one message to the end of a log, if there is room for it.
fn push_message(alloc: Global, log: &mut Log, nth: u64, source: &str) -> Result<(), AllocError> {
    let mut catalogue = Catalogue::new(alloc, english(alloc)?, 1)?;
    catalogue.put(alloc, "a", source)?;
    let entry = Entry {
        caller: 1,
        nth,
        change: Change::Catalogue(catalogue),
    };
    match log.push(entry) {
        Ok(()) => Ok(()),
        Err(_) => Err(AllocError),
    }
}

/// The tag `en`.
fn english(alloc: Global) -> Result<Tag, AllocError> {
    match read_tag(alloc, "en") {
        Ok(tag) => Ok(tag),
        Err(_) => Err(AllocError),
    }
}

/// The verdict on a log, and on a line of caller 0 with this reply.
fn judge(alloc: Global, log: &Log, reply: &str) -> Result<Verdict, AllocError> {
    let mut lines = Exchanges::new(alloc);
    lines.push(Exchange {
        request: Bytes::of(alloc, REQUEST.as_bytes())?,
        reply: Text::of(alloc, reply)?,
    })?;
    let mut transcripts = Transcripts::new(alloc);
    transcripts.push(Transcript { caller: 0, lines })?;
    legal(alloc, log, &transcripts)
}
