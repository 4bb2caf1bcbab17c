//! Runs of `serve` over connections of memory.
use crate::running::texts;
use mf_io::{MemoryLinks, MemorySink, MemorySource, NoGate};
use mf2d::top_shared;
use std::alloc::{AllocError, Global};
use std::io;
use std::sync::Wait;
use std::thread::Threads;

const PUBLICATION: &str =
    "{\"op\":\"publish\",\"locale\":\"en\",\"messages\":{\"hi\":\"Hello {$name}!\"}}\n";

const FORMAT: &str =
    "{\"op\":\"format\",\"locale\":\"en\",\"id\":\"hi\",\"args\":{\"name\":\"Ann\"}}\n";

/// A connection that sends a text and then, where it is to fail, meets a fault.
fn connection(
    alloc: Global,
    sent: &str,
    is_failing: bool,
) -> Result<(MemorySource, MemorySink), AllocError> {
    let mut pieces = Vec::new(alloc);
    pieces.push(Vec::from_slice(alloc, sent.as_bytes())?)?;
    let mut failing = Vec::new(alloc);
    if is_failing {
        failing.push(2)?;
    }
    let source = MemorySource::new(pieces, failing);
    Ok((source, MemorySink::new(alloc, usize::MAX, Vec::new(alloc))))
}

/// Five connections, the second of which fails.
fn connections(alloc: Global) -> Result<Vec<(MemorySource, MemorySink)>, AllocError> {
    let mut pairs = Vec::new(alloc);
    for (number, sent) in [PUBLICATION, FORMAT, FORMAT, "", "{"]
        .into_iter()
        .enumerate()
    {
        pairs.push(connection(alloc, sent, number == 1)?)?;
    }
    Ok(pairs)
}

/// Serves connections, at most so many, and tells the status and what was written. The accept with
/// the number `failing` fails.
fn tell<R: Threads + Wait + Sync>(
    rt: &HostRuntime,
    threads: &R,
    pairs: Vec<(MemorySource, MemorySink)>,
    failing: u64,
    limit: &str,
) -> io::Result<()> {
    let alloc = rt.alloc();
    let words = texts(alloc, &["serve", "memory", limit])?;
    let mut calls = Vec::new(alloc);
    if failing != 0 {
        calls.push(failing)?;
    }
    let mut source = MemorySource::new(Vec::new(alloc), Vec::new(alloc));
    let mut sink = MemorySink::new(alloc, usize::MAX, Vec::new(alloc));
    let mut links = MemoryLinks::new(pairs, calls);
    let status = top_shared(
        threads,
        alloc,
        &words,
        &mut source,
        &mut sink,
        &mut links,
        &NoGate,
    );
    let number = status.number();
    let line = str::from_utf8(sink.taken()).unwrap_or("no UTF-8");
    let line = line.strip_suffix('\n').unwrap_or("no line");
    println!(rt; "serve memory {limit}: status {number}, {line}")?;
    Ok(())
}

/// Tells of all of them.
pub fn look_at<R: Threads + Wait + Sync>(rt: &HostRuntime, threads: &R) -> io::Result<()> {
    let alloc = rt.alloc();
    tell(rt, threads, Vec::new(alloc), 0, "3")?;
    tell(rt, threads, Vec::new(alloc), 1, "3")?;
    tell(rt, threads, connections(alloc)?, 0, "9")?;
    tell(rt, threads, connections(alloc)?, 0, "2")?;
    tell(rt, threads, connections(alloc)?, 4, "9")?;
    tell(rt, threads, connections(alloc)?, 0, "0")?;
    tell(rt, threads, connections(alloc)?, 0, "1000001")
}
