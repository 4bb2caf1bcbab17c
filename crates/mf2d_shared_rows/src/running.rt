//! Runs of the commands in memory.
use mf_io::{Gate, MemoryLinks, MemorySink, MemorySource, Status};
use mf_text::{Text, Texts};
use mf2d::top_shared;
use std::alloc::{AllocError, Global};
use std::sync::Wait;
use std::thread::Threads;

/// The words of a command.
pub fn texts(alloc: Global, words: &[&str]) -> Result<Texts, AllocError> {
    let mut texts = Texts::new(alloc);
    for word in words {
        texts.push(Text::of(alloc, word)?)?;
    }
    Ok(texts)
}

/// The status of a rehearsal over these pieces of an input, and what was written. Reads and writes
/// with the numbers in `failing` fail.
pub fn run<R: Threads + Wait + Sync, G: Gate + Sync>(
    rt: &R,
    alloc: Global,
    pieces: Vec<Vec<u8>>,
    failing_reads: Vec<u64>,
    failing_writes: Vec<u64>,
    gate: &G,
) -> Result<(Status, Vec<u8>), AllocError> {
    let words = texts(alloc, &["rehearse"])?;
    let mut source = MemorySource::new(pieces, failing_reads);
    let mut sink = MemorySink::new(alloc, usize::MAX, failing_writes);
    let mut links: MemoryLinks = MemoryLinks::new(Vec::new(alloc), Vec::new(alloc));
    let status = top_shared(rt, alloc, &words, &mut source, &mut sink, &mut links, gate);
    let written = Vec::from_slice(alloc, sink.taken())?;
    Ok((status, written))
}

/// What is printed of a script. Where it doesn't end as it has to, that is `status` and its number.
pub fn rehearsed<R: Threads + Wait + Sync, G: Gate + Sync>(
    rt: &R,
    alloc: Global,
    script: &str,
    gate: &G,
) -> Result<String, AllocError> {
    let mut pieces = Vec::new(alloc);
    pieces.push(Vec::from_slice(alloc, script.as_bytes())?)?;
    let (status, written) = run(rt, alloc, pieces, Vec::new(alloc), Vec::new(alloc), gate)?;
    if status != Status::Ended {
        let number = status.number();
        return format!(in alloc; "status {number}\n");
    }
    String::from_str(alloc, str::from_utf8(&written).unwrap_or("no UTF-8\n"))
}
