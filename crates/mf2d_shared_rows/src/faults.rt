//! Runs that stop: at a fault of the input or the output, and at a cap.
use crate::running::run;
use mf_io::NoGate;
use std::alloc::{AllocError, Global};
use std::io;
use std::sync::Wait;
use std::thread::Threads;

const LINE: &[u8] = b"{\"op\":\"stat\"}\n";

/// Two pieces of an input.
fn pieces(alloc: Global, first: Vec<u8>) -> Result<Vec<Vec<u8>>, AllocError> {
    let mut pieces = Vec::new(alloc);
    pieces.push(first)?;
    pieces.push(Vec::from_slice(alloc, LINE)?)?;
    Ok(pieces)
}

/// The numbers of the calls that fail: this one, unless it is zero.
fn failing(alloc: Global, call: u64) -> Result<Vec<u64>, AllocError> {
    let mut calls = Vec::new(alloc);
    if call != 0 {
        calls.push(call)?;
    }
    Ok(calls)
}

/// Runs over a first piece and a line, and tells the status and what was written.
fn tell<R: Threads + Wait + Sync>(
    rt: &HostRuntime,
    threads: &R,
    what: &str,
    first: Vec<u8>,
    read: u64,
    write: u64,
) -> io::Result<()> {
    let alloc = rt.alloc();
    let input = pieces(alloc, first)?;
    let reads = failing(alloc, read)?;
    let writes = failing(alloc, write)?;
    let (status, written) = run(threads, alloc, input, reads, writes, &NoGate)?;
    let number = status.number();
    let length = written.len();
    println!(rt; "{what}: status {number}, {length} bytes written")?;
    Ok(())
}

/// Lines of so many bytes without their line feeds.
fn lines_of(alloc: Global, length: usize, count: u32) -> Result<Vec<u8>, AllocError> {
    let mut lines = Vec::new(alloc);
    for _ in 0..count {
        lines.extend_from_slice(&vec![in alloc; b'x'; length]?)?;
        lines.push(b'\n')?;
    }
    Ok(lines)
}

/// Tells of all of them.
pub fn look_at<R: Threads + Wait + Sync>(rt: &HostRuntime, threads: &R) -> io::Result<()> {
    let alloc = rt.alloc();
    let line = || -> Result<Vec<u8>, AllocError> { Vec::from_slice(alloc, LINE) };
    tell(rt, threads, "two lines", line()?, 0, 0)?;
    tell(rt, threads, "the second read fails", line()?, 2, 0)?;
    tell(rt, threads, "the first write fails", line()?, 0, 1)?;
    let long = lines_of(alloc, 1_048_577, 1)?;
    tell(rt, threads, "a line of one byte too many", long, 0, 0)?;
    let full = lines_of(alloc, 1_048_575, 16)?;
    tell(rt, threads, "an input of too many bytes", full, 0, 0)
}
