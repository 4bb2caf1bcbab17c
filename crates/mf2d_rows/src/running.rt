//! Runs of `pipe` over memory.
use mf_io::{MemorySink, MemorySource};
use mf_text::{Text, Texts};
use mf2d::top;
use std::alloc::{AllocError, Global};

/// What `pipe` writes for an input that comes in pieces of at most so many bytes.
pub fn answered(alloc: Global, input: &[u8], length: usize) -> Result<Vec<u8>, AllocError> {
    let mut words = Texts::new(alloc);
    words.push(Text::of(alloc, "pipe")?)?;
    let mut source = MemorySource::new(pieces(alloc, input, length)?, Vec::new(alloc));
    let mut sink = MemorySink::new(alloc, usize::MAX, Vec::new(alloc));
    let _ = top(alloc, &words, &mut source, &mut sink);
    Vec::from_slice(alloc, sink.taken())
}

/// Bytes cut into pieces of at most so many.
fn pieces(alloc: Global, bytes: &[u8], length: usize) -> Result<Vec<Vec<u8>>, AllocError> {
    let mut pieces = Vec::new(alloc);
    for piece in bytes.chunks(length.max(1)) {
        pieces.push(Vec::from_slice(alloc, piece)?)?;
    }
    Ok(pieces)
}
