//! Inputs in pieces.
use mf_io::Caps;
use std::alloc::{AllocError, Global};

/// The caps that the program has.
pub const CAPS: Caps = Caps {
    line: 1_048_576,
    input: 4_294_967_296,
};

/// Bytes cut into pieces of at most so many. Without memory it has those that there was memory for.
pub fn pieces(alloc: Global, bytes: &[u8], length: usize) -> Vec<Vec<u8>> {
    let mut pieces = Vec::new(alloc);
    let _ = push_pieces(alloc, &mut pieces, bytes, length);
    pieces
}

fn push_pieces(
    alloc: Global,
    pieces: &mut Vec<Vec<u8>>,
    bytes: &[u8],
    length: usize,
) -> Result<(), AllocError> {
    for piece in bytes.chunks(length.max(1)) {
        pieces.push(Vec::from_slice(alloc, piece)?)?;
    }
    Ok(())
}
