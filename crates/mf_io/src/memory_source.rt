//! A source in memory.
ghost use Rattle.std.specs.Prelude.{◌≡◌, ℕ, ◌↔◌, ◌++◌, Some, IfOk, OnErr, IsErr, length, take, drop, min};
ghost use Rattle.std.specs.List.{concat};
ghost use Rattle.std.specs.Io.{ReadsAtMost};
ghost use Rattle.std.specs.Io.KnownBytes.{ReadConsumes};
ghost use Rattle.mf_io.specs.Faults.{HasCause};
ghost use Rattle.mf_io.specs.Memory.{GivesFront, IsNextByte, NextFails, bytes_of, failed, no_calls, pieces_from};

use crate::calls::Calls;
use crate::{Failed, Source};
use std::marker::Model;

/// A source that gives pieces of memory, and fails at the calls that it is told to.
///
/// A read gives bytes of one piece alone: the rest of the piece at hand, or as much of it as the
/// buffer holds. An empty piece is passed over. Calls are counted from 1. A call that fails gives
/// nothing.
#[derive(Drop)]
pub struct MemorySource {
    pieces: Vec<Vec<u8>>,
    // the next byte: the number of its piece, and its place there
    piece: usize,
    byte: usize,
    calls: Calls,
}

impl Model for MemorySource {
    ghost use Rattle.mf_io.specs.Memory.{Supply, pieces_from};

    ghost Value = { Supply };

    ghost view = { λ s. record { pieces = pieces_from s.piece s.byte s.pieces.items; calls = s.calls } };
}

impl MemorySource {
    /// A source of these pieces whose calls with the numbers in `failing` fail.
    pub fn new(pieces: Vec<Vec<u8>>, failing: Vec<u64>) -> MemorySource
        ensures pieces { result.pieces ≡ bytes_of pieces.items }
        ensures calls { result.calls ≡ no_calls failing.items }
    {
        MemorySource {
            pieces,
            piece: 0,
            byte: 0,
            calls: Calls::new(failing),
        }
    }

    /// How many reads have failed. At `u64::MAX` the count stays.
    pub fn faults(&self) -> u64
        ensures { result ≡ self.now.calls.faults }
    {
        self.calls.faults()
    }
}

impl Source for MemorySource {
    ghost left = { λ s. Some (concat s.pieces) };

    ghost faults = { λ s. s.calls.faults };

    fn read(&mut self, buf: &mut [u8]) -> Result<usize, Failed>
        ensures bound { ReadsAtMost result buf.new }
        ensures bytes { ReadConsumes (Some (concat self.old.pieces)) (Some (concat self.new.pieces)) result buf.new }
        ensures cause { HasCause self.old.calls.faults self.new.calls.faults result }

        ensures fails { IsErr result ↔ NextFails self.old.calls }
        ensures gives { IfOk result (GivesFront self.old self.new buf.old buf.new) }
        ensures keeps { OnErr result (self.new ≡ record self.old { calls = failed self.old.calls }) }
        ensures untouched { OnErr result (buf.new ≡ buf.old) }
    {
        self.calls.begin()?;
        let (piece, byte) = next_byte(&self.pieces, self.piece, self.byte);
        self.piece = piece;
        self.byte = byte;
        match self.pieces.get(piece) {
            Some(bytes) => {
                let count = copy_front(&bytes[byte..], buf);
                self.byte = byte + count;
                Ok(count)
            }
            None => Ok(0),
        }
    }
}

// The place of the first byte that is left from this place on, or the end of the pieces.
fn next_byte(pieces: &[Vec<u8>], piece: usize, byte: usize) -> (usize, usize)
    ensures { IsNextByte pieces.now result.0 result.1 (pieces_from piece byte pieces.now) }
{
    let mut piece = piece;
    let mut byte = byte;
    while let Some(bytes) = pieces.get(piece) {
        if byte < bytes.len() {
            break;
        }
        piece += 1;
        byte = 0;
    }
    (piece, byte)
}

// Copies the front of the bytes into the front of the buffer, as much as both hold, and says how
// many.
fn copy_front(bytes: &[u8], buf: &mut [u8]) -> usize
    ensures count { result ≡ min (length bytes.now) (length buf.old) }
    ensures copied { buf.new ≡ take result bytes.now ++ drop result buf.old }
{
    let count = bytes.len().min(buf.len());
    buf[..count].copy_from_slice(&bytes[..count]);
    count
}
