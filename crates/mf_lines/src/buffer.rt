//! The bytes that were read and wait for an answer.
ghost use Rattle.std.specs.Prelude.{◌≡◌, ◌≤◌, ◌+◌, [], IfOk, OnErr, length, drop};
ghost use Rattle.std.specs.Io.{ReadsAtMost};
ghost use Rattle.std.specs.Io.KnownBytes.{Keeps, ReadConsumes};
ghost use Rattle.mf_io.specs.Faults.{HasCause};
ghost use Rattle.mf_lines.specs.Waiting.{IsRoom, Reads};

use mf_io::{Failed, Source};
use std::alloc::{AllocError, Global};
use std::marker::Model;

/// The least room that a read gets, unless fewer bytes may be read.
const LEAST_ROOM: usize = 4_096;

/// How many bytes more than the longest line a buffer holds, at least as many as a read gets.
const MORE_THAN_A_LINE: usize = 65_536;

/// The bytes of an input that wait for an answer.
///
/// They lie in one piece of memory, and are moved to its front where there is too little room
/// behind them. Then they are the front of one line, so that no byte is moved twice.
#[derive(Drop)]
pub(crate) struct Buffer {
    bytes: Vec<u8>,
    start: usize,
    end: usize,
}

impl Model for Buffer {
    ghost use Rattle.std.specs.Prelude.{◌≤◌, ◌-◌, length, take, drop};
    ghost use Rattle.mf_lines.specs.Waiting.{Waiting};

    ghost Value = { Waiting };

    ghost view = { λ b. record {
      bytes = drop b.start (take b.end b.bytes.items);
      room = length b.bytes.items - b.end;
      size = length b.bytes.items;
    } };

    ghost invariant = { λ b. (b.start ≤ b.end) × (b.end ≤ length b.bytes.items) };
}

impl Buffer {
    /// An empty buffer that holds a line of so many bytes, at most 1,048,576, and more.
    pub(crate) fn new(alloc: Global, line: u64) -> Result<Buffer, AllocError>
        requires { line ≤ 1048576 }
        ensures empty { IfOk result (λ buffer. buffer.bytes ≡ []) }
        ensures size { IfOk result (λ buffer. line + 4096 ≤ buffer.size) }
    {
        let bytes = vec![in alloc; 0u8; line as usize + MORE_THAN_A_LINE]?;
        Ok(Buffer {
            bytes,
            start: 0,
            end: 0,
        })
    }

    /// The bytes that wait.
    pub(crate) fn waiting(&self) -> &[u8]
        ensures { result.now ≡ self.now.bytes }
    {
        &self.bytes[self.start..self.end]
    }

    /// So many bytes wait no more.
    pub(crate) fn pass(&mut self, count: usize)
        requires { count ≤ length self.old.bytes }
        ensures { self.new ≡ record self.old { bytes = drop count self.old.bytes } }
    {
        self.start += count;
    }

    /// Reads at most so many bytes, and puts them behind those that wait. None is the end of the
    /// input.
    pub(crate) fn read<S: Source>(&mut self, source: &mut S, most: u64) -> Result<usize, Failed>
        requires room { length self.old.bytes + 4096 ≤ self.old.size }
        requires some { 1 ≤ most }
        ensures size { self.new.size ≡ self.old.size }
        ensures ok { IfOk result (λ count. Reads (S.left source.old) (S.left source.new)
            self.old.bytes self.new.bytes count most) }
        ensures err { OnErr result ((self.new.bytes ≡ self.old.bytes)
            × Keeps (S.left source.old) (S.left source.new)) }
        ensures cause { HasCause (S.faults source.old) (S.faults source.new) result }
    {
        self.make_room();
        let room = (self.bytes.len() - self.end).min(most as usize);
        let end = self.end + room;
        let count = read_into(source, &mut self.bytes[self.end..end], most)?;
        self.end += count;
        Ok(count)
    }

    /// Moves the bytes that wait to the front, where there are none or too little room is behind
    /// them.
    fn make_room(&mut self)
        requires { length self.old.bytes + 4096 ≤ self.old.size }
        ensures bytes { self.new.bytes ≡ self.old.bytes }
        ensures size { self.new.size ≡ self.old.size }
        ensures room { 4096 ≤ self.new.room }
    {
        if self.start == self.end || self.bytes.len() - self.end < LEAST_ROOM {
            self.bytes.copy_within(self.start..self.end, 0);
            self.end -= self.start;
            self.start = 0;
        }
    }
}

/// Reads at most so many bytes into room for all of them, or for at least 4,096.
fn read_into<S: Source>(source: &mut S, room: &mut [u8], most: u64) -> Result<usize, Failed>
    requires room { IsRoom (length room.old) most }
    ensures bound { ReadsAtMost result room.new }
    ensures bytes { ReadConsumes (S.left source.old) (S.left source.new) result room.new }
    ensures cause { HasCause (S.faults source.old) (S.faults source.new) result }
{
    source.read(room)
}
