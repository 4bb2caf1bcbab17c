ghost use Rattle.std.specs.Prelude.{◌≡◌, ◌≤◌, chars};
ghost use Rattle.mf_io.specs.Faults.{Rose};
ghost use Rattle.mf2d.specs.Commands.{command_counted, command_named, command_of, count_of, Outcome};

use crate::lint::lint;
use crate::pipe::pipe;
use mf_io::{Sink, Source, Status};
use mf_mill::mill;
use mf_text::Texts;
use std::alloc::Global;

/// The most requests for sentences of a large run.
const MOST_REQUESTS: u32 = 100_000;

/// What the words of the command line ask for.
#[derive(Clone, Copy, Debug, PartialEq, Eq)]
pub enum Command {
    /// Answers each line of the input.
    Pipe,
    /// Lints the input as one source.
    Lint,
    /// Answers a script of so many requests in memory, and sums the replies up.
    Mill(u32),
}

/// The command that the words after the program's name spell.
fn command_of(words: &Texts) -> Option<Command>
    ensures { result ≡ command_of words.now }
{
    match words.as_slice() {
        [word] => command_named(word.as_str()),
        [word, number] => command_counted(word.as_str(), number.as_str()),
        _ => None,
    }
}

/// The command that a word alone spells.
fn command_named(word: &str) -> Option<Command>
    ensures { result ≡ command_named (chars word.now) }
{
    if word == "pipe" {
        Some(Command::Pipe)
    } else if word == "lint" {
        Some(Command::Lint)
    } else {
        None
    }
}

/// The command that a word and a number spell.
fn command_counted(word: &str, number: &str) -> Option<Command>
    ensures { result ≡ command_counted (chars word.now) number.now }
{
    if word == "mill" {
        Some(Command::Mill(count_of(MOST_REQUESTS, number)?))
    } else {
        None
    }
}

/// The count that a word spells: decimal digits without a leading zero, from 1 to the most.
pub(crate) fn count_of(most: u32, word: &str) -> Option<u32>
    ensures { result ≡ count_of most word.now }
{
    // `parse` would pass over a plus, which stands before the digits.
    let first = word.as_bytes().first().copied().unwrap_or(b'0');
    if first <= b'0' {
        return None;
    }
    match word.parse::<u32>() {
        Ok(count) if count <= most => Some(count),
        _ => None,
    }
}

/// Does what the words after the program's name say. A fault is answered only where its object's
/// count of faults rose.
///
/// `pipe` answers each line of the input, with the publications of the lines before it. Its
/// statuses are `Ended`, `ReadFault`, `WriteFault`, `LineTooLong` (a line has more than 1,048,576
/// bytes), `InputFull` (4,294,967,296 bytes came, and the end of the input wasn't told by then) and
/// `OutOfMemory`, before anything was read. The lines in front of what stopped it are answered.
///
/// `lint` reads the whole input as one source, and writes the line with its canonical form or its
/// errors. Its statuses are `Ended`, `ReadFault`, `WriteFault`, `LineTooLong` (the input has more
/// than 1,048,576 bytes) and `OutOfMemory` (before anything was read).
///
/// `mill N`, N from 1 to 100,000, answers a script of N requests for sentences in memory, and
/// writes the one line that sums the replies up. Its statuses are `Ended`, `WriteFault` and
/// `OutOfMemory`, where nothing was written. It doesn't read the input.
///
/// Any other words are `Usage`.
pub fn top<S: Source, K: Sink>(alloc: Global, words: &Texts, source: &mut S, sink: &mut K) -> Status
    // What was taken and written, by the words and the status.
    ensures outcome { Outcome (command_of words.now) result
        (source.new ≡ source.old) (sink.new ≡ sink.old)
        (S.left source.old) (S.left source.new) (K.taken sink.old) (K.taken sink.new) }

    // A fault comes only where its object's count rose, and no count falls.
    ensures read_fault { result ≡ Status.ReadFault
        → Rose (S.faults source.old) (S.faults source.new) }
    ensures write_fault { result ≡ Status.WriteFault
        → Rose (K.faults sink.old) (K.faults sink.new) }
    ensures source_count { S.faults source.old ≤ S.faults source.new }
    ensures sink_count { K.faults sink.old ≤ K.faults sink.new }
{
    match command_of(words) {
        Some(Command::Pipe) => pipe(alloc, source, sink),
        Some(Command::Lint) => lint(alloc, source, sink),
        Some(Command::Mill(count)) => mill(alloc, count, sink),
        None => Status::Usage,
    }
}
