//! Lines answered in order, and their replies passed on.
ghost use Rattle.std.specs.Prelude.{◌≡◌, ◌≤◌, ◌∷◌, [], ℕ, IfOk, MatchOption, OnErr, OnOk, length, take};
ghost use Rattle.mf_io.specs.Faults.{HasCause};
ghost use Rattle.mf_wire.specs.Lines.{lines_of};
ghost use Rattle.mf_lines.specs.Cut.{IsOneLine};
ghost use Rattle.mf_lines.specs.Fronts.{AnswersFront, HasNoShortLine, IsLineEnd, StopsWithin};
ghost use Rattle.mf_lines.specs.Served.{Served};
ghost use Rattle.mf_lines.specs.Sessions.{AnswersAll, AnswersInPart};

use crate::clerk::{Clerk, send_line};
use memchr::memchr;
use mf_io::{Failed, Sink};
use mf_wire::MEMORY_LINE;
use std::alloc::Global;

/// Answers the whole lines at the front of some bytes, up to one of more than `most` bytes, and
/// passes the replies on. Says how many bytes these lines are with their line feeds. The first
/// `known` bytes hold no line feed.
pub(crate) fn answer_whole<C: Clerk, K: Sink>(
    alloc: Global,
    clerk: &mut C,
    desk: &mut C::Desk,
    sink: &mut K,
    most: u64,
    bytes: &[u8],
    known: usize,
) -> Result<usize, Failed>
    requires within { known ≤ length bytes.now }
    requires one { IsOneLine (take known bytes.now) }
    ensures all { IfOk result (λ count.
        AnswersFront (Served C.answers) desk.old desk.new
        (K.taken sink.old) (K.taken sink.new) most bytes.now count) }
    ensures part { OnErr result (StopsWithin (Served C.answers) desk.old desk.new
        (K.taken sink.old) (K.taken sink.new) most bytes.now) }
    ensures cause { HasCause (K.faults sink.old) (K.faults sink.new) result }
{
    let count = answer_lines(alloc, clerk, desk, sink, most, bytes, known)?;
    sink.flush()?;
    Ok(count)
}

/// Answers the whole lines at the front of some bytes, as `answer_whole` does, but passes no reply
/// on.
fn answer_lines<C: Clerk, K: Sink>(
    alloc: Global,
    clerk: &mut C,
    desk: &mut C::Desk,
    sink: &mut K,
    most: u64,
    bytes: &[u8],
    known: usize,
) -> Result<usize, Failed>
    requires within { known ≤ length bytes.now }
    requires one { IsOneLine (take known bytes.now) }
    ensures all { IfOk result (λ count.
        AnswersFront (Served C.answers) desk.old desk.new
        (K.taken sink.old) (K.taken sink.new) most bytes.now count) }
    ensures part { OnErr result (StopsWithin (Served C.answers) desk.old desk.new
        (K.taken sink.old) (K.taken sink.new) most bytes.now) }
    ensures cause { HasCause (K.faults sink.old) (K.faults sink.new) result }
{
    let mut rest = bytes;
    let mut known = known;
    while let Some(end) = line_end(rest, known, most) {
        answer_line(alloc, clerk, desk, sink, &rest[..end])?;
        rest = &rest[end + 1..];
        known = 0;
    }
    Ok(bytes.len() - rest.len())
}

/// Where the first line ends, if it has its line feed and at most `most` bytes. The first `known`
/// bytes hold no line feed.
fn line_end(bytes: &[u8], known: usize, most: u64) -> Option<usize>
    requires within { known ≤ length bytes.now }
    requires one { IsOneLine (take known bytes.now) }
    ensures { MatchOption result (HasNoShortLine most bytes.now) (λ end.
        IsLineEnd most bytes.now end) }
{
    let end = known + memchr(b'\n', &bytes[known..])?;
    if end as u64 <= most { Some(end) } else { None }
}

/// Answers what follows the last line feed of an input, where it isn't empty, and passes the reply
/// on.
pub(crate) fn answer_last<C: Clerk, K: Sink>(
    alloc: Global,
    clerk: &mut C,
    desk: &mut C::Desk,
    sink: &mut K,
    line: &[u8],
) -> Result<(), Failed>
    requires { IsOneLine line.now }
    ensures all { OnOk result (AnswersAll (Served C.answers) desk.old desk.new
        (K.taken sink.old) (K.taken sink.new) (lines_of line.now)) }
    ensures part { OnErr result (AnswersInPart (Served C.answers) desk.old desk.new
        (K.taken sink.old) (K.taken sink.new) (lines_of line.now)) }
    ensures cause { HasCause (K.faults sink.old) (K.faults sink.new) result }
{
    if line.is_empty() {
        return Ok(());
    }
    answer_line(alloc, clerk, desk, sink, line)?;
    sink.flush()
}

/// Answers a line and writes the reply.
fn answer_line<C: Clerk, K: Sink>(
    alloc: Global,
    clerk: &mut C,
    desk: &mut C::Desk,
    sink: &mut K,
    line: &[u8],
) -> Result<(), Failed>
    ensures all { OnOk result (AnswersAll (Served C.answers) desk.old desk.new
        (K.taken sink.old) (K.taken sink.new) (line.now ∷ [])) }
    ensures part { OnErr result (AnswersInPart (Served C.answers) desk.old desk.new
        (K.taken sink.old) (K.taken sink.new) (line.now ∷ [])) }
    ensures cause { HasCause (K.faults sink.old) (K.faults sink.new) result }
{
    match clerk.answer(alloc, desk, line) {
        Ok(reply) => send_line(sink, reply.as_str().as_bytes()),
        Err(_) => send_line(sink, MEMORY_LINE),
    }
}
