//! The replies of a large run.
ghost use Rattle.std.specs.Prelude.{◌≡◌, IfOk};
ghost use Rattle.mf_mill.specs.Mills.{IsAnswered, IsSummary};

use crate::script::script;
use crate::summary::summary;
use crate::tally::tally_of;
use mf_hub::Alone;
use mf_io::{Caps, MemorySink, MemorySource, Status};
use mf_session::session_alone;
use std::alloc::{AllocError, Global};

/// The most bytes of a line, and the bytes at which the input stops.
const CAPS: Caps = Caps {
    line: 1_048_576,
    input: 4_294_967_296,
};

/// The line that sums up the replies to a script of so many requests.
pub(crate) fn summed_up(alloc: Global, count: u32) -> Result<Vec<u8>, AllocError>
    ensures { IfOk result (λ line. IsSummary count line.items) }
{
    let replies = replies_to(alloc, script(alloc, count)?)?;
    let tally = tally_of(alloc, replies.taken())?;
    summary(alloc, count, &tally)
}

/// The replies to an input, as they are written.
fn replies_to(alloc: Global, input: Vec<u8>) -> Result<MemorySink, AllocError>
    ensures { IfOk result (λ sink. IsAnswered input.items sink.taken) }
{
    let mut desk = Alone::new(alloc)?;
    let mut source = MemorySource::new(vec![in alloc; input]?, Vec::new(alloc));
    let mut sink = MemorySink::new(alloc, usize::MAX, Vec::new(alloc));
    match session_alone(alloc, &mut desk, &mut source, &mut sink, &CAPS) {
        Status::Ended => Ok(sink),
        _ => Err(AllocError),
    }
}
