//! The one line of a large run.
ghost use Rattle.std.specs.Prelude.{◌≡◌, IfOk};
ghost use Rattle.mf_mill.specs.Summaries.{summary_of};

use crate::script::push_number;
use crate::tally::Tally;
use std::alloc::{AllocError, Global};

/// The line of a run of so many requests, whose replies come to these numbers.
pub(crate) fn summary(alloc: Global, count: u32, tally: &Tally) -> Result<Vec<u8>, AllocError>
    ensures { IfOk result (λ line. line.items
        ≡ summary_of tally.now.editions count tally.now.starts tally.now.text_bytes) }
{
    let mut line = Vec::from_slice(alloc, br#"{"editions":"#)?;
    push_number(&mut line, tally.editions)?;
    line.extend_from_slice(br#","formats":"#)?;
    push_number(&mut line, count as u64)?;
    line.extend_from_slice(br#","ok":"mill","starts":"#)?;
    push_number(&mut line, tally.starts)?;
    line.extend_from_slice(br#","text_bytes":"#)?;
    push_number(&mut line, tally.text_bytes)?;
    line.push(b'}')?;
    Ok(line)
}
