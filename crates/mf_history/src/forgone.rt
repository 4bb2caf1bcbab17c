//! The requests for sentences that found no memory.
ghost use Rattle.std.specs.Prelude.{◌≡◌, ◌&&◌, ◌≤◌, ◌^◌, IfOk, encode_utf8_all};
ghost use Rattle.std.specs.Str.{bytes_eq};
ghost use Rattle.mf_history.specs.Records as records;
ghost use Rattle.mf_history.specs.Forgone.{forgone_lines, is_forgone};

use crate::asking::{asked, is_memory};
use crate::walking::sum;
use crate::{Exchange, Transcript};
use mf_wire::Request;
use std::alloc::{AllocError, Global};

/// The most that are counted.
const MOST: u64 = 1 << 63;

/// How many requests for sentences found no memory, in all transcripts.
pub(crate) fn forgone_in(alloc: Global, transcripts: &[Transcript]) -> Result<u64, AllocError>
    ensures count { IfOk result (λ count. count ≡ records.forgone_in transcripts.now) }
    ensures few { IfOk result (λ count. count ≤ 2 ^ 63) }
{
    let mut count = 0;
    for transcript in transcripts {
        let more = forgone_lines(alloc, transcript.lines.as_slice())?;
        count = sum(count, more)?;
    }
    if count > MOST {
        return Err(AllocError);
    }
    Ok(count)
}

/// How many of these lines are such requests.
fn forgone_lines(alloc: Global, lines: &[Exchange]) -> Result<u64, AllocError>
    ensures { IfOk result (λ count. count ≡ forgone_lines lines.now) }
{
    let mut count = 0;
    for exchange in lines {
        if is_forgone(alloc, exchange)? {
            count = sum(count, 1)?;
        }
    }
    Ok(count)
}

/// Whether a line is such a request: only one that found no memory is read.
fn is_forgone(alloc: Global, exchange: &Exchange) -> Result<bool, AllocError>
    ensures { IfOk result (λ is. is ≡ is_forgone exchange.now) }
{
    if !is_memory(exchange.reply.as_str()) {
        return Ok(false);
    }
    let asked = asked(alloc, exchange.request.as_slice())?;
    Ok(matches!(asked, Ok(Request::Format { .. })))
}
