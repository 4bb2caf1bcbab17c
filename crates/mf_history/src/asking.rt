//! What lines ask for, and whether a reply is the one that is due.
ghost use Rattle.std.specs.Prelude.{◌≡◌, ◌↔◌, IfOk, IsTrue, encode_utf8_all};
ghost use Rattle.mf_history.specs.Asking.{ShowsNoCounts};
ghost use Rattle.mf_transcript.specs.Asked as asked;
ghost use Rattle.mf_wire.specs.Replies as wire;

use mf_session::{reason_against, refusal};
use mf_wire::{MEMORY_LINE, Reply, Request, read_request, reply_line};
use std::alloc::{AllocError, Global};

/// What a line asks for, or the reply that refuses it.
pub(crate) fn asked(alloc: Global, line: &[u8]) -> Result<Result<Request, Reply>, AllocError>
    ensures asked { IfOk result (λ is. is ≡ asked.request_of line.now) }
    ensures plain { IfOk result ShowsNoCounts }
{
    match read_request(alloc, line) {
        Ok(Request::Publish(change)) => match reason_against(&change)? {
            Some(reason) => Ok(Err(Reply::BadHandler { reason })),
            None => Ok(Ok(Request::Publish(change))),
        },
        Ok(request) => Ok(Ok(request)),
        Err(error) => Ok(Err(refusal(error)?)),
    }
}

/// Whether a line is that of a reply.
pub(crate) fn is_line(alloc: Global, said: &str, reply: &Reply) -> Result<bool, AllocError>
    ensures { IfOk result (λ is. IsTrue is ↔ (said.now ≡ wire.reply_line reply.now)) }
{
    let line = reply_line(alloc, reply)?;
    Ok(line.as_str() == said)
}

/// Whether a reply is the memory line.
pub(crate) fn is_memory(said: &str) -> bool
    ensures { IsTrue result ↔ (said.now ≡ wire.memory_line) }
{
    said.as_bytes() == MEMORY_LINE
}
