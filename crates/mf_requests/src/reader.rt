ghost use Rattle.std.specs.Prelude.{◌≡◌, Ok, IfErr, IfOk};
ghost use Rattle.mf_wire.specs.Requests.{line_request, IsDue};

use crate::sentence::{read_sentence, request_of};
use crate::unread::Unread;
use json::{Reader, Scratch};
use mf_wire::{Request, WireError, read_request};
use std::alloc::Global;

/// Reads requests, and keeps the memory that reading takes from line to line: as many bytes as the
/// longest line had.
#[derive(Drop)]
pub struct RequestReader {
    scratch: Scratch,
}

impl RequestReader {
    /// A reader that has no memory yet.
    pub fn new(alloc: Global) -> RequestReader {
        RequestReader {
            scratch: Scratch::new(alloc),
        }
    }

    /// The request of a line, as [`read_request`] reads it.
    ///
    /// # Errors
    ///
    /// Those of `read_request`.
    pub fn read(&mut self, alloc: Global, line: &[u8]) -> Result<Request, WireError>
        ensures request { IfOk result (λ request. line_request line.now ≡ Ok request) }
        ensures refused { IfErr result (IsDue (line_request line.now)) }
    {
        match plain_request(alloc, line, &mut self.scratch) {
            Ok(request) => Ok(request),
            Err(Unread::NotPlain) => read_request(alloc, line),
            Err(Unread::OutOfMemory) => Err(WireError::OutOfMemory),
        }
    }
}

/// The request of a line that asks for a sentence by plain fields.
fn plain_request(alloc: Global, line: &[u8], scratch: &mut Scratch) -> Result<Request, Unread>
    ensures { IfOk result (λ request. line_request line.now ≡ Ok request) }
{
    let Ok(text) = str::from_utf8(line) else {
        return Err(Unread::NotPlain);
    };
    let mut reader = Reader::new(text, scratch)?;
    request_of(alloc, read_sentence(alloc, &mut reader)?)
}
