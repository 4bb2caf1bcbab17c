//! Reading an input and writing a piece whole.
ghost use Rattle.std.specs.Prelude.{ℕ, ◌≡◌, ◌≤◌, ◌<◌, ◌+◌, ◌++◌, [], false, length, IfOk, IsTrue, OnOk, OnErr, IsErrOf, vec_items, vec_len};
ghost use Rattle.std.specs.Vec.{vec_capacity};
ghost use Rattle.std.specs.Io.KnownBytes.{Appends, Consumes, IsAtEnd};
ghost use Rattle.mf_io.specs.Faults.{HasCause, Rose};
ghost use Rattle.mf_io.specs.Known.{ConsumesAtMost, ConsumesBelow, ConsumesJust, TakesFront};

use crate::{Failed, Sink, Source};
use std::alloc::{AllocError, Global};
use thiserror::Error;

/// Writes a piece whole.
///
/// # Errors
///
/// `Failed` where a write failed: a front of the piece was taken then.
pub fn send<K: Sink>(sink: &mut K, piece: &[u8]) -> Result<(), Failed>
    ensures sent { OnOk result (Appends (K.taken sink.old) (K.taken sink.new) piece.now) }
    ensures stopped { OnErr result (TakesFront (K.taken sink.old) (K.taken sink.new) piece.now) }
    ensures cause { HasCause (K.faults sink.old) (K.faults sink.new) result }
{
    let mut rest = piece;
    while !rest.is_empty() {
        let count = sink.write(rest)?;
        rest = &rest[count..];
    }
    Ok(())
}

/// Why an input was not read whole.
#[derive(Clone, Copy, Debug, PartialEq, Eq, Error)]
pub enum GatherError {
    /// The source failed.
    #[error("the input failed")]
    Failed,
    /// The input reached the cap before its end was told.
    #[error("the input is too long")]
    Full,
    /// There was no memory for what was read.
    #[error("out of memory")]
    OutOfMemory,
}

impl From<Failed> for GatherError {
    ghost use Rattle.std.specs.Prelude.{◌≡◌};
    ghost use Rattle.mf_io.specs.declared.whole.GatherError.TheVariants.{Failed};

    ghost from_gives = { λ _ e. e ≡ Failed };

    fn from(_: Failed) -> GatherError {
        GatherError::Failed
    }
}

impl From<AllocError> for GatherError {
    ghost use Rattle.std.specs.Prelude.{◌≡◌};
    ghost use Rattle.mf_io.specs.declared.whole.GatherError.TheVariants.{OutOfMemory};

    ghost from_gives = { λ _ e. e ≡ OutOfMemory };

    fn from(_: AllocError) -> GatherError {
        GatherError::OutOfMemory
    }
}

// How many bytes a read of an input asks for at most.
const BUFFER: u64 = 65_536;

/// Reads an input to its end, where that comes before `cap` bytes. It asks for at most 65,536 bytes
/// at a time, and never takes more than `cap`. Room for `cap` bytes is made before anything is
/// read.
///
/// # Errors
///
/// `Failed` where a read failed, when fewer than `cap` bytes had come; `Full` where `cap` bytes
/// came and the end was not told by then; and `OutOfMemory`, before anything is read. At the first
/// two what was read is lost.
#[tactic(auto, using(crate::proofs::Gathering::at_most))]
pub fn gather<S: Source>(alloc: Global, source: &mut S, cap: u64) -> Result<Vec<u8>, GatherError>
    requires { 1 ≤ cap }
    ensures whole { IfOk result (λ input. Consumes (S.left source.old) (S.left source.new) input.items) }
    ensures end { OnOk result (IsAtEnd (S.left source.new)) }
    ensures below { IfOk result (λ input. vec_len input < cap) }

    ensures full { IsErrOf result GatherError.Full → ConsumesJust cap (S.left source.old) (S.left source.new) }
    ensures stopped { OnErr result (ConsumesAtMost cap (S.left source.old) (S.left source.new)) }
    ensures unread { IsErrOf result GatherError.OutOfMemory → source.new ≡ source.old }
    ensures count { S.faults source.old ≤ S.faults source.new }
    ensures failed { IsErrOf result GatherError.Failed → Rose (S.faults source.old) (S.faults source.new) }
    ensures short { IsErrOf result GatherError.Failed → ConsumesBelow cap (S.left source.old) (S.left source.new) }
{
    let mut input = Vec::with_capacity(alloc, cap as usize)?;
    let mut buffer = vec![in alloc; 0u8; cap.min(BUFFER) as usize]?;
    if read_into(&mut input, source, &mut buffer, cap)? {
        Ok(input)
    } else {
        Err(GatherError::Full)
    }
}

/// Reads an input to its end, or `cap` bytes of it, by way of a buffer, and says whether the end
/// was told.
fn read_into<S: Source>(
    input: &mut Vec<u8>,
    source: &mut S,
    buffer: &mut [u8],
    cap: u64,
) -> Result<bool, Failed>
    requires empty { input.old.items ≡ [] }
    requires room { cap ≤ vec_capacity input.old }
    requires buffer { 1 ≤ length buffer.old }
    ensures whole { OnOk result (Consumes (S.left source.old) (S.left source.new) input.new.items) }
    ensures end { IfOk result (λ ended. IsTrue ended → IsAtEnd (S.left source.new) × (vec_len input.new < cap)) }
    ensures full { IfOk result (λ ended. ended ≡ false → vec_len input.new ≡ cap) }
    ensures stopped { OnErr result (ConsumesBelow cap (S.left source.old) (S.left source.new)) }
    ensures cause { HasCause (S.faults source.old) (S.faults source.new) result }
{
    while (input.len() as u64) < cap {
        let room = buffer.len().min((cap - input.len() as u64) as usize);
        let part = &mut buffer[..room];
        let count = source.read(part)?;
        if count == 0 {
            return Ok(true);
        }
        extend_reserved(input, &part[..count]);
    }
    Ok(false)
}

/// Puts bytes at the end of others that have room for them.
fn extend_reserved(input: &mut Vec<u8>, part: &[u8])
    requires { vec_len input.old + length part.now ≤ vec_capacity input.old }
    ensures items { input.new.items ≡ input.old.items ++ part.now }
    ensures capacity { vec_capacity input.old ≤ vec_capacity input.new }
{
    if let Err(_) = input.extend_from_slice(part) {
        unreachable!()
    }
}
