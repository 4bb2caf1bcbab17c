//! Whether a log and the transcripts of all callers make one legal history.
ghost use Rattle.std.specs.Prelude.{ℕ, ◌≡◌, ◌≢◌, ◌≤◌, ◌+◌, ◌^◌, IfOk, IfSome};
ghost use Rattle.mf_edition.specs.Sizes.{used_by, IsWithin};
ghost use Rattle.mf_history.specs.Callers.{HasNothing, IsBelow};
ghost use Rattle.mf_history.specs.Verdicts.{IsVerdict};

use crate::forgone::forgone_in;
use crate::walking::first_unfit;
use crate::{Transcript, Transcripts, Verdict};
use mf_edition::Log;
use std::alloc::{AllocError, Global};

/// Whether a log, and what callers sent and got, make one legal history: [`Verdict::Yes`], or the
/// first caller, by number, whose lines don't fit, and the place of its first one.
///
/// The transcripts of one caller are joined in their order. A caller that has entries and no
/// transcript has no lines. The log of each caller is gone along once: an edition is made from the
/// one before it, and each request for a sentence is answered once. There is no memory for 2^63
/// lines.
pub fn legal(alloc: Global, log: &Log, transcripts: &Transcripts) -> Result<Verdict, AllocError>
    ensures { IfOk result (IsVerdict log.now transcripts.now) }
{
    see_limits(log);
    let transcripts = transcripts.as_slice();
    let most = forgone_in(alloc, transcripts)?;
    let mut from: u128 = 0;
    while let Some(caller) = caller_from(log, transcripts, from) {
        if let Some(place) = first_unfit(alloc, log, caller, most, transcripts)? {
            return Ok(Verdict::No { caller, place });
        }
        from = next_after(caller);
    }
    Ok(Verdict::Yes)
}

/// The number after that of a caller, which 64 bits may not hold.
fn next_after(caller: u64) -> u128
    ensures next { result ≡ caller + 1 }
    ensures few { result ≤ 2 ^ 64 }
{
    u128::from(caller) + 1
}

/// Sees that a log is within its limits: no entry has more messages than bytes are counted for it.
/// It changes nothing.
fn see_limits(log: &Log)
    ensures { IsWithin log.now (used_by log.now) }
{
    for k in 0..log.len() {
        if let Some(entry) = log.get(k) {
            let _size = entry.change.size();
        }
    }
    let _used = log.used();
}

/// The least caller from a number on that has an entry or a transcript, if there is one.
fn caller_from(log: &Log, transcripts: &[Transcript], from: u128) -> Option<u64>
    ensures from { IfSome result (λ caller. from ≤ caller) }
    ensures below { (caller : ℕ) → from ≤ caller → IsBelow result caller
        → HasNothing log.now transcripts.now caller }
{
    let mut least = None;
    for transcript in transcripts {
        least = lesser(least, transcript.caller, from);
    }
    for k in 0..log.len() {
        if let Some(entry) = log.get(k) {
            least = lesser(least, entry.caller, from);
        }
    }
    least
}

/// The lesser of a caller that was found and another one, which counts from a number on.
fn lesser(least: Option<u64>, other: u64, from: u128) -> Option<u64>
    ensures from { IfSome least (λ caller. from ≤ caller)
        → IfSome result (λ caller. from ≤ caller) }
    ensures least { (caller : ℕ) → IsBelow result caller → IsBelow least caller }
    ensures other { (caller : ℕ) → from ≤ caller → IsBelow result caller → other ≢ caller }
{
    if u128::from(other) < from {
        return least;
    }
    match least {
        Some(caller) if caller <= other => least,
        _ => Some(other),
    }
}
