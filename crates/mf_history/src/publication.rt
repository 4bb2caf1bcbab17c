//! Publications that a reply accepts or refuses.
ghost use Rattle.std.specs.Prelude.{ℕ, List, ◌≡◌, ◌≢◌, ◌↔◌, ◌<◌, ◌≤◌, ◌^◌, Ok, length, take, IfNone, IfOk, IfSome, IsTrue};
ghost use Rattle.mf_edition.specs.declared.change.Change.{Change as AnyChange};
ghost use Rattle.mf_edition.specs.declared.change.Entry.{Entry as LogEntry};
ghost use Rattle.mf_edition.specs.Sizes.{refusal_of, size_of, used_by, IsWithin};
ghost use Rattle.mf_history.specs.Places.{front_of, IsAcceptedAt, IsFront, IsFull, IsPlace, IsRefusedAt, IsRefusedFrom, Reads};
ghost use Rattle.mf_transcript.specs.Asked.{request_of};
ghost use Rattle.mf_transcript.specs.Replies as replies;
ghost use Rattle.mf_transcript.specs.Steps.{next_entry};
ghost use Rattle.mf_wire.specs.Replies.{memory_line};
ghost use Rattle.mf_wire.specs.declared.request.Request.TheVariants as request;

use crate::asking::is_line;
use crate::front::Front;
use crate::numbers::{edition_named, used_named};
use crate::place::{Place, go_to, go_until};
use mf_edition::{Change, Entry, Log, Refusal, equality_is_exact};
use mf_wire::{Op, Reply};
use std::alloc::{AllocError, Global};

/// The most entries that a log may have.
const MOST_ENTRIES: u64 = 65_536;

/// The most bytes that the changes of a log may count for.
const MOST_BYTES: u64 = 268_435_456;

/// Reads the reply to a publication: whether it fits.
pub(crate) fn publish(
    alloc: Global,
    place: &mut Place,
    log: &Log,
    caller: u64,
    change: &Change,
    said: &str,
) -> Result<bool, AllocError>
    requires log { IsWithin log.now (used_by log.now) }
    requires place { IsPlace log.now place.old }
    ensures { IfOk result (λ fits. (most : ℕ) (line : List ℕ)
        → request_of line ≡ Ok (request.Publish change.now) → said.now ≢ memory_line
        → Reads most log.now caller line said.now place.old place.new fits) }
{
    if let Some(k) = accepted_at(alloc, place, log, caller, change, said)? {
        go_to(place, log, k)?;
        place.made += 1;
        return Ok(true);
    }
    refused(alloc, place, log, change.size(), said)
}

/// Reads the reply to a publication of a change of this size, which isn't accepted: whether it
/// refuses the change at an edition from here on.
fn refused(
    alloc: Global,
    place: &mut Place,
    log: &Log,
    size: u64,
    said: &str,
) -> Result<bool, AllocError>
    requires log { IsWithin log.now (used_by log.now) }
    requires place { IsPlace log.now place.old }
    ensures { IfOk result (λ is. (change : AnyChange) → size ≡ size_of change
        → IsRefusedFrom log.now change said.now place.old place.new is) }
{
    if is_full(alloc, log, said)? {
        go_to(place, log, log.len())?;
        return Ok(true);
    }
    let Some(used) = used_named(said) else {
        return Ok(false);
    };
    go_until(place, log, used)?;
    is_refused(alloc, &place.front, size, said)
}

/// The edition as which a reply accepts a change, where its entry is the caller's next one.
fn accepted_at(
    alloc: Global,
    place: &Place,
    log: &Log,
    caller: u64,
    change: &Change,
    said: &str,
) -> Result<Option<u64>, AllocError>
    requires log { IsWithin log.now (used_by log.now) }
    requires place { IsPlace log.now place.now }
    ensures some { IfOk result (λ found. IfSome found
        (IsAcceptedAt log.now caller place.now change.now said.now)) }
    ensures none { IfOk result (λ found. IfNone found
        ((k : ℕ) → IsAcceptedAt log.now caller place.now change.now said.now k → ⊥)) }
{
    let Some(k) = edition_named(said) else {
        return Ok(None);
    };
    if k <= place.front.edition.number() {
        return Ok(None);
    }
    let Some(entry) = log.get(k - 1) else {
        return Ok(None);
    };
    if !is_next(entry, caller, place.made, change) {
        return Ok(None);
    }
    let op = Op::of(change);
    let is = is_line(alloc, said, &Reply::Accepted { edition: k, op })?;
    Ok(if is { Some(k) } else { None })
}

/// Whether an entry is the next one of a caller that has made so many, with this change.
fn is_next(entry: &Entry, caller: u64, made: u64, change: &Change) -> bool
    requires { made < 2 ^ 32 }
    ensures { IsTrue result ↔ (entry.now ≡ next_entry caller made change.now) }
{
    equality_is_exact();
    entry.caller == caller && entry.nth == made + 1 && entry.change == *change
}

/// Whether a reply says that a log has all its entries, and it has.
fn is_full(alloc: Global, log: &Log, said: &str) -> Result<bool, AllocError>
    ensures { IfOk result (λ is. IsTrue is ↔ IsFull log.now said.now) }
{
    if log.len() < MOST_ENTRIES {
        return Ok(false);
    }
    let entries = MOST_ENTRIES;
    is_line(alloc, said, &Reply::EditionsFull { entries })
}

/// Whether a reply refuses a change of this size at an edition.
fn is_refused(alloc: Global, front: &Front, size: u64, said: &str) -> Result<bool, AllocError>
    ensures { IfOk result (λ is. (log : List LogEntry) (change : AnyChange)
        → IsWithin log (used_by log) → IsFront log front.now → size ≡ size_of change
        → IsTrue is ↔ IsRefusedAt log change said.now front.now.edition.number) }
{
    match refusal_at(front, size) {
        Some(refusal) => is_line(alloc, said, &refusal_reply(refusal)),
        None => Ok(false),
    }
}

/// Why an edition doesn't accept a change of this size, if it doesn't.
fn refusal_at(front: &Front, size: u64) -> Option<Refusal>
    ensures { (log : List LogEntry) (change : AnyChange)
        → IsWithin log (used_by log) → IsFront log front.now → size ≡ size_of change
        → result ≡ refusal_of (take front.now.edition.number log) change }
{
    let entries = front.edition.number();
    if entries >= MOST_ENTRIES {
        return Some(Refusal::EditionsFull { entries });
    }
    let used = front.used;
    if size > MOST_BYTES.saturating_sub(used) {
        return Some(Refusal::StoreFull { used, size });
    }
    None
}

/// The reply that a refusal is.
fn refusal_reply(refusal: Refusal) -> Reply
    ensures { result ≡ replies.refusal_reply refusal }
{
    match refusal {
        Refusal::EditionsFull { entries } => Reply::EditionsFull { entries },
        Refusal::StoreFull { used, size } => Reply::StoreFull { used, size },
    }
}
