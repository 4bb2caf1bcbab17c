//! The reply to a request for the counts.
ghost use Rattle.std.specs.Prelude.{ℕ, List, ◌≡◌, ◌≢◌, ◌↔◌, ◌+◌, ◌≤◌, ◌^◌, Ok, length, IfOk, IsTrue};
ghost use Rattle.std.specs.BTreeSet.{btree_set_len};
ghost use Rattle.mf_edition.specs.Sizes.{used_by, IsWithin};
ghost use Rattle.mf_history.specs.Places.{IsPlace, Reads};
ghost use Rattle.mf_transcript.specs.Asked.{request_of};
ghost use Rattle.mf_wire.specs.Replies.{memory_line};
ghost use Rattle.mf_wire.specs.declared.request.Request.TheVariants as request;

use crate::asking::is_line;
use crate::numbers::{Counts, counts_named};
use crate::place::{Place, go_to};
use mf_edition::Log;
use mf_wire::Reply;
use std::alloc::{AllocError, Global};

/// Reads the reply to a request for the counts: whether it fits, and shows no more quits than this.
pub(crate) fn count(
    alloc: Global,
    place: &mut Place,
    log: &Log,
    most: u64,
    said: &str,
) -> Result<bool, AllocError>
    requires log { IsWithin log.now (used_by log.now) }
    requires place { IsPlace log.now place.old }
    requires few { most ≤ 2 ^ 63 }
    ensures { IfOk result (λ fits. (caller : ℕ) (line : List ℕ)
        → request_of line ≡ Ok request.Stat → said.now ≢ memory_line
        → Reads most log.now caller line said.now place.old place.new fits) }
{
    let Some(counts) = counts_named(said) else {
        return Ok(false);
    };
    let Counts {
        edition,
        starts,
        quits,
    } = counts;
    if edition < place.front.edition.number() || edition > log.len() {
        return Ok(false);
    }
    go_to(place, log, edition)?;
    if quits > most || !are_within(place, starts, quits) {
        return Ok(false);
    }
    let reply = Reply::Stat {
        edition,
        starts,
        quits,
    };
    is_line(alloc, said, &reply)
}

/// Whether starts less quits is no fewer than the messages served in the edition here, and no more
/// than it has.
fn are_within(place: &Place, starts: u64, quits: u64) -> bool
    ensures { IsTrue result ↔ ((quits + btree_set_len place.now.served ≤ starts)
        × (starts ≤ quits + length place.now.front.edition.items)) }
{
    let served = place.served.len() as u64;
    let items = u64::from(place.front.edition.len());
    quits <= starts && served <= starts - quits && starts - quits <= items
}
