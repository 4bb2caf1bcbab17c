//! The reply to a request for a sentence.
ghost use Rattle.std.specs.Prelude.{ℕ, List, ◌≡◌, ◌↔◌, ◌<◌, ◌++◌, IfOk, IfSome, IsTrue};
ghost use Rattle.mf_history.specs.Places.{listed};
ghost use Rattle.mf_history.specs.Served.{IsServed};
ghost use Rattle.mf_wire.specs.Replies as wire;

use crate::answer::Answered;
use crate::asking::is_line;
use crate::place::Place;
use crate::served::serve;
use std::alloc::{AllocError, Global};

/// Whether a reply is the answer of the edition here. The message that it is answered from counts
/// as served.
pub(crate) fn take_answer(
    alloc: Global,
    place: &mut Place,
    answered: &Answered,
    said: &str,
) -> Result<bool, AllocError>
    ensures is { IfOk result
        (λ is. IsTrue is ↔ (said.now ≡ wire.reply_line answered.now.reply)) }
    ensures served { IfOk result (λ is. (indexes : List ℕ) (items : ℕ) → IsTrue is
        → IsServed place.old.served indexes items → IfSome answered.now.served (λ index. index < items)
        → IsServed place.new.served (indexes ++ listed answered.now.served) items) }
    ensures front { place.new.front ≡ place.old.front }
    ensures made { place.new.made ≡ place.old.made }
{
    if !is_line(alloc, said, &answered.reply)? {
        return Ok(false);
    }
    if let Some(index) = answered.served {
        serve(&mut place.served, index)?;
    }
    Ok(true)
}
