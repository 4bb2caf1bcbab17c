//! A caller's next line and its reply.
ghost use Rattle.std.specs.Prelude.{◌≤◌, ◌^◌, IfOk, encode_utf8_all};
ghost use Rattle.mf_edition.specs.Sizes.{used_by, IsWithin};
ghost use Rattle.mf_history.specs.Places.{IsPlace, Reads};

use crate::Exchange;
use crate::answer::answer;
use crate::asking::{asked, is_line, is_memory};
use crate::counting::count;
use crate::place::{Place, go_to_named};
use crate::publication::publish;
use crate::sentence::take_answer;
use mf_edition::Log;
use mf_session::lint_reply;
use mf_wire::Request;
use std::alloc::{AllocError, Global};

/// Reads a caller's next line and its reply: whether they fit, and the reply shows no more quits
/// than this. The place goes on to where the caller stands then.
pub(crate) fn read(
    alloc: Global,
    place: &mut Place,
    log: &Log,
    caller: u64,
    most: u64,
    exchange: &Exchange,
) -> Result<bool, AllocError>
    requires log { IsWithin log.now (used_by log.now) }
    requires place { IsPlace log.now place.old }
    requires few { most ≤ 2 ^ 63 }
    ensures { IfOk result (Reads most log.now caller exchange.now.request
        (encode_utf8_all exchange.now.reply) place.old place.new) }
{
    let said = exchange.reply.as_str();
    if is_memory(said) {
        return Ok(true);
    }
    match asked(alloc, exchange.request.as_slice())? {
        Err(refusal) => is_line(alloc, said, &refusal),
        Ok(Request::Lint { source }) => {
            let reply = lint_reply(alloc, source.as_str())?;
            is_line(alloc, said, &reply)
        }
        Ok(Request::Publish(change)) => publish(alloc, place, log, caller, &change, said),
        Ok(
            Request::Format {
                tag,
                id,
                arguments,
                since,
            },
        ) => {
            if !go_to_named(place, log, said)? {
                return Ok(false);
            }
            let edition = &place.front.edition;
            let answered = answer(alloc, edition, &tag, &id, &arguments, since)?;
            take_answer(alloc, place, &answered, said)
        }
        Ok(Request::Stat) => count(alloc, place, log, most, said),
    }
}
