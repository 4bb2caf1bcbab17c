//! The reply of the newest edition to a request for a sentence.
ghost use Rattle.std.specs.Prelude.{◌<◌, [], ◌∷◌, IfOk, OnErr, OnOk, length};
ghost use Rattle.mf_answer.specs.Answers.{IsAnswer, IsAnswerOf};
ghost use Rattle.mf_edition.specs.Edition.{newest_edition};
ghost use Rattle.mf_hub.specs.Desks.{message_count, Forgoes, Gains};
ghost use Rattle.mf_transcript.specs.Replies.{IsFormatReply};
ghost use Rattle.mf_transcript.specs.Served.{served_to};

use mf_edition::Found;
use mf_hub::Alone;
use mf_locale::{Tag, chain};
use mf_render::{Formatted, RenderError, render};
use mf_text::{Arguments, Text};
use mf_wire::Reply;
use std::alloc::{AllocError, Global};

/// The reply of the newest edition to a request for the message of an id, looked up along the chain
/// of a tag, in an edition of at least the number `since`.
pub(crate) fn format(
    alloc: Global,
    desk: &mut Alone,
    tag: &Tag,
    id: &Text,
    arguments: &Arguments,
    since: u64,
) -> Result<Reply, AllocError>
    ensures reply { IfOk result (λ reply. IsFormatReply
        (IsAnswer desk.old.log (length desk.old.log) tag.now id.now arguments.now since)
        (length desk.old.log) reply) }
    ensures ok { OnOk result (Gains desk.old
        (served_to desk.old.log (length desk.old.log) tag.now id.now since) desk.new) }
    ensures err { OnErr result (Forgoes desk.old
        (served_to desk.old.log (length desk.old.log) tag.now id.now since) desk.new) }
{
    let edition = desk.edition();
    let number = edition.number();
    if number < since {
        return Ok(Reply::NotYet {
            edition: number,
            since,
        });
    }
    let chain = chain(alloc, tag)?;
    match edition.find_along(chain, id) {
        Some(found) => format_found(alloc, desk, found, arguments),
        None => Ok(Reply::NoMessage { edition: number }),
    }
}

/// The reply that formats a message that was found, with the record of its tag.
fn format_found(
    alloc: Global,
    desk: &mut Alone,
    found: Found,
    arguments: &Arguments,
) -> Result<Reply, AllocError>
    requires { found.index < message_count desk.old }
    ensures reply { IfOk result (λ reply. IsFormatReply
        (IsAnswerOf arguments.now (newest_edition desk.old.log) found)
        (newest_edition desk.old.log).number reply) }
    ensures ok { OnOk result (Gains desk.old (found.index ∷ []) desk.new) }
    ensures err { OnErr result (Forgoes desk.old (found.index ∷ []) desk.new) }
{
    let plan = desk.plan(found.index)?;
    let edition = desk.edition();
    match render(alloc, &plan, edition, &found.tag, arguments) {
        Ok(Formatted { parts, faults }) => Ok(Reply::Formatted {
            edition: edition.number(),
            tag: found.tag,
            parts,
            faults,
        }),
        Err(RenderError::TooLong { .. }) => Ok(Reply::TooLong {
            edition: edition.number(),
        }),
        Err(RenderError::OutOfMemory) => Err(AllocError),
    }
}
