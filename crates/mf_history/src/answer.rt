//! The reply of an edition to a request for a sentence.
ghost use Rattle.std.specs.Prelude.{◌≡◌, ◌<◌, IfOk, IfSome, length};
ghost use Rattle.mf_answer.specs.Answers.{IsAnswerIn, IsAnswerOf};
ghost use Rattle.mf_history.specs.Places.{listed, served_at};
ghost use Rattle.mf_transcript.specs.Replies.{IsFormatReply};

use mf_edition::{Edition, Found};
use mf_locale::{Tag, chain};
use mf_plan::Plan;
use mf_render::{Formatted, RenderError, render};
use mf_text::{Arguments, Text};
use mf_wire::Reply;
use std::alloc::{AllocError, Global};

/// A reply to a request for a sentence.
#[derive(Debug, Drop)]
pub(crate) struct Answered {
    pub reply: Reply,
    /// The index of the message that it is answered from, formatted or too long.
    pub served: Option<u32>,
}

/// The reply of an edition to a request for the message of an id, looked up along the chain of a
/// tag, in an edition of at least the number `since`.
pub(crate) fn answer(
    alloc: Global,
    edition: &Edition,
    tag: &Tag,
    id: &Text,
    arguments: &Arguments,
    since: u64,
) -> Result<Answered, AllocError>
    ensures reply { IfOk result (λ answered. IsFormatReply
        (IsAnswerIn edition.now.number edition.now tag.now id.now arguments.now since)
        edition.now.number answered.reply) }
    ensures served { IfOk result
        (λ answered. listed answered.served ≡ served_at edition.now tag.now id.now since) }
    ensures inside { IfOk result
        (λ answered. IfSome answered.served (λ index. index < length edition.now.items)) }
{
    let number = edition.number();
    if number < since {
        let reply = Reply::NotYet {
            edition: number,
            since,
        };
        return Ok(Answered {
            reply,
            served: None,
        });
    }
    let chain = chain(alloc, tag)?;
    match edition.find_along(chain, id) {
        Some(found) => {
            let served = Some(found.index);
            let reply = format(alloc, edition, found, arguments)?;
            Ok(Answered { reply, served })
        }
        None => Ok(Answered {
            reply: Reply::NoMessage { edition: number },
            served: None,
        }),
    }
}

/// The reply that formats a message that was found.
fn format(
    alloc: Global,
    edition: &Edition,
    found: Found,
    arguments: &Arguments,
) -> Result<Reply, AllocError>
    requires { found.index < length edition.now.items }
    ensures { IfOk result (λ reply. IsFormatReply
        (IsAnswerOf arguments.now edition.now found) edition.now.number reply) }
{
    let Some(item) = edition.item(found.index) else {
        unreachable!();
    };
    let plan = Plan::of(alloc, item.source())?;
    match render(alloc, &plan, edition, &found.tag, arguments) {
        Ok(Formatted { parts, faults }) => Ok(Reply::Formatted {
            edition: edition.number(),
            tag: found.tag,
            parts,
            faults,
        }),
        Err(RenderError::TooLong { .. }) => Ok(Reply::TooLong {
            edition: edition.number(),
        }),
        Err(RenderError::OutOfMemory) => Err(AllocError),
    }
}
