//! The reply to a request for a sentence of one of the callers that share a log.
ghost use Rattle.std.specs.Prelude.{◌≡◌, ◌≤◌, Contains, IfOk, OnErr, OnOk, Some, length};
ghost use Rattle.std.specs.Arc.{arc_value};
ghost use Rattle.mf_answer.specs.Answers.{IsAnswer, IsAnswerIn, IsAnswerOf};
ghost use Rattle.mf_edition.specs.Edition.{edition_of};
ghost use Rattle.mf_hub.specs.Passes.{Grows, HasMessage, Keeps};
ghost use Rattle.mf_session.specs.Sharing.{IsPinned, Misses, Shows, ShowsAt, ShowsFound, StaysFree};
ghost use Rattle.mf_transcript.specs.Replies.{IsFormatReply};
ghost use Rattle.mf_transcript.specs.Served.{served_to};

use mf_edition::{Edition, Found, editions_are_numbered, editions_stay, newest_is_last};
use mf_hub::{Hub, Pass};
use mf_io::{Gate, Place};
use mf_locale::{Tag, chain};
use mf_render::{Formatted, RenderError, render};
use mf_text::{Arguments, Text};
use mf_wire::Reply;
use std::alloc::{AllocError, Global};
use std::sync::Wait;

/// The reply of the newest edition to a request for the message of an id, looked up along the chain
/// of a tag, in an edition of at least the number `since`. The edition is pinned while it is looked
/// at.
pub(crate) fn format_shared<R: Wait, G: Gate>(
    rt: &R,
    alloc: Global,
    gate: &G,
    hub: &Hub,
    pass: &mut Pass,
    tag: &Tag,
    id: &Text,
    arguments: &Arguments,
    since: u64,
) -> Result<Reply, AllocError>
    requires own { pass.old.hub ≡ hub.now }
    ensures own { pass.new.hub ≡ pass.old.hub }
    ensures free { StaysFree pass.old.view pass.new.view }
    ensures ok { IfOk result (λ reply. Shows tag.now id.now arguments.now since reply
        pass.old.view pass.new.view) }
    ensures err { OnErr result (Misses 1 pass.old.view pass.new.view) }
{
    editions_stay();
    newest_is_last();
    gate.at(rt, Place::BeforePin);
    let edition = hub.pin(rt, pass)?;
    let reply = format_pinned(
        rt, alloc, gate, hub, pass, &edition, tag, id, arguments, since,
    );
    hub.unpin(rt, pass);
    reply
}

/// The reply of the edition that is pinned.
fn format_pinned<R: Wait, G: Gate>(
    rt: &R,
    alloc: Global,
    gate: &G,
    hub: &Hub,
    pass: &mut Pass,
    edition: &Edition,
    tag: &Tag,
    id: &Text,
    arguments: &Arguments,
    since: u64,
) -> Result<Reply, AllocError>
    requires own { pass.old.hub ≡ hub.now }
    requires pinned { IsPinned edition.now pass.old.view }
    ensures own { pass.new.hub ≡ pass.old.hub }
    ensures ok { IfOk result (λ reply. ShowsAt edition.now tag.now id.now arguments.now since reply
        pass.old.view pass.new.view) }
    ensures err { OnErr result (Misses 1 pass.old.view pass.new.view) }
{
    editions_stay();
    editions_are_numbered();
    let number = edition.number();
    if number < since {
        return Ok(Reply::NotYet {
            edition: number,
            since,
        });
    }
    let chain = chain(alloc, tag)?;
    match edition.find_along(chain, id) {
        Some(found) => format_found(rt, alloc, gate, hub, pass, edition, found, arguments),
        None => Ok(Reply::NoMessage { edition: number }),
    }
}

/// The reply that formats a message that was found in the edition that is pinned, with the record
/// of its tag.
fn format_found<R: Wait, G: Gate>(
    rt: &R,
    alloc: Global,
    gate: &G,
    hub: &Hub,
    pass: &mut Pass,
    edition: &Edition,
    found: Found,
    arguments: &Arguments,
) -> Result<Reply, AllocError>
    requires own { pass.old.hub ≡ hub.now }
    requires pinned { IsPinned edition.now pass.old.view }
    requires inside { HasMessage found.index pass.old.view }
    ensures own { pass.new.hub ≡ pass.old.hub }
    ensures ok { IfOk result (λ reply. ShowsFound edition.now found arguments.now reply
        pass.old.view pass.new.view) }
    ensures err { OnErr result (Misses 1 pass.old.view pass.new.view) }
{
    editions_stay();
    let plan = hub.plan_at(rt, pass, found.index, gate)?;
    match render(alloc, &plan, edition, &found.tag, arguments) {
        Ok(Formatted { parts, faults }) => Ok(Reply::Formatted {
            edition: edition.number(),
            tag: found.tag,
            parts,
            faults,
        }),
        Err(RenderError::TooLong { .. }) => Ok(Reply::TooLong {
            edition: edition.number(),
        }),
        Err(RenderError::OutOfMemory) => Err(AllocError),
    }
}
