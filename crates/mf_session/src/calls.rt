//! A line answered as the caller of a pass.
ghost use Rattle.std.specs.Prelude.{◌≡◌, ◌≢◌, Contains, IfOk, OnErr, encode_utf8_all, length};
ghost use Rattle.std.specs.Arc.{arc_value};
ghost use Rattle.std.specs.List.{AllByRecursion};
ghost use Rattle.mf_hub.specs.Passes.{Grows, Keeps};
ghost use Rattle.mf_session.specs.Sharing.{Call, Misses, SharesChange, SharesUnless, Shows, StaysFree};
ghost use Rattle.mf_transcript.specs.Asked.{reason_against};
ghost use Rattle.mf_wire.specs.Replies.{memory_line};

use crate::checks::reason_against;
use crate::desk::{refusal, stat_reply};
use crate::lint::lint_reply;
use crate::publish::refused;
use crate::sentences::format_shared;
use mf_edition::Change;
use mf_hub::{Hub, Pass};
use mf_io::Gate;
use mf_requests::RequestReader;
use mf_text::Text;
use mf_wire::{Accepted, Reply, Request, reply_line};
use std::alloc::{AllocError, Global};
use std::sync::Wait;

/// The reply line to a line of the caller of a pass. Where there is no memory for it, the line is
/// answered by the memory line.
pub(crate) fn answer_shared<R: Wait, G: Gate>(
    rt: &R,
    alloc: Global,
    gate: &G,
    reader: &mut RequestReader,
    hub: &Hub,
    pass: &mut Pass,
    line: &[u8],
) -> Result<Text, AllocError>
    requires own { pass.old.hub ≡ hub.now }
    ensures own { pass.new.hub ≡ pass.old.hub }
    ensures free { StaysFree pass.old.view pass.new.view }
    ensures ok { IfOk result (λ said. Call line.now (encode_utf8_all said) pass.old.view pass.new.view) }
    ensures err { OnErr result (Call line.now memory_line pass.old.view pass.new.view) }
{
    match reader.read(alloc, line) {
        Ok(Request::Publish(change)) => share_checked(rt, alloc, hub, pass, change),
        Ok(
            Request::Format {
                tag,
                id,
                arguments,
                since,
            },
        ) => reply_line(
            alloc,
            &format_shared(rt, alloc, gate, hub, pass, &tag, &id, &arguments, since)?,
        ),
        Ok(Request::Lint { source }) => reply_line(alloc, &lint_reply(alloc, source.as_str())?),
        Ok(Request::Stat) => reply_line(alloc, &stat_reply(hub.stat(rt, pass))),
        Err(error) => reply_line(alloc, &refusal(error)?),
    }
}

/// Publishes a change, unless its handler is refused, and gives the reply line.
fn share_checked<R: Wait>(
    rt: &R,
    alloc: Global,
    hub: &Hub,
    pass: &mut Pass,
    change: Change,
) -> Result<Text, AllocError>
    requires own { pass.old.hub ≡ hub.now }
    ensures own { pass.new.hub ≡ pass.old.hub }
    ensures free { StaysFree pass.old.view pass.new.view }
    ensures ok { IfOk result (λ line. SharesUnless (reason_against change)
        change (encode_utf8_all line) pass.old.view pass.new.view) }
    ensures err { OnErr result (Grows pass.old.view pass.new.view × Keeps pass.old.view pass.new.view) }
{
    match reason_against(&change)? {
        Some(reason) => reply_line(alloc, &Reply::BadHandler { reason }),
        None => share(rt, alloc, hub, pass, change),
    }
}

/// Publishes a change, and gives the reply line, or gives that of why it is refused. Room for the
/// line of an accepted one is made first, so that nothing is published where there is no memory.
fn share<R: Wait>(
    rt: &R,
    alloc: Global,
    hub: &Hub,
    pass: &mut Pass,
    change: Change,
) -> Result<Text, AllocError>
    requires own { pass.old.hub ≡ hub.now }
    ensures own { pass.new.hub ≡ pass.old.hub }
    ensures free { StaysFree pass.old.view pass.new.view }
    ensures ok { IfOk result (λ line. SharesChange
        change (encode_utf8_all line) pass.old.view pass.new.view) }
    ensures err { OnErr result (Grows pass.old.view pass.new.view × Keeps pass.old.view pass.new.view) }
{
    let accepted = Accepted::new(alloc, &change)?;
    match hub.publish(rt, pass, change) {
        Ok(edition) => Ok(accepted.line(edition)),
        Err(error) => reply_line(alloc, &refused(error)?),
    }
}
