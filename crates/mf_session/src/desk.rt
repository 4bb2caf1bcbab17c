//! A line answered at the desk of one caller.
ghost use Rattle.std.specs.Prelude.{◌≡◌, false, Err, IfOk, OnErr, encode_utf8_all};
ghost use Rattle.std.specs.declared.result.Result.{Result};
ghost use Rattle.mf_hub.specs.declared.stat.Stat.{Stat};
ghost use Rattle.mf_session.specs.Turns.{stat_reply, Turn};
ghost use Rattle.mf_transcript.specs.Replies.{shows_counts};
ghost use Rattle.mf_wire.specs.Replies.{memory_line};
ghost use Rattle.mf_wire.specs.Requests as refuses;
ghost use Rattle.mf_wire.specs.declared.reply.Reply.{Reply};
ghost use Rattle.mf_wire.specs.declared.request.Request.{Request};

use crate::format::format;
use crate::lint::lint_reply;
use crate::publish::publish_checked;
use mf_hub::{Alone, Stat};
use mf_requests::RequestReader;
use mf_text::Text;
use mf_wire::{Reply, Request, WireError, reply_line};
use std::alloc::{AllocError, Global};

/// The reply line to a line at the desk of one caller. Where there is no memory for it, the line is
/// answered by the memory line.
pub(crate) fn answer(
    alloc: Global,
    reader: &mut RequestReader,
    desk: &mut Alone,
    line: &[u8],
) -> Result<Text, AllocError>
    ensures ok { IfOk result (λ said. Turn line.now (encode_utf8_all said) desk.old desk.new) }
    ensures err { OnErr result (Turn line.now memory_line desk.old desk.new) }
{
    match reader.read(alloc, line) {
        Ok(Request::Publish(change)) => publish_checked(alloc, desk, change),
        Ok(
            Request::Format {
                tag,
                id,
                arguments,
                since,
            },
        ) => reply_line(alloc, &format(alloc, desk, &tag, &id, &arguments, since)?),
        Ok(Request::Lint { source }) => reply_line(alloc, &lint_reply(alloc, source.as_str())?),
        Ok(Request::Stat) => reply_line(alloc, &stat_reply(desk.stat())),
        Err(error) => reply_line(alloc, &refusal(error)?),
    }
}

/// The reply with these counts.
pub(crate) fn stat_reply(stat: Stat) -> Reply
    ensures { result ≡ stat_reply stat }
{
    let Stat {
        edition,
        starts,
        quits,
    } = stat;
    Reply::Stat {
        edition,
        starts,
        quits,
    }
}

/// The reply to a line that makes no request.
pub fn refusal(error: WireError) -> Result<Reply, AllocError>
    ensures due { IfOk result (λ reply.
        (asked : Result Request Reply) → refuses.IsDue asked error → asked ≡ Err reply) }
    ensures plain { IfOk result (λ reply. shows_counts reply ≡ false) }
{
    match error {
        WireError::BadJson => Ok(Reply::BadJson),
        WireError::BadRequest { field } => Ok(Reply::BadRequest { field }),
        WireError::BadLocale { field, rule } => Ok(Reply::BadLocale { field, rule }),
        WireError::OutOfMemory => Err(AllocError),
    }
}
