//! The reply to a publication.
ghost use Rattle.std.specs.Prelude.{◌≡◌, ◌≢◌, IfOk, OnErr, encode_utf8_all};
ghost use Rattle.mf_edition.specs.Sizes.{refused};
ghost use Rattle.mf_edition.specs.declared.error.Refusal.{Refusal};
ghost use Rattle.mf_session.specs.Publishing.{Publishes, PublishesUnless};
ghost use Rattle.mf_transcript.specs.Asked.{reason_against};
ghost use Rattle.mf_transcript.specs.Replies.{refusal_reply};

use crate::checks::reason_against;
use mf_edition::{Change, PublishError};
use mf_hub::Alone;
use mf_text::Text;
use mf_wire::{Accepted, Reply, reply_line};
use std::alloc::{AllocError, Global};

/// Publishes a change, unless its handler is refused, and gives the reply line.
pub(crate) fn publish_checked(
    alloc: Global,
    desk: &mut Alone,
    change: Change,
) -> Result<Text, AllocError>
    ensures ok { IfOk result (λ line. PublishesUnless (reason_against change)
        change (encode_utf8_all line) desk.old desk.new) }
    ensures err { OnErr result (desk.new ≡ desk.old) }
{
    match reason_against(&change)? {
        Some(reason) => reply_line(alloc, &Reply::BadHandler { reason }),
        None => publish(alloc, desk, change),
    }
}

/// Publishes a change, and gives the reply line, or gives that of why it is refused. Room for the
/// line of an accepted one is made first, so that nothing has changed where there is no memory.
fn publish(alloc: Global, desk: &mut Alone, change: Change) -> Result<Text, AllocError>
    ensures ok { IfOk result (λ line. Publishes
        change (encode_utf8_all line) desk.old desk.new) }
    ensures err { OnErr result (desk.new ≡ desk.old) }
{
    let accepted = Accepted::new(alloc, &change)?;
    match desk.publish(change) {
        Ok(edition) => Ok(accepted.line(edition)),
        Err(error) => reply_line(alloc, &refused(error)?),
    }
}

/// The reply to a publication that isn't made.
pub(crate) fn refused(error: PublishError) -> Result<Reply, AllocError>
    ensures reply { IfOk result (λ reply.
        (refusal : Refusal) → error ≡ refused refusal → reply ≡ refusal_reply refusal) }
    ensures cause { IfOk result (λ _. error ≢ PublishError.OutOfMemory) }
{
    match error {
        PublishError::EditionsFull { entries } => Ok(Reply::EditionsFull { entries }),
        PublishError::StoreFull { used, size } => Ok(Reply::StoreFull { used, size }),
        PublishError::OutOfMemory => Err(AllocError),
    }
}
