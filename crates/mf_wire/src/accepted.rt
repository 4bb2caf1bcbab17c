//! The line of a publication that is accepted, for which room is made before the publication.

ghost use Rattle.std.specs.Prelude.{◌≡◌, IfOk, encode_utf8_all};
ghost use Rattle.mf_wire.specs.Replies.{op_of, reply_line};
ghost use Rattle.mf_wire.specs.declared.reply.Reply.TheVariants as reply;

use crate::reply::Op;
use crate::writing::write_accepted;
use json::Writer;
use mf_edition::Change;
use mf_text::Text;
use std::alloc::{AllocError, Global};
use std::marker::Model;

/// The most bytes that the line takes, with what the writer asks for at each token.
const LINE_ROOM: usize = 64;

/// Room for the line that says that a change was published, seen as what the change is a
/// publication of.
#[derive(Debug, Drop)]
pub struct Accepted {
    room: Vec<u8>,
    op: Op,
}

impl Model for Accepted {
    ghost use Rattle.std.specs.Prelude.{◌≡◌, ◌≤◌, [], vec_capacity};
    ghost use Rattle.mf_wire.specs.declared.reply.Op.{Op};

    ghost Value = { Op };

    ghost view = { λ a. a.op };

    ghost invariant = { λ a. (a.room.items ≡ []) × (64 ≤ vec_capacity a.room) };
}

impl Accepted {
    /// Makes room for the line, before the change is published.
    pub fn new(alloc: Global, change: &Change) -> Result<Accepted, AllocError>
        ensures { IfOk result (λ accepted. accepted ≡ op_of change.now) }
    {
        let room = Vec::with_capacity(alloc, LINE_ROOM)?;
        Ok(Accepted {
            room,
            op: Op::of(change),
        })
    }

    /// The line, without its line feed, of the publication that made this edition. It takes no
    /// memory.
    pub fn line(self, edition: u64) -> Text
        ensures { encode_utf8_all result ≡ reply_line (reply.Accepted edition self) }
    {
        let mut out = Writer::new(self.room);
        let Ok(()) = write_accepted(&mut out, edition, self.op) else {
            unreachable!();
        };
        let Ok(line) = String::from_utf8(out.into_inner()) else {
            unreachable!();
        };
        Text::from(line)
    }
}
