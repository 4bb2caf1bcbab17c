ghost use Rattle.std.specs.Prelude.{◌≡◌, IfOk, encode_utf8_all};
ghost use Rattle.mf_wire.specs.Replies.{op_name, op_of, reason_name, reply_line};

use crate::field::Field;
use crate::writing::{line_room, write_reply};
use json::Writer;
use mf_edition::Change;
use mf_locale::{RecordField, Tag};
use mf_parts::Parts;
use mf_text::Text;
use mf_tree::Faults;
use std::alloc::{AllocError, Global};

/// What a publication changed.
#[derive(Clone, Copy, Debug, PartialEq, Eq)]
pub enum Op {
    /// A catalogue of messages.
    Publish,
    /// The locale record of a tag.
    Locale,
    /// The handler of a name.
    Handler,
}

impl Op {
    /// What a change is a publication of.
    pub fn of(change: &Change) -> Op
        ensures { result ≡ op_of change.now }
    {
        match change {
            Change::Catalogue { .. } => Op::Publish,
            Change::Locale { .. } => Op::Locale,
            Change::Handler { .. } => Op::Handler,
        }
    }

    /// Its name in a reply.
    pub(crate) fn as_str(self) -> &'static str
        ensures { result.now ≡ op_name self }
    {
        match self {
            Op::Publish => "publish",
            Op::Locale => "locale",
            Op::Handler => "handler",
        }
    }
}

/// Why a handler is refused.
#[derive(Clone, Copy, Debug, PartialEq, Eq)]
pub enum Reason {
    /// Its name has no namespace, or a reserved one.
    ReservedName,
    /// Its base is no function that handlers may have.
    BadBase,
    /// A preset is no option of the base, or has a value that isn't allowed.
    BadOption,
    /// A key of its table is there twice.
    RepeatedKey,
}

impl Reason {
    /// Its name in a reply.
    pub(crate) fn as_str(self) -> &'static str
        ensures { result.now ≡ reason_name self }
    {
        match self {
            Reason::ReservedName => "reserved-name",
            Reason::BadBase => "bad-base",
            Reason::BadOption => "bad-option",
            Reason::RepeatedKey => "repeated-key",
        }
    }
}

/// The answer to a request.
#[derive(Debug, Drop)]
pub enum Reply {
    /// The publication is this edition.
    Accepted {
        edition: u64,
        op: Op,
    },
    /// The message of this edition that stands under this tag, formatted, with its errors.
    Formatted {
        edition: u64,
        tag: Tag,
        parts: Parts,
        faults: Faults,
    },
    /// The source is valid, and this is its canonical form.
    LintValid {
        source: Text,
    },
    /// The source is invalid, and these are its errors.
    LintInvalid {
        faults: Faults,
    },
    /// The newest edition, how many compilations of its messages were begun, and how many of these
    /// were given up.
    Stat {
        edition: u64,
        starts: u64,
        quits: u64,
    },
    /// The line is no JSON.
    BadJson,
    /// This field is the first that is missing, of another kind or out of range.
    BadRequest {
        field: Field,
    },
    /// This field of the locale record is the first that is missing, of another kind or out of
    /// range, or has this rule as its first bad one, counted from 1.
    BadLocale {
        field: RecordField,
        rule: Option<u32>,
    },
    /// The handler is refused.
    BadHandler {
        reason: Reason,
    },
    /// The log has so many publications, the most that it may have.
    EditionsFull {
        entries: u64,
    },
    /// The publication counts for `size` bytes, and with the `used` ones would pass the limit of
    /// the log.
    StoreFull {
        used: u64,
        size: u64,
    },
    /// No tag of the chain has the id in this edition.
    NoMessage {
        edition: u64,
    },
    /// This edition is the newest, and the request asks for a later one.
    NotYet {
        edition: u64,
        since: u64,
    },
    /// The text of the message would be longer than a reply may have it.
    TooLong {
        edition: u64,
    },
}

/// The line of a request that found no memory.
pub const MEMORY_LINE: &[u8] = b"{\"error\":\"out-of-memory\"}";

/// The line of a reply, without its line feed.
pub fn reply_line(alloc: Global, reply: &Reply) -> Result<Text, AllocError>
    ensures { IfOk result (λ line. encode_utf8_all line ≡ reply_line reply.now) }
{
    let buffer = Vec::with_capacity(alloc, line_room(reply))?;
    let mut out = Writer::new(buffer);
    write_reply(alloc, &mut out, reply)?;
    let Ok(line) = String::from_utf8(out.into_inner()) else {
        unreachable!();
    };
    Ok(Text::from(line))
}
