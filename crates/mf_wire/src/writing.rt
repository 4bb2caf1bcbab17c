//! A reply written token by token, straight into the buffer of its line: no JSON value is made of
//! it.

ghost use Rattle.std.specs.Prelude.{◌≡◌, ◌<◌, codes, IfSome, OnErr, OnOk, encode_utf8_all};
ghost use Rattle.serde_json.specs.Data.{string};
ghost use Rattle.mf_parts.specs.Joined.{text_of};
ghost use Rattle.mf_wire.specs.Replies.{fault_data, faults_data, formatted_data, invalid_data, reply_data, valid_data};
ghost use Rattle.mf_wire.specs.Writing.{Writes, WritesMember};
ghost use Rattle.mf_wire.specs.declared.reply.Reply.TheVariants as reply;

use crate::field::Field;
use crate::part::write_parts;
use crate::reply::{Op, Reason, Reply};
use crate::row::{Member, write_number, write_row, write_text};
use json::Writer;
use mf_locale::RecordField;
use mf_parts::{Part, Parts, joined};
use mf_text::Text;
use mf_tree::{Fault, Faults};
use std::alloc::{AllocError, Global};

/// About how many bytes a part or an error takes.
const ITEM_ROOM: usize = 64;

/// About how many bytes the line of a reply takes: enough for most lines, so that their buffer
/// doesn't grow.
pub(crate) fn line_room(reply: &Reply) -> usize {
    let more = match reply {
        Reply::Formatted { parts, faults, .. } => {
            let items = parts.len().saturating_add(faults.len());
            items.saturating_mul(ITEM_ROOM)
        }
        Reply::LintValid { source } => source.as_str().len(),
        Reply::LintInvalid { faults } => faults.len().saturating_mul(ITEM_ROOM),
        _ => 0,
    };
    more.saturating_add(128)
}

/// Writes the object of a reply.
pub(crate) fn write_reply(alloc: Global, out: &mut Writer, reply: &Reply) -> Result<(), AllocError>
    ensures { OnOk result (Writes (reply_data reply.now) out.old out.new) }
{
    match reply {
        Reply::Accepted { edition, op } => write_accepted(out, *edition, *op),
        Reply::Formatted {
            edition,
            tag,
            parts,
            faults,
        } => write_formatted(alloc, out, *edition, tag.as_text(), parts, faults),
        Reply::LintValid { source } => write_valid(out, source),
        Reply::LintInvalid { faults } => write_invalid(out, faults.as_slice()),
        Reply::Stat {
            edition,
            starts,
            quits,
        } => write_stat(out, *edition, *starts, *quits),
        Reply::BadJson => write_row(out, &[Member::Text("error", "bad-json")]),
        Reply::BadRequest { field } => write_bad_request(out, *field),
        Reply::BadLocale { field, rule } => write_bad_locale(out, *field, *rule),
        Reply::BadHandler { reason } => write_bad_handler(out, *reason),
        Reply::EditionsFull { entries } => write_editions_full(out, *entries),
        Reply::StoreFull { used, size } => write_store_full(out, *used, *size),
        Reply::NoMessage { edition } => write_no_message(out, *edition),
        Reply::NotYet { edition, since } => write_not_yet(out, *edition, *since),
        Reply::TooLong { edition } => write_too_long(out, *edition),
    }
}

/// Writes the object of a publication that is accepted. It fails only where there was room for
/// fewer than 64 bytes.
pub(crate) fn write_accepted(out: &mut Writer, edition: u64, op: Op) -> Result<(), AllocError>
    ensures written { OnOk result
        (Writes (reply_data (reply.Accepted edition op)) out.old out.new) }
    ensures room { OnErr result (out.old.spare < 64) }
{
    out.begin_object()?;
    out.key("edition")?;
    out.u64(edition)?;
    out.key("ok")?;
    out.string(op.as_str())?;
    out.end_object()
}

/// Writes the object of a request that is refused by a field.
fn write_bad_request(out: &mut Writer, field: Field) -> Result<(), AllocError>
    ensures { OnOk result (Writes (reply_data (reply.BadRequest field)) out.old out.new) }
{
    write_row(
        out,
        &[
            Member::Text("error", "bad-request"),
            Member::Text("field", field.as_str()),
        ],
    )
}

/// Writes the object of a locale record that is refused by a field, and by a rule where one is
/// named.
fn write_bad_locale(
    out: &mut Writer,
    field: RecordField,
    rule: Option<u32>,
) -> Result<(), AllocError>
    ensures { OnOk result (Writes (reply_data (reply.BadLocale field rule)) out.old out.new) }
{
    out.begin_object()?;
    write_text(out, "error", "bad-locale")?;
    write_text(out, "field", field.as_str())?;
    if let Some(rule) = rule {
        write_number(out, "rule", u64::from(rule))?;
    }
    out.end_object()
}

/// Writes the object of a handler that is refused.
fn write_bad_handler(out: &mut Writer, reason: Reason) -> Result<(), AllocError>
    ensures { OnOk result (Writes (reply_data (reply.BadHandler reason)) out.old out.new) }
{
    write_row(
        out,
        &[
            Member::Text("error", "bad-handler"),
            Member::Text("reason", reason.as_str()),
        ],
    )
}

/// Writes the object of a publication for which the log has too many entries.
fn write_editions_full(out: &mut Writer, entries: u64) -> Result<(), AllocError>
    ensures { OnOk result (Writes (reply_data (reply.EditionsFull entries)) out.old out.new) }
{
    write_row(
        out,
        &[
            Member::Number("entries", entries),
            Member::Text("error", "editions-full"),
        ],
    )
}

/// Writes the object of a publication for which the log has too few bytes left.
fn write_store_full(out: &mut Writer, used: u64, size: u64) -> Result<(), AllocError>
    ensures { OnOk result (Writes (reply_data (reply.StoreFull used size)) out.old out.new) }
{
    write_row(
        out,
        &[
            Member::Text("error", "store-full"),
            Member::Number("size", size),
            Member::Number("used", used),
        ],
    )
}

/// Writes the object of a message that isn't there.
fn write_no_message(out: &mut Writer, edition: u64) -> Result<(), AllocError>
    ensures { OnOk result (Writes (reply_data (reply.NoMessage edition)) out.old out.new) }
{
    write_row(
        out,
        &[
            Member::Number("edition", edition),
            Member::Text("error", "no-message"),
        ],
    )
}

/// Writes the object of an edition that isn't there yet.
fn write_not_yet(out: &mut Writer, edition: u64, since: u64) -> Result<(), AllocError>
    ensures { OnOk result (Writes (reply_data (reply.NotYet edition since)) out.old out.new) }
{
    write_row(
        out,
        &[
            Member::Number("edition", edition),
            Member::Text("error", "not-yet"),
            Member::Number("since", since),
        ],
    )
}

/// Writes the object of a message whose text is too long.
fn write_too_long(out: &mut Writer, edition: u64) -> Result<(), AllocError>
    ensures { OnOk result (Writes (reply_data (reply.TooLong edition)) out.old out.new) }
{
    write_row(
        out,
        &[
            Member::Number("edition", edition),
            Member::Text("error", "too-long"),
        ],
    )
}

/// Writes the object of what the newest edition has compiled.
fn write_stat(out: &mut Writer, edition: u64, starts: u64, quits: u64) -> Result<(), AllocError>
    ensures { OnOk result (Writes (reply_data (reply.Stat edition starts quits)) out.old out.new) }
{
    write_row(
        out,
        &[
            Member::Number("edition", edition),
            Member::Text("ok", "stat"),
            Member::Number("quits", quits),
            Member::Number("starts", starts),
        ],
    )
}

/// Writes the object of a valid source, which has no errors.
fn write_valid(out: &mut Writer, source: &Text) -> Result<(), AllocError>
    ensures { OnOk result (Writes (valid_data source.now) out.old out.new) }
{
    out.begin_object()?;
    write_errors(out, &[])?;
    write_text(out, "ok", "lint")?;
    write_text(out, "source", source.as_str())?;
    out.end_object()
}

/// Writes the object of an invalid source.
fn write_invalid(out: &mut Writer, faults: &[Fault]) -> Result<(), AllocError>
    ensures { OnOk result (Writes (invalid_data faults.now) out.old out.new) }
{
    out.begin_object()?;
    write_errors(out, faults)?;
    write_text(out, "ok", "lint")?;
    out.end_object()
}

/// Writes the member of errors.
fn write_errors(out: &mut Writer, faults: &[Fault]) -> Result<(), AllocError>
    ensures { OnOk result (WritesMember (codes "errors") (faults_data faults.now) out.old out.new) }
{
    out.key("errors")?;
    write_faults(out, faults)
}

/// Writes the objects of errors.
fn write_faults(out: &mut Writer, faults: &[Fault]) -> Result<(), AllocError>
    ensures { OnOk result (Writes (faults_data faults.now) out.old out.new) }
{
    out.begin_array()?;
    for fault in faults {
        write_fault(out, fault)?;
    }
    out.end_array()
}

/// Writes the object of an error.
fn write_fault(out: &mut Writer, fault: &Fault) -> Result<(), AllocError>
    ensures { OnOk result (Writes (fault_data fault.now) out.old out.new) }
{
    write_row(
        out,
        &[
            Member::Text("kind", fault.kind.as_str()),
            Member::Text("of", fault.of.as_str()),
        ],
    )
}

/// Writes the object of a formatted message.
fn write_formatted(
    alloc: Global,
    out: &mut Writer,
    edition: u64,
    tag: &Text,
    parts: &Parts,
    faults: &Faults,
) -> Result<(), AllocError>
    ensures { OnOk result
        (Writes (formatted_data edition tag.now parts.now faults.now) out.old out.new) }
{
    out.begin_object()?;
    write_number(out, "edition", edition)?;
    write_errors(out, faults.as_slice())?;
    write_text(out, "locale", tag.as_str())?;
    write_text(out, "ok", "format")?;
    out.key("parts")?;
    write_parts(alloc, out, parts)?;
    write_joined(alloc, out, parts)?;
    out.end_object()
}

/// Writes the member of the parts' text. The text of a part that is alone is written as it stands,
/// with no copy made.
fn write_joined(alloc: Global, out: &mut Writer, parts: &Parts) -> Result<(), AllocError>
    ensures { OnOk result
        (WritesMember (codes "text") (string (encode_utf8_all (text_of parts.now)))
        out.old out.new) }
{
    if let Some(text) = lone_text(parts) {
        return write_text(out, "text", text);
    }
    let text = joined(alloc, parts)?;
    write_text(out, "text", text.as_str())
}

/// The text of parts of which there is one, a text or a string.
fn lone_text(parts: &Parts) -> Option<&str>
    ensures { IfSome result (λ text. text.now ≡ encode_utf8_all (text_of parts.now)) }
{
    match parts.as_slice() {
        [Part::Text(text)] => Some(text.as_str()),
        [Part::String { value, .. }] => Some(value.as_str()),
        _ => None,
    }
}
