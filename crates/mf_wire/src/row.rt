//! Objects written member by member, token by token.

ghost use Rattle.std.specs.Prelude.{OnOk, encode_utf8_all};
ghost use Rattle.serde_json.specs.Data.{number, object, string, unsigned};
ghost use Rattle.mf_wire.specs.Parts.{pair_members};
ghost use Rattle.mf_wire.specs.Writing.{member_name, member_value, row_members, Writes, WritesMember};

use json::Writer;
use mf_text::Pair;
use std::alloc::AllocError;

/// A member of an object: its name, and a number, a text, or an object of texts.
#[derive(Clone, Copy)]
pub(crate) enum Member<'a> {
    Number(&'a str, u64),
    Text(&'a str, &'a str),
    Texts(&'a str, &'a [Pair]),
}

/// Writes an object of these members.
pub(crate) fn write_row(out: &mut Writer, row: &[Member<'_>]) -> Result<(), AllocError>
    ensures { OnOk result (Writes (object (row_members row.now)) out.old out.new) }
{
    out.begin_object()?;
    for member in row {
        write_member(out, member)?;
    }
    out.end_object()
}

/// Writes a member of a row.
fn write_member(out: &mut Writer, member: &Member<'_>) -> Result<(), AllocError>
    ensures { OnOk result
        (WritesMember (member_name member.now) (member_value member.now) out.old out.new) }
{
    match *member {
        Member::Number(name, n) => write_number(out, name, n),
        Member::Text(name, text) => write_text(out, name, text),
        Member::Texts(name, pairs) => write_texts(out, name, pairs),
    }
}

/// Writes a member whose value is a number.
pub(crate) fn write_number(out: &mut Writer, name: &str, n: u64) -> Result<(), AllocError>
    ensures { OnOk result (WritesMember name.now (number (unsigned n)) out.old out.new) }
{
    out.key(name)?;
    out.u64(n)
}

/// Writes a member whose value is a text.
pub(crate) fn write_text(out: &mut Writer, name: &str, text: &str) -> Result<(), AllocError>
    ensures { OnOk result (WritesMember name.now (string text.now) out.old out.new) }
{
    out.key(name)?;
    out.string(text)
}

/// Writes a member whose value is an object of texts.
fn write_texts(out: &mut Writer, name: &str, pairs: &[Pair]) -> Result<(), AllocError>
    ensures { OnOk result
        (WritesMember name.now (object (pair_members pairs.now)) out.old out.new) }
{
    out.key(name)?;
    write_pairs(out, pairs)
}

/// Writes an object of texts.
fn write_pairs(out: &mut Writer, pairs: &[Pair]) -> Result<(), AllocError>
    ensures { OnOk result (Writes (object (pair_members pairs.now)) out.old out.new) }
{
    out.begin_object()?;
    for pair in pairs {
        write_pair(out, pair)?;
    }
    out.end_object()
}

/// Writes a name with its text.
fn write_pair(out: &mut Writer, pair: &Pair) -> Result<(), AllocError>
    ensures { OnOk result (WritesMember (encode_utf8_all pair.now.name)
        (string (encode_utf8_all pair.now.value)) out.old out.new) }
{
    write_text(out, pair.name.as_str(), pair.value.as_str())
}
