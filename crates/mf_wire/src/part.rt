//! The objects of the parts of a formatted message.

ghost use Rattle.std.specs.Prelude.{◌≡◌, OnOk, IfOk};
ghost use Rattle.mf_text.specs.Pairs.{in_byte_order};
ghost use Rattle.mf_wire.specs.Parts.{fallback_part, form_name, markup_part, part_data, parts_data, plain_part, value_part};
ghost use Rattle.mf_wire.specs.Writing.{Writes};

use crate::row::{Member, write_row};
use json::Writer;
use mf_parts::{Part, Parts};
use mf_text::{OrderedPairs, Pairs, Text};
use mf_tree::Form;
use std::alloc::{AllocError, Global};

/// Writes the objects of parts.
pub(crate) fn write_parts(alloc: Global, out: &mut Writer, parts: &Parts) -> Result<(), AllocError>
    ensures { OnOk result (Writes (parts_data parts.now) out.old out.new) }
{
    out.begin_array()?;
    for part in parts.as_slice() {
        write_part(alloc, out, part)?;
    }
    out.end_array()
}

/// Writes the object of a part.
fn write_part(alloc: Global, out: &mut Writer, part: &Part) -> Result<(), AllocError>
    ensures { OnOk result (Writes (part_data part.now) out.old out.new) }
{
    match part {
        Part::Text(text) => write_plain(out, "text", text.as_str()),
        Part::Isolate(mark) => {
            let mut buffer = [0; 4];
            let mark = mark.encode_utf8(&mut buffer);
            write_plain(out, "isolate", mark)
        }
        Part::String { value, id, .. } => write_value(out, "string", id, value),
        Part::Number { value, id, .. } => write_value(out, "number", id, value),
        Part::Markup {
            form,
            name,
            options,
            id,
        } => write_markup(alloc, out, *form, name, options, id),
        Part::Fallback { source } => write_fallback(out, source),
    }
}

/// Writes the object of a part that has a kind and a value.
fn write_plain(out: &mut Writer, kind: &str, value: &str) -> Result<(), AllocError>
    ensures { OnOk result (Writes (plain_part kind.now value.now) out.old out.new) }
{
    write_row(
        out,
        &[Member::Text("kind", kind), Member::Text("value", value)],
    )
}

/// Writes the object of a value of this kind, and first of its id where it has one.
fn write_value<'a>(
    out: &mut Writer,
    kind: &'a str,
    id: &'a Option<Text>,
    value: &'a Text,
) -> Result<(), AllocError>
    ensures { OnOk result (Writes (value_part kind.now id.now value.now) out.old out.new) }
{
    match id {
        None => write_plain(out, kind, value.as_str()),
        Some(id) => {
            let id = Member::Text("id", id.as_str());
            let kind = Member::Text("kind", kind);
            let value = Member::Text("value", value.as_str());
            write_row(out, &[id, kind, value])
        }
    }
}

/// Writes the object of markup, its options in the byte order of their names.
fn write_markup<'a>(
    alloc: Global,
    out: &mut Writer,
    form: Form,
    name: &'a Text,
    options: &'a Pairs,
    id: &'a Option<Text>,
) -> Result<(), AllocError>
    ensures { OnOk result
        (Writes (markup_part form name.now options.now id.now) out.old out.new) }
{
    let ordered = in_byte_order(alloc, options)?;
    let form = Member::Text("form", form_name(form));
    let kind = Member::Text("kind", "markup");
    let name = Member::Text("name", name.as_str());
    let options = Member::Texts("options", ordered.as_slice());
    match id {
        None => write_row(out, &[form, kind, name, options]),
        Some(id) => {
            let id = Member::Text("id", id.as_str());
            write_row(out, &[form, id, kind, name, options])
        }
    }
}

/// Writes the object of a fallback.
fn write_fallback(out: &mut Writer, source: &Text) -> Result<(), AllocError>
    ensures { OnOk result (Writes (fallback_part source.now) out.old out.new) }
{
    write_row(
        out,
        &[
            Member::Text("kind", "fallback"),
            Member::Text("source", source.as_str()),
        ],
    )
}

/// The name of a form in a reply.
fn form_name(form: Form) -> &'static str
    ensures { result.now ≡ form_name form }
{
    match form {
        Form::Start => "open",
        Form::Standalone => "standalone",
        Form::End => "close",
    }
}

/// Options in the byte order of their names.
fn in_byte_order(alloc: Global, options: &Pairs) -> Result<Pairs, AllocError>
    ensures { IfOk result (λ ordered. ordered ≡ in_byte_order options.now) }
{
    let mut ordered = OrderedPairs::new(alloc);
    for option in options.as_slice() {
        ordered.put(option.clone()?)?;
    }
    Ok(ordered.into_pairs())
}
