//! The parts of values and of markup.
ghost use Rattle.std.specs.Prelude.{◌≡◌, ◌++◌, [], IfOk, IsTrue};
ghost use Rattle.mf_answer.specs.Parts as parts;

use mf_functions::shown_text;
use mf_locale::LocaleRecord;
use mf_parts::Part;
use mf_text::Text;
use mf_value::{Content, Value};
use std::alloc::{AllocError, Global};

/// The part of a value. A text that is shown as it stands isn't copied.
pub fn value_part(alloc: Global, record: &LocaleRecord, value: Value) -> Result<Part, AllocError>
    ensures { IfOk result (λ part. part ≡ parts.value_part «record».now value) }
{
    let shown = match &value.content {
        Content::Number { .. } => Some(shown_text(alloc, record, &value)?),
        Content::Text(_) | Content::Fallback(_) => None,
    };
    let Value {
        content,
        dir,
        forced,
        id,
        prefix,
        suffix,
        ..
    } = value;
    match content {
        Content::Text(text) => Ok(Part::String {
            value: between(prefix, text, &suffix)?,
            dir,
            forced,
            id,
        }),
        Content::Number { .. } => Ok(Part::Number {
            value: shown.unwrap_or(prefix),
            dir,
            forced,
            id,
        }),
        Content::Fallback(source) => Ok(Part::Fallback { source }),
    }
}

/// A text between a prefix and a suffix, which isn't copied where it has none.
fn between(prefix: Text, text: Text, suffix: &Text) -> Result<Text, AllocError>
    ensures { IfOk result (λ joined. joined ≡ prefix ++ (text ++ suffix.now)) }
{
    let mut joined = if is_empty(&prefix) {
        text
    } else {
        behind(prefix, &text)?
    };
    joined.push_str(suffix.as_str())?;
    Ok(joined)
}

/// Whether a text has no character.
fn is_empty(text: &Text) -> bool
    ensures { IsTrue result → text.now ≡ [] }
{
    text.as_str().is_empty()
}

/// A text behind another one.
fn behind(prefix: Text, text: &Text) -> Result<Text, AllocError>
    ensures { IfOk result (λ joined. joined ≡ prefix ++ text.now) }
{
    let mut joined = prefix;
    joined.push_str(text.as_str())?;
    Ok(joined)
}
