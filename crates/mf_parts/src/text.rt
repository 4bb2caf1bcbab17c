ghost use Rattle.std.specs.Prelude.{◌≡◌, ◌++◌, ◌-◌, ◌^◌, min, length, IfOk, OnOk, encode_utf8_all, string_bytes};
ghost use Rattle.mf_parts.specs.Joined.{in_braces, part_text, text_of};

use crate::{Part, Parts};
use mf_text::Text;
use std::alloc::{AllocError, Global};

/// The text of a message: its parts joined.
pub fn joined(alloc: Global, parts: &Parts) -> Result<Text, AllocError>
    ensures { IfOk result (λ text. text ≡ text_of parts.now) }
{
    let mut text = String::with_capacity(alloc, joined_len(parts) as usize)?;
    for part in parts.as_slice() {
        push_part(&mut text, part)?;
    }
    Ok(Text::from(text))
}

/// Puts the text of a part at the end.
fn push_part(text: &mut String, part: &Part) -> Result<(), AllocError>
    ensures { OnOk result
        (string_bytes text.new ≡ string_bytes text.old ++ encode_utf8_all (part_text part.now)) }
{
    match part {
        Part::Text(piece) => text.push_str(piece.as_str()),
        Part::Isolate(mark) => text.push(*mark),
        Part::String { value, .. } | Part::Number { value, .. } => text.push_str(value.as_str()),
        Part::Markup { .. } => Ok(()),
        Part::Fallback { source } => push_in_braces(text, source),
    }
}

/// Puts a text in braces at the end.
fn push_in_braces(text: &mut String, source: &Text) -> Result<(), AllocError>
    ensures { OnOk result
        (string_bytes text.new ≡ string_bytes text.old ++ encode_utf8_all (in_braces source.now)) }
{
    text.push('{')?;
    text.push_str(source.as_str())?;
    text.push('}')?;
    Ok(())
}

/// The length of that text in bytes of UTF-8, or `u64::MAX` where it is longer.
pub fn joined_len(parts: &Parts) -> u64
    ensures { result ≡ min (length (encode_utf8_all (text_of parts.now))) (2 ^ 64 - 1) }
{
    let mut len = 0u64;
    for part in parts.as_slice() {
        len = len.saturating_add(part_len(part));
    }
    len
}

/// The length of a part's text in bytes.
fn part_len(part: &Part) -> u64
    ensures { result ≡ length (encode_utf8_all (part_text part.now)) }
{
    match part {
        Part::Text(piece) => piece.as_str().len() as u64,
        Part::Isolate(mark) => mark.len_utf8() as u64,
        Part::String { value, .. } | Part::Number { value, .. } => value.as_str().len() as u64,
        Part::Markup { .. } => 0,
        Part::Fallback { source } => source.as_str().len() as u64 + 2,
    }
}
