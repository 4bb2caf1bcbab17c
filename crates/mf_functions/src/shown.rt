//! What a value shows.

ghost use Rattle.std.specs.Prelude.{◌≡◌, ◌++◌, [], IfOk, IsTrue};
ghost use Rattle.mf_decimal.specs.Rounding.{IsInRange};
ghost use Rattle.mf_meaning.specs.Shown as shown;
ghost use Rattle.mf_value.specs.Meaning.{IsTextOrNumber};

use mf_decimal::{Decimal, Digits, Shown};
use mf_locale::LocaleRecord;
use mf_numfmt::{Grouping, Sign, text};
use mf_text::Text;
use mf_value::{Content, Kept, Value};
use std::alloc::{AllocError, Global};

/// What a text or a number shows: its prefix, its text, a number's being that of its shown number
/// in the locale's layout, and its suffix (Unicode TS 35, Part 9, "Formatting of the Resolved
/// Value").
pub fn shown_text(alloc: Global, record: &LocaleRecord, value: &Value) -> Result<Text, AllocError>
    requires { IsTextOrNumber value.now.content }
    ensures { IfOk result (λ text. text ≡ shown.shown_text «record».now value.now) }
{
    let content = shown_content(alloc, record, &value.content)?;
    let mut text = if is_empty(&value.prefix) {
        content
    } else {
        behind(&value.prefix, &content)?
    };
    text.push_str(value.suffix.as_str())?;
    Ok(text)
}

/// Whether a text has no character.
fn is_empty(text: &Text) -> bool
    ensures { IsTrue result → text.now ≡ [] }
{
    text.as_str().is_empty()
}

/// A text behind another one.
fn behind(prefix: &Text, text: &Text) -> Result<Text, AllocError>
    ensures { IfOk result (λ joined. joined ≡ prefix.now ++ text.now) }
{
    let mut joined = prefix.clone()?;
    joined.push_str(text.as_str())?;
    Ok(joined)
}

/// What stands between a value's prefix and its suffix.
fn shown_content(
    alloc: Global,
    record: &LocaleRecord,
    content: &Content,
) -> Result<Text, AllocError>
    ensures { IfOk result (λ text. text ≡ shown.shown_content «record».now content.now) }
{
    match content {
        Content::Text(text) => text.clone(),
        Content::Number { amount, kept } => shown_digits(alloc, record, amount, kept),
        Content::Fallback(source) => source.clone(),
    }
}

/// The text of a number in a locale's layout.
fn shown_digits(
    alloc: Global,
    record: &LocaleRecord,
    amount: &Decimal,
    kept: &Kept,
) -> Result<Text, AllocError>
    ensures { IfOk result (λ text. text ≡ shown.shown_digits «record».now amount.now kept.now) }
{
    let number = shown_number(amount, kept);
    let sign = kept.sign.unwrap_or(Sign::Auto);
    let grouping = kept.grouping.unwrap_or(Grouping::Auto);
    let min_whole = kept.min_whole.unwrap_or(1);
    text(alloc, &number, &record.layout, sign, grouping, min_whole)
}

/// The number as it is shown.
pub fn shown_number(amount: &Decimal, kept: &Kept) -> Shown
    ensures { result ≡ shown.shown_number amount.now kept.now }
{
    amount.round(digits_of(kept))
}

/// Whether a significant-digits option is set.
pub fn is_significant(kept: &Kept) -> bool
    ensures { result ≡ shown.is_significant kept.now }
{
    kept.min_significant.is_some() || kept.max_significant.is_some()
}

/// The digits that are asked for: a maximum below its minimum counts as the minimum.
fn digits_of(kept: &Kept) -> Digits
    ensures digits { result ≡ shown.digits_of kept.now }
    ensures in_range { IsInRange result }
{
    if is_significant(kept) {
        let min = kept.min_significant.unwrap_or(1);
        let max = kept.max_significant.unwrap_or(21).max(min);
        Digits::Significant { min, max }
    } else {
        let min = kept.min_fraction.unwrap_or(0);
        let max = kept.max_fraction.unwrap_or(3).max(min);
        Digits::Fraction { min, max }
    }
}
