//! The pieces of a number's text, each put at the end of the text that is made.

ghost use Rattle.std.specs.Prelude.{◌≡◌, ℕ, ◌<◌, ◌≤◌, ◌-◌, ◌++◌, ◌∷◌, [], OnOk, encode_utf8_all, string_bytes};
ghost use Rattle.mf_numfmt.specs.NumberText.{digit_character, separator, places_text, fraction_text};
ghost use Rattle.mf_numfmt.specs.Spans.{span_text, group_text};

use crate::layout::Layout;
use crate::places::Places;
use std::alloc::AllocError;

/// The digits at the places below `count`, each with what stands to its right.
pub fn push_whole(
    text: &mut String,
    whole: &Places,
    count: usize,
    layout: &Layout,
    grouped: bool,
) -> Result<(), AllocError>
    requires within { count ≤ 56 }
    ensures { OnOk result
        (string_bytes text.new ≡ string_bytes text.old
        ++ encode_utf8_all (places_text layout.now grouped whole.now.number count)) }
{
    let mut place = count;
    while place > 0 {
        let end = group_end(layout, grouped, place);
        push_group(text, whole, layout, place, end)?;
        place = end;
    }
    Ok(())
}

/// The lowest place of the group whose first digit stands just below `place`: the next place down
/// that has a separator to its right, or 0.
fn group_end(layout: &Layout, grouped: bool, place: usize) -> usize
    requires some { 0 < place }
    ensures below { result < place }
    ensures ends { 0 < result → separator layout.now grouped result ≡ layout.now.group }
    ensures within { (k : ℕ) → result < k → k < place → separator layout.now grouped k ≡ [] }
{
    let primary = layout.primary as usize;
    if !grouped || place <= primary {
        return 0;
    }
    let secondary = layout.secondary as usize;
    primary + (place - 1 - primary) / secondary * secondary
}

/// The digits at the places from `end` on that are below `place`, and the separator to the right of
/// the lowest of them, unless that is at the decimal point.
fn push_group(
    text: &mut String,
    whole: &Places,
    layout: &Layout,
    place: usize,
    end: usize,
) -> Result<(), AllocError>
    requires order { end ≤ place }
    requires within { place ≤ 56 }
    ensures { OnOk result
        (string_bytes text.new ≡ string_bytes text.old
        ++ encode_utf8_all (group_text layout.now whole.now.number place end)) }
{
    push_span(text, whole, place, end)?;
    if end > 0 {
        text.push_str(layout.group.as_str())?;
    }
    Ok(())
}

/// The digits at the places from `end` on that are below `place`, the highest place first.
fn push_span(text: &mut String, number: &Places, place: usize, end: usize) -> Result<(), AllocError>
    requires order { end ≤ place }
    requires within { place ≤ 56 }
    ensures { OnOk result
        (string_bytes text.new ≡ string_bytes text.old
        ++ encode_utf8_all (span_text number.now.number end (place - end))) }
{
    let mut at = place;
    while at > end {
        at -= 1;
        push_digit(text, number.digits[at])?;
    }
    Ok(())
}

/// The character of a digit.
fn push_digit(text: &mut String, digit: u8) -> Result<(), AllocError>
    requires { digit ≤ 9 }
    ensures { OnOk result
        (string_bytes text.new ≡ string_bytes text.old
        ++ encode_utf8_all (digit_character digit ∷ [])) }
{
    text.push(char::from(b'0' + digit))
}

/// The decimal symbol and the fraction, where it has digits.
pub fn push_fraction(
    text: &mut String,
    fraction: u128,
    fraction_len: usize,
    layout: &Layout,
) -> Result<(), AllocError>
    requires { fraction_len ≤ 56 }
    ensures { OnOk result
        (string_bytes text.new ≡ string_bytes text.old
        ++ encode_utf8_all (fraction_text layout.now fraction_len fraction)) }
{
    if fraction_len == 0 {
        return Ok(());
    }
    text.push_str(layout.decimal.as_str())?;
    push_span(text, &Places::of(fraction), fraction_len, 0)?;
    Ok(())
}
