//! The length of a number's text, known before it is written.

ghost use Rattle.std.specs.Prelude.{◌≡◌, ℕ, ◌+◌, ◌-◌, ◌*◌, ◌^◌, length, min, encode_utf8_all};
ghost use Rattle.mf_numfmt.specs.NumberText.{places_text, fraction_text};

use crate::layout::Layout;

/// The length of a number's text in bytes, or `usize::MAX` where it is greater.
pub fn text_len(
    layout: &Layout,
    sign: &str,
    grouped: bool,
    digits: usize,
    fraction_len: usize,
) -> usize
    ensures { (n fraction : ℕ) → result ≡ min
        (length sign.now + length (encode_utf8_all (places_text layout.now grouped n digits))
        + length (encode_utf8_all (fraction_text layout.now fraction_len fraction))) (2 ^ 64 - 1) }
{
    sign.len()
        .saturating_add(whole_text_len(layout, grouped, digits))
        .saturating_add(fraction_text_len(layout, fraction_len))
}

/// The length of the whole digits with their separators in bytes, or `usize::MAX` where it is
/// greater.
fn whole_text_len(layout: &Layout, grouped: bool, digits: usize) -> usize
    ensures { (n : ℕ) → result ≡ min
        (length (encode_utf8_all (places_text layout.now grouped n digits))) (2 ^ 64 - 1) }
{
    let group_len = layout.group.as_str().len();
    separator_count(layout, grouped, digits)
        .saturating_mul(group_len)
        .saturating_add(digits)
}

/// The length of the decimal symbol and the fraction in bytes, or `usize::MAX` where it is greater.
fn fraction_text_len(layout: &Layout, fraction_len: usize) -> usize
    ensures { (n : ℕ) → result ≡ min
        (length (encode_utf8_all (fraction_text layout.now fraction_len n))) (2 ^ 64 - 1) }
{
    if fraction_len == 0 {
        return 0;
    }
    layout.decimal.as_str().len().saturating_add(fraction_len)
}

/// How many separators stand between so many whole digits.
fn separator_count(layout: &Layout, grouped: bool, digits: usize) -> usize
    ensures { (n : ℕ) → length (encode_utf8_all (places_text layout.now grouped n digits))
        ≡ result * length (encode_utf8_all layout.now.group) + digits }
{
    if !grouped {
        return 0;
    }
    let before = digits.saturating_sub(layout.primary as usize);
    before.div_ceil(layout.secondary as usize)
}
