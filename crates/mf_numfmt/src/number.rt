//! The text of a number.

ghost use Rattle.std.specs.Prelude.{◌≡◌, ◌≤◌, IfOk, encode_utf8_all};
ghost use Rattle.mf_numfmt.specs.Signs.{sign_text};
ghost use Rattle.mf_numfmt.specs.Groups.{is_grouped};
ghost use Rattle.mf_numfmt.specs.NumberText.{number_text};

use crate::layout::Layout;
use crate::length::text_len;
use crate::options::{Grouping, Sign};
use crate::places::Places;
use crate::writing::{push_fraction, push_whole};
use mf_decimal::Shown;
use mf_text::Text;
use std::alloc::{AllocError, Global};

/// The text of a number in a layout: its sign, its whole digits in groups, and its fraction
/// (Unicode TS 35, Part 3, "Number Formats"). At least `min_whole` whole digits are written, from 1
/// to 21.
pub fn text(
    alloc: Global,
    shown: &Shown,
    layout: &Layout,
    sign: Sign,
    grouping: Grouping,
    min_whole: u32,
) -> Result<Text, AllocError>
    requires some { 1 ≤ min_whole }
    requires few { min_whole ≤ 21 }
    ensures { IfOk result
        (λ text. text ≡ number_text shown.now layout.now sign grouping min_whole) }
{
    let whole = Places::of(shown.whole);
    let digits = whole.count.max(min_whole as usize);
    let grouped = is_grouped(layout, grouping, digits);
    let sign = sign_symbol(layout, sign, shown);
    let fraction_len = shown.fraction_len as usize;
    let len = text_len(layout, sign, grouped, digits, fraction_len);
    let mut text = String::with_capacity(alloc, len)?;
    text.push_str(sign)?;
    push_whole(&mut text, &whole, digits, layout, grouped)?;
    push_fraction(&mut text, shown.fraction, fraction_len, layout)?;
    Ok(Text::from(text))
}

/// The symbol that stands before the number, or an empty text.
fn sign_symbol<'a>(layout: &'a Layout, sign: Sign, shown: &Shown) -> &'a str
    ensures { result.now ≡ encode_utf8_all (sign_text layout.now sign shown.now) }
{
    let zero = shown.whole == 0 && shown.fraction == 0;
    match sign {
        Sign::Never => "",
        _ if shown.negative => layout.minus.as_str(),
        Sign::Always => layout.plus.as_str(),
        Sign::ExceptZero if !zero => layout.plus.as_str(),
        Sign::Auto | Sign::ExceptZero | Sign::Negative => "",
    }
}

/// Whether so many whole digits are separated.
fn is_grouped(layout: &Layout, grouping: Grouping, digits: usize) -> bool
    ensures { result ≡ is_grouped layout.now grouping digits }
{
    let least = match grouping {
        Grouping::Auto => layout.min_group,
        Grouping::Always => 1,
        Grouping::Never => return false,
        Grouping::Min2 => 2,
    };
    digits >= (layout.primary + least) as usize
}
