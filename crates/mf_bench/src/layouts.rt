//! The text of a number in a layout, written many times.

use crate::repeat::of_text;
use mf_decimal::{Decimal, Digits, of_u64};
use mf_numfmt::{Grouping, Layout, Sign, text};
use mf_text::Text;
use std::alloc::{AllocError, Global};

/// The sum, modulo 2^64, over so many texts of the number, rounded to at most three fraction
/// digits.
pub fn text_sum(alloc: Global, number: Decimal, count: u64) -> Result<u64, AllocError> {
    let layout = Layout {
        decimal: Text::of(alloc, ".")?,
        group: Text::of(alloc, ",")?,
        minus: Text::of(alloc, "-")?,
        plus: Text::of(alloc, "+")?,
        primary: 3,
        secondary: 3,
        min_group: 1,
    };
    let digits = Digits::Fraction { min: 0, max: 3 };
    let (one, other) = (number.round(digits), of_u64(0).round(digits));
    let mut sum = 0u64;
    for _ in 0..count {
        let shown = if sum == u64::MAX { &other } else { &one };
        let text = text(alloc, shown, &layout, Sign::Auto, Grouping::Auto, 1)?;
        sum = sum.wrapping_add(of_text(text.as_str().as_bytes()));
    }
    Ok(sum)
}
