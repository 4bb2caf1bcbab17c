//! Numbers rounded to their digits.
ghost use Rattle.std.specs.Prelude.{IsTrue};
ghost use Rattle.mf_decimal.specs.Rounding.{IsInRange};

use mf_decimal::{Decimal, Digits, Shown, read};
use std::alloc::{AllocError, Global};

/// All digits that are shown of a number.
pub fn answer(alloc: Global, asked: &str) -> Result<String, AllocError> {
    let (number, word) = asked.split_once(' ').unwrap_or((asked, ""));
    let Ok(number) = read(number) else {
        return String::from_str(alloc, "no number");
    };
    let Some(shown) = digits_of(word).and_then(|digits| rounded(&number, digits)) else {
        return String::from_str(alloc, "no such digits");
    };
    told(alloc, &shown)
}

/// The number rounded to these digits, if they are in range.
pub fn rounded(number: &Decimal, digits: Digits) -> Option<Shown> {
    if is_in_range(digits) {
        Some(number.round(digits))
    } else {
        None
    }
}

fn is_in_range(digits: Digits) -> bool
    ensures { IsTrue result → IsInRange digits }
{
    match digits {
        Digits::Fraction { min, max } => min <= max && max <= 20,
        Digits::Significant { min, max } => 1 <= min && min <= max && max <= 21,
    }
}

/// The digits that a word asks for: `fraction=0..3` or `significant=1..4`.
pub fn digits_of(word: &str) -> Option<Digits> {
    let (name, range) = word.split_once('=')?;
    let (min, max) = range.split_once("..")?;
    let min = min.parse::<u32>().ok()?;
    let max = max.parse::<u32>().ok()?;
    match name {
        "fraction" => Some(Digits::Fraction { min, max }),
        "significant" => Some(Digits::Significant { min, max }),
        _ => None,
    }
}

/// The digits in which a number is written.
pub fn written_digits(number: &str) -> Digits {
    let fraction = number.split_once('.').map_or("", |parts| parts.1);
    let len = fraction.len().min(20) as u32;
    Digits::Fraction { min: len, max: len }
}

fn told(alloc: Global, shown: &Shown) -> Result<String, AllocError> {
    let sign = if shown.negative { "-" } else { "" };
    let Shown {
        whole,
        fraction,
        ..
    } = shown;
    let width = shown.fraction_len as usize;
    if width == 0 {
        return format!(in alloc; "{sign}{whole}");
    }
    format!(in alloc; "{sign}{whole}.{fraction:0width$}")
}
