//! One call done many times.
//!
//! Each call's input hangs on the sum of the results before it, so that none can be left out or
//! moved out of its loop.

use mf_decimal::{Decimal, Digits, Shown, of_u64, read};
use mf_plural::{Category, Rules, category};
use std::alloc::{AllocError, Global};

// What the upper half of a number counts in: two to the 64.
const HALF: u128 = 18_446_744_073_709_551_616;

/// The sum, modulo 2^64, over so many readings of the text.
pub fn read_sum(text: &str, count: u64) -> u64 {
    let mut sum = 0u64;
    for _ in 0..count {
        let text = if sum == u64::MAX { "0" } else { text };
        if let Ok(number) = read(text) {
            sum = sum.wrapping_add(of_decimal(&number));
        }
    }
    sum
}

/// The sum, modulo 2^64, over so many roundings of the number.
pub fn round_sum(number: Decimal, count: u64) -> u64 {
    let digits = Digits::Fraction { min: 0, max: 3 };
    let mut sum = 0u64;
    for _ in 0..count {
        let number = if sum == u64::MAX { of_u64(0) } else { number };
        sum = sum.wrapping_add(of_shown(&number.round(digits)));
    }
    sum
}

/// The sum, modulo 2^64, over so many exact texts of the number.
pub fn exact_sum(alloc: Global, number: Decimal, count: u64) -> Result<u64, AllocError> {
    let mut sum = 0u64;
    for _ in 0..count {
        let number = if sum == u64::MAX { of_u64(0) } else { number };
        sum = sum.wrapping_add(of_text(number.exact_text(alloc)?.as_bytes()));
    }
    Ok(sum)
}

/// The sum, modulo 2^64, over so many categories of the number, shown in at most three fraction
/// digits.
pub fn category_sum(rules: &Rules, number: Decimal, count: u64) -> u64 {
    let digits = Digits::Fraction { min: 0, max: 3 };
    let (zero, shown) = (of_u64(0).round(digits), number.round(digits));
    let mut sum = 0u64;
    for _ in 0..count {
        let shown = if sum == u64::MAX { zero } else { shown };
        sum = sum.wrapping_add(of_category(category(rules, &shown)));
    }
    sum
}

// What a category adds to the sum.
fn of_category(category: Category) -> u64 {
    match category {
        Category::Zero => 1,
        Category::One => 2,
        Category::Two => 3,
        Category::Few => 4,
        Category::Many => 5,
        Category::Other => 6,
    }
}

// What a decimal adds to the sum.
fn of_decimal(number: &Decimal) -> u64 {
    folded(number.coefficient)
        .wrapping_add(u64::from(number.scale))
        .wrapping_add(u64::from(number.negative))
}

// What a shown number adds to the sum.
fn of_shown(shown: &Shown) -> u64 {
    folded(shown.whole)
        .wrapping_add(folded(shown.fraction))
        .wrapping_add(u64::from(shown.fraction_len))
        .wrapping_add(u64::from(shown.negative))
}

/// What a text adds to the sum: its length and its last byte.
pub fn of_text(bytes: &[u8]) -> u64 {
    let last = bytes.last().copied().unwrap_or(0);
    (bytes.len() as u64).wrapping_add(u64::from(last))
}

// The two halves of a number, added.
fn folded(number: u128) -> u64 {
    let low = (number % HALF) as u64;
    let high = (number / HALF) as u64;
    low.wrapping_add(high)
}
