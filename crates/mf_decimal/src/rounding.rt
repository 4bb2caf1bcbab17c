//! Rounding to the digits that are shown, ties to even.

ghost use Rattle.std.specs.Prelude.{◌<◌, ◌≤◌, ◌+◌, ◌-◌, ◌*◌, ◌/◌, ◌%◌, ◌^◌, ◌↔◌, IsTrue};
ghost use Rattle.mf_decimal.specs.Amount.{IsSame, amount, shown_amount, shifted};
ghost use Rattle.mf_decimal.specs.Rounding.{IsInRange, IsNearest, RoundsTo, IsLeast, IsShortest, Rounds};
ghost use Rattle.mf_decimal.specs.Dropping.{IsDrop, IsDigitCount, IsTrimmed};

use crate::decimal::Decimal;
use crate::powers::ten_to;
use crate::shown::{Digits, Shown};
use std::cmp::Ordering;

impl Decimal {
    /// The number rounded to these digits, ties to even, and shown in them.
    pub fn round(&self, digits: Digits) -> Shown
        requires { IsInRange digits }
        ensures { Rounds self.now digits result }
    {
        let (coefficient, scale) = self.rounded(digits);
        let least = least_fraction(digits, coefficient, scale);
        shown(self.negative, coefficient, scale, least)
    }

    // The number without its sign, rounded to these digits: a coefficient over ten to a scale.
    fn rounded(&self, digits: Digits) -> (u128, u32)
        requires { IsInRange digits }
        ensures rounded { RoundsTo (amount self.now) digits (shifted result.0 result.1) }
        ensures short { result.0 ≤ 10 ^ 36 }
        ensures near { result.1 ≤ 36 }
    {
        let drop = self.drop_count(digits);
        let count = nearest(self.coefficient, drop);
        if drop <= self.scale {
            (count, self.scale - drop)
        } else {
            (count * ten_to(drop - self.scale), 0)
        }
    }

    // How many of the digits are dropped.
    fn drop_count(&self, digits: Digits) -> u32
        requires { IsInRange digits }
        ensures drop { IsDrop self.now digits result }
        ensures within { result ≤ 36 }
    {
        match digits {
            Digits::Fraction { max, .. } => self.scale.saturating_sub(max),
            Digits::Significant { max, .. } => digit_count(self.coefficient).saturating_sub(max),
        }
    }
}

// How many digits write the number.
fn digit_count(number: u128) -> u32
    ensures { IsDigitCount number result }
{
    if number == 0 { 1 } else { number.ilog10() + 1 }
}

// The number over ten to the `drop`, rounded to a whole number, ties to even.
fn nearest(number: u128, drop: u32) -> u128
    requires short { number < 10 ^ 36 }
    requires near { drop ≤ 36 }
    ensures nearest { IsNearest number (10 ^ drop) result }
    ensures at_most { result ≤ number / 10 ^ drop + 1 }
{
    let unit = ten_to(drop);
    let count = number / unit;
    let rest = number % unit;
    match rest.cmp(&(unit - rest)) {
        Ordering::Less => count,
        Ordering::Equal => count + count % 2,
        Ordering::Greater => count + 1,
    }
}

// How many fraction digits are shown at least of a rounded amount.
fn least_fraction(digits: Digits, coefficient: u128, scale: u32) -> u32
    requires in_range { IsInRange digits }
    requires near { scale ≤ 36 }
    ensures least { IsLeast digits (shifted coefficient scale) result }
    ensures near { result ≤ scale + 20 }
    ensures room { coefficient % 10 ^ scale * 10 ^ (result - scale) < 10 ^ 36 }
{
    match digits {
        Digits::Fraction { min, .. } => min,
        // The first digit of zero stands at place 0.
        Digits::Significant { min, .. } if coefficient == 0 => min - 1,
        Digits::Significant { min, .. } => (min + scale).saturating_sub(digit_count(coefficient)),
    }
}

// The amount with its trailing fraction zeros dropped, as far as so many fraction digits are left.
fn without_zeros(mut coefficient: u128, mut scale: u32, least: u32) -> (u128, u32)
    ensures { IsTrimmed coefficient scale least result.0 result.1 }
{
    while scale > least && coefficient % 10 == 0 {
        coefficient /= 10;
        scale -= 1;
    }
    (coefficient, scale)
}

// The amount with its sign, in the fewest fraction digits that write it, and in so many at least.
fn shown(negative: bool, coefficient: u128, scale: u32, least: u32) -> Shown
    requires near { scale ≤ 36 }
    requires padded { least ≤ scale + 20 }
    requires room { coefficient % 10 ^ scale * 10 ^ (least - scale) < 10 ^ 36 }
    ensures amount { IsSame (shown_amount result) (shifted coefficient scale) }
    ensures shortest { IsShortest result least }
    ensures sign { IsTrue result.negative ↔ (IsTrue negative × (0 < (shown_amount result).over)) }
{
    let (coefficient, scale) = without_zeros(coefficient, scale, least);
    let unit = ten_to(scale);
    let padding = least.saturating_sub(scale);
    Shown {
        negative: negative && coefficient != 0,
        whole: coefficient / unit,
        fraction: coefficient % unit * ten_to(padding),
        fraction_len: scale + padding,
    }
}
