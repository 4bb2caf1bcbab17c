//! The shown number and the digits that are asked for.

ghost use Rattle.std.specs.Prelude.{◌<◌, ◌≤◌, ◌^◌, ◌+◌, IsTrue};

/// A number as it is shown: whole digits and `fraction_len` fraction digits, trailing zeros among
/// them.
///
/// The fraction is written in `fraction_len` digits, of which there are at most 56, and a shown
/// zero has no sign.
#[derive(Clone, Copy, PartialEq, Eq, Debug)]
pub struct Shown {
    pub negative: bool,
    pub whole: u128,
    pub fraction: u128,
    pub fraction_len: u32,
    pub ghost within: { fraction < 10 ^ fraction_len },
    pub ghost near: { fraction_len ≤ 56 },
    pub ghost unsigned_zero: { IsTrue negative → 0 < whole + fraction },
}

/// How many digits are shown.
///
/// - `Fraction`: from `min` to `max` fraction digits, each from 0 to 20.
/// - `Significant`: at most `max` significant digits, and so many of the trailing fraction zeros
///   that there are `min`;
///   each from 1 to 21.
#[derive(Clone, Copy, PartialEq, Eq, Debug)]
pub enum Digits {
    Fraction { min: u32, max: u32 },
    Significant { min: u32, max: u32 },
}
