//! The decimal, its ranges and its whole values.

ghost use Rattle.std.specs.Prelude.{◌<◌, ◌≤◌, ◌%◌, ◌^◌, IsTrue};

/// A decimal number: `coefficient` over ten to the `scale`, below zero where it is `negative`.
///
/// The coefficient has at most 36 digits, the scale is at most 36, the fraction has no trailing
/// zeros, and zero has no sign. So equal numbers are equal values.
#[derive(Clone, Copy, PartialEq, Eq, Debug)]
pub struct Decimal {
    pub negative: bool,
    pub coefficient: u128,
    pub scale: u32,
    pub ghost short: { coefficient < 10 ^ 36 },
    pub ghost near: { scale ≤ 36 },
    pub ghost plain: { 0 < scale → 0 < coefficient % 10 },
    pub ghost unsigned_zero: { IsTrue negative → 0 < coefficient },
}
