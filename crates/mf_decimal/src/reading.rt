//! Decimals read from number literals.

ghost use Rattle.std.specs.Prelude.{◌≡◌, ◌<◌, ◌≤◌, ◌+◌, ◌*◌, ◌%◌, ◌^◌, ◌↔◌, length, IfSome, IfNone, IfOk};
ghost use Rattle.std.specs.Str.{chars};
ghost use Rattle.std.specs.Str.Parse.{AllDigits, digits_value};
ghost use Rattle.mf_decimal.specs.Amount.{shifted};
ghost use Rattle.mf_decimal.specs.Grammar.{IsNumber, IsValue, DecimalOf, IsWide, IsTooWide, literal_amount};
ghost use Rattle.mf_decimal.specs.Parts.{literal, HasDigits};
ghost use Rattle.mf_decimal.specs.Significand.{IsPlaced};

use crate::decimal::Decimal;
use crate::parts::{Parts, split};
use crate::powers::ten_to;
use crate::significand::Significand;
use thiserror::Error;

/// Why a text has no decimal.
#[derive(Clone, Copy, Debug, PartialEq, Eq, Error)]
pub enum NumberError {
    /// The text is no number literal.
    #[error("the text is no number literal")]
    NotANumber,
    /// It is one, and its plain form has more than 36 digits or a scale past 36.
    #[error("the number has more than 36 digits or a scale past 36")]
    TooWide,
}

/// The decimal whose number literal the text is (Unicode TS 35, Part 9, the production
/// number-literal). It takes no memory, and no step more than the text has digits.
pub fn read(text: &str) -> Result<Decimal, NumberError>
    ensures value { IfOk result (λ x. DecimalOf (chars text.now) x) }
    ensures not_a_number { (result ≡ Err NumberError.NotANumber) ↔ (¬ IsNumber (chars text.now)) }
    ensures too_wide { (result ≡ Err NumberError.TooWide) ↔ IsTooWide (chars text.now) }
{
    let Some(parts) = split(text.as_bytes()) else {
        return Err(NumberError::NotANumber);
    };
    value(&parts).ok_or(NumberError::TooWide)
}

// An exponent past the length of any text.
const FAR: u128 = 1_000_000_000_000_000_000_000_000_000_000;

// The value of a number literal, or none where it is too wide.
fn value(parts: &Parts<'_>) -> Option<Decimal>
    requires digits { HasDigits (literal parts.now) }
    requires room { length parts.now.whole.now + length parts.now.fraction.now < 2 ^ 64 }
    ensures value { IfSome result (λ x. IsValue (literal parts.now) x) }
    ensures wide { IfNone result (IsWide (literal_amount (literal parts.now))) }
{
    let number = Significand::NONE
        .with_digits(parts.whole)?
        .with_digits(parts.fraction)?;
    if number.digits == 0 {
        return Some(Decimal {
            negative: false,
            coefficient: 0,
            scale: 0,
        });
    }
    let power = exponent_value(parts.exponent)?;
    let (raised, lowered) = if parts.exponent_minus {
        (0, power)
    } else {
        (power, 0)
    };
    placed(
        parts.minus,
        number.digits,
        number.zeros as u128 + raised,
        parts.fraction.len() as u128 + lowered,
    )
}

// The value of an exponent's digits, or none where it is far.
fn exponent_value(digits: &[u8]) -> Option<u128>
    requires { AllDigits 10 digits.now }
    ensures value { IfSome result (λ n. n ≡ digits_value 10 digits.now) }
    ensures near { IfSome result (λ n. n < 10 * FAR + 10) }
    ensures far { IfNone result (FAR ≤ digits_value 10 digits.now) }
{
    let mut value: u128 = 0;
    for digit in digits {
        if value >= FAR {
            return None;
        }
        value = value * 10 + u128::from(*digit - b'0');
    }
    Some(value)
}

// The digits times ten to the `raised` over ten to the `lowered`, or none where that is too wide.
fn placed(negative: bool, digits: u128, raised: u128, lowered: u128) -> Option<Decimal>
    requires some { 0 < digits % 10 }
    requires short { digits < 10 ^ 36 }
    ensures value { IfSome result
        (λ x. IsPlaced x negative (shifted (digits * 10 ^ raised) lowered)) }
    ensures wide { IfNone result (IsWide (shifted (digits * 10 ^ raised) lowered)) }
{
    if lowered > raised {
        let scale = lowered - raised;
        if scale > 36 {
            return None;
        }
        return Some(Decimal {
            negative,
            coefficient: digits,
            scale: scale as u32,
        });
    }
    let shift = raised - lowered;
    if shift > 35 || digits >= ten_to(36 - shift as u32) {
        return None;
    }
    Some(Decimal {
        negative,
        coefficient: digits * ten_to(shift as u32),
        scale: 0,
    })
}
