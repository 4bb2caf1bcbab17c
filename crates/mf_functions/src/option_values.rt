//! What the options of a function over numbers may say.

ghost use Rattle.std.specs.Prelude.{◌≡◌};
ghost use Rattle.mf_meaning.specs.OptionValues as values;

use mf_numfmt::{Grouping, Sign};
use mf_value::Selects;

/// The way to select that `select` names.
pub fn way_named(text: &str) -> Option<Selects>
    ensures { result ≡ values.way_named text.now }
{
    match text {
        "plural" => Some(Selects::Plural),
        "ordinal" => Some(Selects::Ordinal),
        "exact" => Some(Selects::Exact),
        _ => None,
    }
}

/// The sign that `signDisplay` names.
pub fn sign_named(text: &str) -> Option<Sign>
    ensures { result ≡ values.sign_named text.now }
{
    match text {
        "auto" => Some(Sign::Auto),
        "always" => Some(Sign::Always),
        "exceptZero" => Some(Sign::ExceptZero),
        "negative" => Some(Sign::Negative),
        "never" => Some(Sign::Never),
        _ => None,
    }
}

/// The grouping that `useGrouping` names.
pub fn grouping_named(text: &str) -> Option<Grouping>
    ensures { result ≡ values.grouping_named text.now }
{
    match text {
        "auto" => Some(Grouping::Auto),
        "always" => Some(Grouping::Always),
        "never" => Some(Grouping::Never),
        "min2" => Some(Grouping::Min2),
        _ => None,
    }
}

/// The count of digits that a text writes, where it is from `least` to `most`.
pub fn count_named(least: u32, most: u32, text: &str) -> Option<u32>
    ensures { result ≡ values.count_named least most text.now }
{
    match digits_number(text.as_bytes()) {
        Some(count) if least <= count && count <= most => Some(count),
        _ => None,
    }
}

/// The number that one digit writes, or two of which the first is no zero.
fn digits_number(digits: &[u8]) -> Option<u32>
    ensures { result ≡ values.digits_number digits.now }
{
    match *digits {
        [one] if one.is_ascii_digit() => Some(u32::from(one - b'0')),
        [ten, one] if is_first_digit(ten) && one.is_ascii_digit() => {
            Some(u32::from(ten - b'0') * 10 + u32::from(one - b'0'))
        }
        _ => None,
    }
}

/// Whether a byte is a digit from 1 to 9.
fn is_first_digit(byte: u8) -> bool
    ensures { result ≡ values.is_first_digit byte }
{
    byte >= b'1' && byte <= b'9'
}
