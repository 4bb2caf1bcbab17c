//! The parts of a number literal, read once from front to back.

ghost use Rattle.std.specs.Prelude.{◌≡◌, ℕ, ◌<◌, ◌≤◌, ◌↔◌, ◌++◌, length, IsTrue, IfSome, IfNone};
ghost use Rattle.std.specs.Str.Parse.{AllDigits};
ghost use Rattle.mf_decimal.specs.Grammar.{Spells, SpellsWhole, SpellsExponent, IsNumber};
ghost use Rattle.mf_decimal.specs.Parts.{IsDigitAt, BeginsNoDigit, IsDigits, is_minus, after_minus, after_exponent_sign, IsBarePoint, LeavesFraction, IsExponent, literal};

/// The parts of a number literal, as pieces of its text.
#[derive(Clone, Copy)]
pub struct Parts<'a> {
    pub minus: bool,
    pub whole: &'a [u8],
    pub fraction: &'a [u8],
    pub exponent_minus: bool,
    pub exponent: &'a [u8],
}

/// The parts of the number literal that the text is, or none where it is no number literal.
pub fn split(text: &[u8]) -> Option<Parts<'_>>
    ensures spelled { IfSome result (λ parts. Spells text.now (literal parts)) }
    ensures refused { IfNone result (¬ IsNumber text.now) }
{
    let (minus, unsigned) = split_minus(text);
    let (whole, tail) = split_digits(unsigned);
    if !is_whole(whole) {
        return None;
    }
    let (fraction, rest) = split_fraction(tail)?;
    let (exponent_minus, exponent) = split_exponent(rest)?;
    Some(Parts {
        minus,
        whole,
        fraction,
        exponent_minus,
        exponent,
    })
}

// Whether a minus stands first, and what follows it.
fn split_minus(bytes: &[u8]) -> (bool, &[u8])
    ensures minus { result.0 ≡ is_minus bytes.now }
    ensures rest { result.1.now ≡ after_minus bytes.now }
{
    match bytes {
        [b'-', unsigned @ ..] => (true, unsigned),
        _ => (false, bytes),
    }
}

// How many digits stand at the front.
fn digits_len(bytes: &[u8]) -> usize
    ensures within { result ≤ length bytes.now }
    ensures digits { (k : ℕ) → k < result → IsDigitAt bytes.now k }
    ensures longest { result < length bytes.now → ¬ IsDigitAt bytes.now result }
{
    bytes
        .iter()
        .position(|byte| !byte.is_ascii_digit())
        .unwrap_or(bytes.len())
}

// The digits at the front, as many as there are, and what follows them.
fn split_digits(bytes: &[u8]) -> (&[u8], &[u8])
    ensures parts { bytes.now ≡ result.0.now ++ result.1.now }
    ensures digits { AllDigits 10 result.0.now }
    ensures longest { BeginsNoDigit result.1.now }
{
    let len = digits_len(bytes);
    bytes.split_at(len)
}

// Whether the digits are one zero, or begin with another digit.
fn is_whole(digits: &[u8]) -> bool
    requires { AllDigits 10 digits.now }
    ensures { IsTrue result ↔ SpellsWhole digits.now }
{
    match digits {
        [] => false,
        [first, rest @ ..] => *first != b'0' || rest.is_empty(),
    }
}

// The fraction's digits and what follows them: none of it where a point has no digit after it.
fn split_fraction(bytes: &[u8]) -> Option<(&[u8], &[u8])>
    ensures split { IfSome result (λ f. LeavesFraction bytes.now f.0.now f.1.now) }
    ensures refused { IfNone result (IsBarePoint bytes.now) }
{
    let Some((b'.', digits)) = bytes.split_first() else {
        return Some((&bytes[..0], bytes));
    };
    let (fraction, rest) = split_digits(digits);
    if fraction.is_empty() {
        None
    } else {
        Some((fraction, rest))
    }
}

// Whether there are digits, and nothing else.
fn is_digits(bytes: &[u8]) -> bool
    ensures { IsTrue result ↔ IsDigits bytes.now }
{
    let (digits, rest) = split_digits(bytes);
    !digits.is_empty() && rest.is_empty()
}

// Whether the sign of an exponent is a minus, and what follows the sign.
fn split_exponent_sign(bytes: &[u8]) -> (bool, &[u8])
    ensures minus { result.0 ≡ is_minus bytes.now }
    ensures rest { result.1.now ≡ after_exponent_sign bytes.now }
{
    match bytes {
        [b'-', rest @ ..] => (true, rest),
        [b'+', rest @ ..] => (false, rest),
        _ => (false, bytes),
    }
}

// The sign and digits of an exponent that is all that is left of the text.
fn split_exponent(bytes: &[u8]) -> Option<(bool, &[u8])>
    ensures spelled { IfSome result (λ e. SpellsExponent bytes.now e.1.now e.0) }
    ensures refused { IfNone result (¬ IsExponent bytes.now) }
{
    let Some((mark, signed)) = bytes.split_first() else {
        return Some((false, bytes));
    };
    if *mark != b'e' && *mark != b'E' {
        return None;
    }
    let (minus, digits) = split_exponent_sign(signed);
    if is_digits(digits) {
        Some((minus, digits))
    } else {
        None
    }
}
