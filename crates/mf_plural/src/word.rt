//! The tokens, by the bytes that spell them.

ghost use Rattle.std.specs.Prelude.{◌≡◌, IsTrue};
ghost use Rattle.std.specs.Char.{is_ascii_digit};
ghost use Rattle.std.specs.List.{list_all};
ghost use Rattle.std.specs.Str.Parse.{digits_value};
ghost use Rattle.mf_plural.specs.Computed as computed;
ghost use Rattle.mf_plural.specs.Grammar as grammar;

use crate::rule::{Category, Operand};
use crate::token::Token;

/// The most digits that a value has.
const MOST_DIGITS: usize = 18;

/// The category that a keyword names.
pub fn category_word(text: &[u8]) -> Option<Category>
    ensures { result ≡ computed.category_of text.now }
{
    match text {
        b"zero" => Some(Category::Zero),
        b"one" => Some(Category::One),
        b"two" => Some(Category::Two),
        b"few" => Some(Category::Few),
        b"many" => Some(Category::Many),
        b"other" => Some(Category::Other),
        _ => None,
    }
}

/// The operand that a letter names.
pub fn operand_letter(text: &[u8]) -> Option<Operand>
    ensures { result ≡ computed.operand_of text.now }
{
    match text {
        b"n" => Some(Operand::Number),
        b"i" => Some(Operand::Whole),
        b"v" => Some(Operand::FractionLen),
        b"w" => Some(Operand::TrimmedLen),
        b"f" => Some(Operand::Fraction),
        b"t" => Some(Operand::Trimmed),
        b"c" | b"e" => Some(Operand::Exponent),
        _ => None,
    }
}

/// The token that `and`, `or` or a mark is.
pub fn mark(text: &[u8]) -> Option<Token>
    ensures { result ≡ computed.mark_of text.now }
{
    match text {
        b"and" => Some(Token::And),
        b"or" => Some(Token::Or),
        b":" => Some(Token::Colon),
        b"%" => Some(Token::Percent),
        b"=" => Some(Token::Equals),
        b"!=" => Some(Token::Differs),
        b"," => Some(Token::Comma),
        b".." => Some(Token::Dots),
        _ => None,
    }
}

/// The number that 1 to 18 digits write.
pub fn value(text: &[u8]) -> Option<u64>
    ensures { result ≡ computed.value_of text.now }
{
    if is_value(text) {
        Some(digits_value(text))
    } else {
        None
    }
}

/// Whether a piece is 1 to 18 digits.
fn is_value(text: &[u8]) -> bool
    ensures { result ≡ grammar.is_value text.now }
{
    text.len() >= 1 && text.len() <= MOST_DIGITS && are_digits(text)
}

/// Whether a piece has digits alone.
fn are_digits(text: &[u8]) -> bool
    ensures { result ≡ list_all is_ascii_digit text.now }
{
    text.iter().all(|byte| byte.is_ascii_digit())
}

/// The number that so few digits write.
fn digits_value(digits: &[u8]) -> u64
    requires { IsTrue (grammar.is_value digits.now) }
    ensures { result ≡ digits_value 10 digits.now }
{
    let mut number: u64 = 0;
    for digit in digits {
        number = number * 10 + u64::from(*digit - b'0');
    }
    number
}
