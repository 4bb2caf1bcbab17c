//! Characters that a reader wouldn't see.
use std::alloc::{AllocError, Global};

/// A text with the character of that number for each `\u{2068}`.
pub fn plain(alloc: Global, text: &str) -> Result<String, AllocError> {
    let mut pieces = text.split("\\u{");
    let mut plain = String::from_str(alloc, pieces.next().unwrap_or(""))?;
    for piece in pieces {
        let (digits, rest) = piece.split_once('}').unwrap_or((piece, ""));
        plain.push(character(digits))?;
        plain.push_str(rest)?;
    }
    Ok(plain)
}

/// The character of a number in hexadecimal digits.
fn character(digits: &str) -> char {
    match u32::from_str_radix(digits, 16) {
        Ok(code) => char::from_u32(code).unwrap_or('\u{fffd}'),
        Err(_) => '\u{fffd}',
    }
}
