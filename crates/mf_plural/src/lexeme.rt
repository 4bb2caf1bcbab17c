//! A rule cut into its tokens.

ghost use Rattle.std.specs.Prelude.{◌≡◌, ◌<◌, ◌≤◌, ◌∷◌, length, take, drop, IfOk};
ghost use Rattle.mf_plural.specs.Cuts.{BeginsWithToken};
ghost use Rattle.mf_plural.specs.Computed.{lexemes, tokens_of};
ghost use Rattle.mf_plural.specs.Computed as computed;
ghost use Rattle.mf_plural.specs.Grammar as grammar;

use crate::token::{Token, Tokens};
use std::alloc::{AllocError, Global};

/// The tokens of a text, or none where a piece of it is no token.
pub fn read_tokens(alloc: Global, text: &[u8]) -> Result<Option<Tokens>, AllocError>
    ensures { IfOk result (λ found. found ≡ tokens_of text.now) }
{
    let mut found = Tokens::new(alloc);
    let mut rest = after_white(text);
    while !rest.is_empty() {
        let (piece, after) = rest.split_at(lexeme_len(rest));
        let Some(token) = Token::of(piece) else {
            return Ok(None);
        };
        found.push(token)?;
        rest = after_white(after);
    }
    Ok(Some(found))
}

/// Whether white space may be this byte.
pub fn is_white(byte: u8) -> bool
    ensures { result ≡ grammar.is_white byte }
{
    byte == b' ' || byte == b'\t'
}

/// What follows the white space at the front.
fn after_white(text: &[u8]) -> &[u8]
    ensures same { lexemes result.now ≡ lexemes text.now }
    ensures begins { BeginsWithToken result.now }
    ensures shorter { length result.now ≤ length text.now }
{
    let mut rest = text;
    while let Some((first, after)) = rest.split_first() {
        if !is_white(*first) {
            return rest;
        }
        rest = after;
    }
    rest
}

/// The length of the token at the front.
fn lexeme_len(text: &[u8]) -> usize
    requires some { 0 < length text.now }
    requires begins { BeginsWithToken text.now }
    ensures some { 0 < result }
    ensures within { result ≤ length text.now }
    ensures cut { lexemes text.now ≡ take result text.now ∷ lexemes (drop result text.now) }
{
    let mut len = 1;
    while len < text.len() && are_joined(text[len - 1], text[len]) {
        len += 1;
    }
    len
}

/// Whether two bytes side by side belong to one token.
fn are_joined(first: u8, second: u8) -> bool
    ensures { result ≡ computed.are_joined first second }
{
    is_letter(first) && is_letter(second)
        || first.is_ascii_digit() && second.is_ascii_digit()
        || first == b'!' && second == b'='
        || first == b'.' && second == b'.'
}

/// Whether words may have this byte.
fn is_letter(byte: u8) -> bool
    ensures { result ≡ computed.is_letter byte }
{
    byte.is_ascii_lowercase()
}
