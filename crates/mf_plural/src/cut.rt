//! Tokens and bytes cut at what stands between the parts.

ghost use Rattle.std.specs.Prelude.{◌≡◌, ◌<◌, ◌∷◌, ◌==◌, length, false, IfSome};
ghost use Rattle.std.specs.List.{list_all, position};
ghost use Rattle.std.specs.Option.{option_copied};
ghost use Rattle.mf_plural.specs.Cuts.{between_rest};
ghost use Rattle.mf_plural.specs.Grammar.{before_samples, between, rule_texts, separates, is_white};

use crate::lexeme::is_white;
use crate::token::{Separator, Token};

/// The tokens before the first such separator, and those after it, where there is one.
pub fn cut(separator: Separator, tokens: &[Token]) -> (&[Token], Option<&[Token]>)
    ensures cut { between separator tokens.now
        ≡ result.0.now ∷ between_rest separator (option_copied result.1) }
    ensures shorter { IfSome result.1 (λ rest. length rest.now < length tokens.now) }
{
    match separator_place(separator, tokens) {
        Some(at) => (&tokens[..at], Some(&tokens[at + 1..])),
        None => (tokens, None),
    }
}

// The place of the first such separator.
fn separator_place(separator: Separator, tokens: &[Token]) -> Option<usize>
    ensures { result ≡ position (separates separator) tokens.now }
{
    tokens.iter().position(|token| token.separates(separator))
}

// The place of the first such byte.
fn place(wanted: u8, text: &[u8]) -> Option<usize>
    ensures { result ≡ position (λ byte. byte == wanted) text.now }
{
    text.iter().position(|byte| *byte == wanted)
}

/// Whether a text is white space alone.
pub fn is_blank(text: &[u8]) -> bool
    ensures { result ≡ list_all is_white text.now }
{
    text.iter().all(|byte| is_white(*byte))
}

/// The text of the first rule, and what follows it.
pub fn first_rule(text: &[u8]) -> (&[u8], &[u8])
    requires { list_all is_white text.now ≡ false }
    ensures texts { rule_texts text.now ≡ result.0.now ∷ rule_texts result.1.now }
    ensures shorter { length result.1.now < length text.now }
{
    match place(b';', text) {
        Some(end) => (&text[..end], &text[end + 1..]),
        None => (text, &[]),
    }
}

/// A rule's text without its samples.
pub fn before_samples(text: &[u8]) -> &[u8]
    ensures { result.now ≡ before_samples text.now }
{
    match place(b'@', text) {
        Some(start) => &text[..start],
        None => text,
    }
}
