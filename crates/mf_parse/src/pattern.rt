//! Patterns, one function a production.
ghost use Rattle.std.specs.Prelude.{◌≡◌, ◌<◌, ◌≤◌, ◌++◌, true, false, Some, None, length, IfOk, OnOk, IsErrOf, MatchBool};
ghost use Rattle.mf_text.specs.Characters.{is_text};
ghost use Rattle.mf_lex.specs.Computed.{is_next, run, behind_run};
ghost use Rattle.mf_tree.specs.declared.pattern.Piece.TheVariants as Pieces;
ghost use Rattle.mf_parse.specs.Computed.{goes_on, made, onto, pattern_at, quoted_pattern_at, text_ends, word_at};

use crate::error::ParseError;
use crate::markup::placeholder;
use crate::spaces::is_next;
use mf_lex::Cursor;
use mf_text::Text;
use mf_tree::{Pattern, Piece};
use std::alloc::{AllocError, Global};

/// Passes these characters, if they are the next ones.
pub fn pass_word(cursor: &mut Cursor, word: &[char]) -> bool
    ensures { MatchBool result (word_at word.now cursor.old.left ≡ Some cursor.new.left)
        ((word_at word.now cursor.old.left ≡ None) × (cursor.new.left ≡ cursor.old.left)) }
{
    let mut ahead = cursor.save();
    for c in word {
        if !ahead.one(*c) {
            return false;
        }
    }
    *cursor = ahead;
    true
}

/// Whether a pattern goes on: the next character is no closing brace.
fn goes_on(cursor: &Cursor) -> bool
    ensures { result ≡ goes_on cursor.now.left }
{
    match cursor.peek() {
        Some(c) => c != '}',
        None => false,
    }
}

/// Whether a text ends: a brace is next, or nothing.
fn ends_text(cursor: &Cursor) -> bool
    ensures { result ≡ text_ends cursor.now.left }
{
    match cursor.peek() {
        Some(c) => c == '{' || c == '}',
        None => true,
    }
}

/// Passes the characters that stand for themselves, which are put at the end of a text.
fn push_plain(text: &mut Text, cursor: &mut Cursor) -> Result<(), AllocError>
    ensures gained { OnOk result (text.new ≡ text.old ++ run is_text cursor.old.left) }
    ensures left { cursor.new.left ≡ behind_run is_text cursor.old.left }
    ensures end { is_next is_text cursor.new.left ≡ false }
    ensures no_longer { length cursor.new.left ≤ length cursor.old.left }
{
    let plain = cursor.text_run();
    text.push_str(plain)
}

/// The longest text, which isn't empty.
fn text(alloc: Global, cursor: &mut Cursor) -> Result<Text, ParseError>
    requires { text_ends cursor.now.left ≡ false }
    ensures found { IfOk result (λ text. pattern_at cursor.old.left ≡ made (onto (Pieces.Text text))
        (pattern_at cursor.new.left)) }
    ensures none { IsErrOf result ParseError.Syntax → pattern_at cursor.old.left ≡ None }
    ensures shorter { IfOk result (λ text. length cursor.new.left < length cursor.old.left) }
{
    let mut text = Text::new(alloc);
    push_plain(&mut text, cursor)?;
    while let Some(c) = cursor.escape() {
        text.push(c)?;
        push_plain(&mut text, cursor)?;
    }
    if !ends_text(cursor) {
        return Err(ParseError::Syntax);
    }
    Ok(text)
}

/// The next piece of a pattern that goes on.
#[tactic(auto, using(crate::proofs::Texts::placeholder_step, crate::proofs::Texts::placeholder_none, crate::proofs::Texts::placeholder_shorter))]
fn piece(alloc: Global, cursor: &mut Cursor) -> Result<Piece, ParseError>
    requires { goes_on cursor.now.left ≡ true }
    ensures found { IfOk result (λ piece. pattern_at cursor.old.left ≡ made (onto piece)
        (pattern_at cursor.new.left)) }
    ensures none { IsErrOf result ParseError.Syntax → pattern_at cursor.old.left ≡ None }
    ensures shorter { IfOk result (λ piece. length cursor.new.left < length cursor.old.left) }
{
    if is_next(cursor, '{') {
        let piece = placeholder(alloc, cursor)?;
        return Ok(piece);
    }
    let text = text(alloc, cursor)?;
    Ok(Piece::Text(text))
}

/// `pattern`
#[tactic(auto, using(crate::proofs::Texts::piece_none, crate::proofs::Gathers::gathered_start))]
pub fn pattern(alloc: Global, cursor: &mut Cursor) -> Result<Pattern, ParseError>
    ensures found { IfOk result (λ pattern. pattern_at cursor.old.left ≡ Some
        (pattern, cursor.new.left)) }
    ensures none { IsErrOf result ParseError.Syntax → pattern_at cursor.old.left ≡ None }
{
    let mut pieces = Pattern::new(alloc);
    while goes_on(cursor) {
        let piece = piece(alloc, cursor)?;
        pieces.push(piece)?;
    }
    Ok(pieces)
}

/// `quoted-pattern`
#[tactic(auto, unfolding(crate::specs::Computed::quoted_pattern_at))]
pub fn quoted_pattern(alloc: Global, cursor: &mut Cursor) -> Result<Pattern, ParseError>
    ensures found { IfOk result (λ pattern. quoted_pattern_at cursor.old.left ≡ Some
        (pattern, cursor.new.left)) }
    ensures none { IsErrOf result ParseError.Syntax → quoted_pattern_at cursor.old.left ≡ None }
{
    if !pass_word(cursor, &['{', '{']) {
        return Err(ParseError::Syntax);
    }
    let pattern = pattern(alloc, cursor)?;
    if !pass_word(cursor, &['}', '}']) {
        return Err(ParseError::Syntax);
    }
    Ok(pattern)
}
