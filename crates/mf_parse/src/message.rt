//! Messages: `parse`, and one function for each form of a message.
ghost use Rattle.std.specs.Prelude.{◌≡◌, ◌≢◌, [], Some, None, chars, IfOk, IsErrOf, MatchBool};
ghost use Rattle.mf_tree.specs.Grammar.{SpellsMessage};
ghost use Rattle.mf_parse.specs.Parsing.{IsSource};
ghost use Rattle.mf_parse.specs.Computed.{begins_simply, body_at, complex_at, message_of, simple_at};

use crate::declaration::declarations;
use crate::error::ParseError;
use crate::matcher::matcher;
use crate::pattern::{pass_word, pattern, quoted_pattern};
use crate::spaces::is_next;
use mf_lex::Cursor;
use mf_text::is_ws;
use mf_tree::{Body, Declarations, Message};
use std::alloc::Global;

/// The message that a text spells. Source: Unicode TS 35, Part 9, "Message syntax".
///
/// # Errors
///
/// `Syntax` where the text spells no message, and `OutOfMemory`.
#[tactic(auto, using(crate::proofs::Whole::message_complex, crate::proofs::Whole::message_simple, crate::proofs::Whole::no_source, crate::proofs::SoundMessages::message_sound))]
pub fn parse(alloc: Global, text: &str) -> Result<Message, ParseError>
    ensures spelled { IfOk result (λ message. SpellsMessage message (chars text.now)) }
    ensures no_message { IsErrOf result ParseError.Syntax → IsSource (chars text.now) → ⊥ }
    ensures computed { IfOk result (λ message. message_of (chars text.now) ≡ Some message) }
    ensures none { IsErrOf result ParseError.Syntax → message_of (chars text.now) ≡ None }
{
    let mut cursor = Cursor::new(text);
    let Some(message) = complex_message(alloc, &mut cursor)? else {
        let mut cursor = Cursor::new(text);
        let message = simple_message(alloc, &mut cursor)?;
        return Ok(message);
    };
    Ok(message)
}

/// `complex-body`
#[tactic(auto, unfolding(crate::specs::Computed::body_at))]
fn complex_body(alloc: Global, cursor: &mut Cursor) -> Result<Body, ParseError>
    ensures found { IfOk result (λ body. body_at cursor.old.left ≡ Some (body, cursor.new.left)) }
    ensures none { IsErrOf result ParseError.Syntax → body_at cursor.old.left ≡ None }
{
    if is_next(cursor, '{') {
        return Ok(Body::Pattern(quoted_pattern(alloc, cursor)?));
    }
    if !pass_word(cursor, &['.', 'm', 'a', 't', 'c', 'h']) {
        return Err(ParseError::Syntax);
    }
    matcher(alloc, cursor)
}

/// Whether nothing is left.
#[tactic(auto, using(crate::proofs::Whole::nothing_left, crate::proofs::Whole::something_left))]
fn is_end(cursor: &Cursor) -> bool
    ensures { MatchBool result (cursor.now.left ≡ []) (cursor.now.left ≢ []) }
{
    cursor.peek().is_none()
}

/// `complex-message`, which is all that is left.
#[tactic(auto, unfolding(crate::specs::Computed::complex_at))]
fn whole_complex_message(alloc: Global, cursor: &mut Cursor) -> Result<Message, ParseError>
    ensures found { IfOk result (λ message. complex_at cursor.old.left ≡ Some message) }
    ensures none { IsErrOf result ParseError.Syntax → complex_at cursor.old.left ≡ None }
{
    cursor.o();
    let declarations = declarations(alloc, cursor)?;
    let body = complex_body(alloc, cursor)?;
    cursor.o();
    if !is_end(cursor) {
        return Err(ParseError::Syntax);
    }
    Ok(Message { declarations, body })
}

/// The complex message that is all that is left, if it is one.
fn complex_message(alloc: Global, cursor: &mut Cursor) -> Result<Option<Message>, ParseError>
    ensures found { IfOk result (λ message. complex_at cursor.old.left ≡ message) }
    ensures no_syntax { IsErrOf result ParseError.Syntax → ⊥ }
{
    match whole_complex_message(alloc, cursor) {
        Ok(message) => Ok(Some(message)),
        Err(ParseError::Syntax) => Ok(None),
        Err(ParseError::OutOfMemory) => Err(ParseError::OutOfMemory),
    }
}

/// Whether a simple message may begin so, as any may but white space alone before a full stop.
#[tactic(auto, using(crate::proofs::Whole::white_passed, crate::proofs::Whole::first_character))]
fn begins_simply(cursor: &Cursor) -> bool
    ensures { result ≡ begins_simply cursor.now.left }
{
    let mut ahead = cursor.save();
    while let Some(c) = ahead.next() {
        if !is_ws(c) {
            return c != '.';
        }
    }
    true
}

/// `simple-message`, which is all that is left.
#[tactic(auto, unfolding(crate::specs::Computed::simple_at))]
fn simple_message(alloc: Global, cursor: &mut Cursor) -> Result<Message, ParseError>
    ensures found { IfOk result (λ message. simple_at cursor.old.left ≡ Some message) }
    ensures none { IsErrOf result ParseError.Syntax → simple_at cursor.old.left ≡ None }
{
    if !begins_simply(cursor) {
        return Err(ParseError::Syntax);
    }
    let pattern = pattern(alloc, cursor)?;
    if !is_end(cursor) {
        return Err(ParseError::Syntax);
    }
    Ok(Message {
        declarations: Declarations::new(alloc),
        body: Body::Pattern(pattern),
    })
}
