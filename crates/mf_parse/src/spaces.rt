//! Spaces, and the characters that they stand before.
ghost use Rattle.std.specs.Prelude.{◌≡◌, ◌==◌, true, false, Some, None, IsErrOf, MatchBool, OnOk};
ghost use Rattle.mf_text.specs.Characters.{is_name_start};
ghost use Rattle.mf_lex.specs.Computed.{after_space, is_next, one_at};
ghost use Rattle.mf_parse.specs.Computed.{behind_brace, behind_equals, inside, is_at, is_spaced};

use crate::error::ParseError;
use mf_lex::Cursor;
use mf_text::is_name_start;

/// Whether a character is the next one.
pub fn is_next(cursor: &Cursor, sign: char) -> bool
    ensures { result ≡ is_at sign cursor.now.left }
{
    match cursor.peek() {
        Some(c) => c == sign,
        None => false,
    }
}

/// Passes the space before a character, where there is white space in it.
pub fn pass_space_before(cursor: &mut Cursor, sign: char) -> bool
    ensures { MatchBool result
        ((is_spaced (λ c. c == sign) cursor.old.left ≡ true) × (cursor.new.left ≡ after_space cursor.old.left))
        ((is_spaced (λ c. c == sign) cursor.old.left ≡ false) × (cursor.new.left ≡ cursor.old.left)) }
{
    let mut ahead = cursor.save();
    if ahead.s() && is_next(&ahead, sign) {
        *cursor = ahead;
        return true;
    }
    false
}

/// Passes the space before a name, where there is white space in it.
pub fn pass_space_before_name(cursor: &mut Cursor) -> bool
    ensures { MatchBool result
        ((is_spaced is_name_start cursor.old.left ≡ true) × (cursor.new.left ≡ after_space cursor.old.left))
        ((is_spaced is_name_start cursor.old.left ≡ false) × (cursor.new.left ≡ cursor.old.left)) }
{
    let mut ahead = cursor.save();
    if ahead.s() && is_name_next(&ahead) {
        *cursor = ahead;
        return true;
    }
    false
}

/// Whether a character that a name may begin with is next.
fn is_name_next(cursor: &Cursor) -> bool
    ensures { result ≡ is_next is_name_start cursor.now.left }
{
    match cursor.peek() {
        Some(c) => is_name_start(c),
        None => false,
    }
}

/// Passes a character, which must be the next one.
pub fn expect(cursor: &mut Cursor, sign: char) -> Result<(), ParseError>
    ensures found { OnOk result (one_at sign cursor.old.left ≡ Some cursor.new.left) }
    ensures none { IsErrOf result ParseError.Syntax → one_at sign cursor.old.left ≡ None }
{
    if cursor.one(sign) {
        Ok(())
    } else {
        Err(ParseError::Syntax)
    }
}

/// `o "=" o`
#[tactic(auto, unfolding(crate::specs::Computed::behind_equals))]
pub fn equals(cursor: &mut Cursor) -> Result<(), ParseError>
    ensures found { OnOk result (behind_equals cursor.old.left ≡ Some cursor.new.left) }
    ensures none { IsErrOf result ParseError.Syntax → behind_equals cursor.old.left ≡ None }
{
    cursor.o();
    expect(cursor, '=')?;
    cursor.o();
    Ok(())
}

/// `o "}"`
#[tactic(auto, unfolding(crate::specs::Computed::behind_brace))]
pub fn closing_brace(cursor: &mut Cursor) -> Result<(), ParseError>
    ensures found { OnOk result (behind_brace cursor.old.left ≡ Some cursor.new.left) }
    ensures none { IsErrOf result ParseError.Syntax → behind_brace cursor.old.left ≡ None }
{
    cursor.o();
    expect(cursor, '}')
}

/// `"{" o`
#[tactic(auto, unfolding(crate::specs::Computed::inside))]
pub fn opening_brace(cursor: &mut Cursor) -> Result<(), ParseError>
    ensures found { OnOk result (inside cursor.old.left ≡ Some cursor.new.left) }
    ensures none { IsErrOf result ParseError.Syntax → inside cursor.old.left ≡ None }
{
    expect(cursor, '{')?;
    cursor.o();
    Ok(())
}
