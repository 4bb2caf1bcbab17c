//! One character, and escapes.
ghost use Rattle.std.specs.Prelude.{◌≡◌, ◌∷◌, Some, None, MatchBool};
ghost use Rattle.mf_lex.specs.Readers.{Finds};
ghost use Rattle.mf_lex.specs.Computed.{one_at, escape_at};

use crate::Cursor;
use mf_text::is_escapable;

/// Passes this character, if it is the next one.
pub fn pass_one(cursor: &mut Cursor, c: char) -> bool
    ensures passed { MatchBool result (cursor.old.left ≡ c ∷ cursor.new.left)
        (cursor.new ≡ cursor.old) }
    ensures computed { MatchBool result (one_at c cursor.old.left ≡ Some cursor.new.left)
        (one_at c cursor.old.left ≡ None) }
    ensures whole { cursor.new.whole ≡ cursor.old.whole }
{
    let mut ahead = cursor.save();
    match ahead.next() {
        Some(next) if next == c => {
            *cursor = ahead;
            true
        }
        _ => false,
    }
}

/// Passes a backslash and a character that it may stand before, which is given.
#[tactic(auto, unfolding(crate::specs::Computed::escape_at))]
pub fn pass_escape(cursor: &mut Cursor) -> Option<char>
    ensures computed { Finds escape_at result cursor.old.left cursor.new.left }
    ensures whole { cursor.new.whole ≡ cursor.old.whole }
{
    let mut ahead = cursor.save();
    if !pass_one(&mut ahead, '\\') {
        return None;
    }
    match ahead.next() {
        Some(c) if is_escapable(c) => {
            *cursor = ahead;
            Some(c)
        }
        _ => None,
    }
}
