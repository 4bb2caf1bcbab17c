//! Runs of the characters of a class.
ghost use Rattle.std.specs.Prelude.{◌≡◌, ◌<◌, ◌++◌, true, false, chars, length, MatchBool};
ghost use Rattle.mf_lex.specs.Classes.{holds};
ghost use Rattle.mf_lex.specs.Cursor.{EndsWith};
ghost use Rattle.mf_lex.specs.Computed.{is_next, behind_one, run, behind_run};

use crate::Cursor;
use crate::class::Class;

/// Passes the next character, if it is of a class.
pub fn pass(cursor: &mut Cursor, class: Class) -> bool
    ensures one { cursor.new.left ≡ behind_one (holds class) cursor.old.left }
    ensures passed { MatchBool result
        ((behind_run (holds class) cursor.new.left ≡ behind_run (holds class) cursor.old.left) × (length cursor.new.left < length cursor.old.left)
        × (is_next (holds class) cursor.old.left ≡ true))
        ((cursor.new ≡ cursor.old) × (is_next (holds class) cursor.old.left ≡ false)) }
    ensures whole { cursor.new.whole ≡ cursor.old.whole }
{
    let mut ahead = cursor.save();
    match ahead.next() {
        Some(c) if class.has(c) => {
            *cursor = ahead;
            true
        }
        _ => false,
    }
}

/// Passes all next characters that are of a class.
pub fn pass_run(cursor: &mut Cursor, class: Class)
    ensures run { cursor.new.left ≡ behind_run (holds class) cursor.old.left }
    ensures whole { cursor.new.whole ≡ cursor.old.whole }
{
    while pass(cursor, class) {}
}

/// Passes all next characters that are of a class, and gives them.
pub fn take_run<'a>(cursor: &mut Cursor<'a>, class: Class) -> &'a str
    ensures taken { chars result.now ≡ run (holds class) cursor.old.left }
    ensures run { cursor.new.left ≡ behind_run (holds class) cursor.old.left }
    ensures whole { cursor.new.whole ≡ cursor.old.whole }
{
    let start = cursor.rest();
    pass_run(cursor, class);
    front(start, cursor.rest())
}

/// What stands in a text before the other text, with which it ends.
fn front<'a>(text: &'a str, end: &str) -> &'a str
    requires { EndsWith (chars text.now) (chars end.now) }
    ensures { chars text.now ≡ chars result.now ++ chars end.now }
{
    let length = text.len() - end.len();
    &text[..length]
}
