//! Literals, quoted and unquoted.
ghost use Rattle.std.specs.Prelude.{◌≡◌, ◌≤◌, false, length, OnOk, Some, None, chars, MatchOption, IfOk, OnErr};
ghost use Rattle.mf_lex.specs.Readers.{Finds};
ghost use Rattle.mf_lex.specs.Computed.{is_next, gathered, literal_at, quoted_from, unquoted_at};
ghost use Rattle.mf_text.specs.Characters.{is_quoted};

use crate::Cursor;
use crate::class::Class;
use crate::escape::{pass_escape, pass_one};
use crate::run::take_run;
use mf_text::{Text, is_name_char};
use std::alloc::{AllocError, Global};

/// Passes a literal, and gives its value.
pub fn read_literal(alloc: Global, cursor: &mut Cursor) -> Result<Option<Text>, AllocError>
    ensures computed { IfOk result (λ found.
        Finds literal_at found cursor.old.left cursor.new.left) }
    ensures unchanged { OnErr result (cursor.new ≡ cursor.old) }
    ensures whole { cursor.new.whole ≡ cursor.old.whole }
{
    let mut ahead = cursor.save();
    let Some(value) = read_value(alloc, &mut ahead)? else {
        return Ok(None);
    };
    *cursor = ahead;
    Ok(Some(value))
}

/// Passes a literal, or where there is none or no memory some part of one.
#[tactic(auto, unfolding(crate::specs::Computed::literal_at))]
fn read_value(alloc: Global, cursor: &mut Cursor) -> Result<Option<Text>, AllocError>
    ensures computed { IfOk result (λ found. MatchOption found (literal_at cursor.old.left ≡ None)
        (λ value. literal_at cursor.old.left ≡ Some (value, cursor.new.left))) }
    ensures whole { cursor.new.whole ≡ cursor.old.whole }
{
    if pass_one(cursor, '|') {
        return read_quoted(alloc, cursor);
    }
    let Some(value) = pass_unquoted(cursor) else {
        return Ok(None);
    };
    let value = Text::of(alloc, value)?;
    Ok(Some(value))
}

/// Passes an unquoted literal.
fn pass_unquoted<'a>(cursor: &mut Cursor<'a>) -> Option<&'a str>
    ensures computed { MatchOption result (unquoted_at cursor.old.left ≡ None)
        (λ value. unquoted_at cursor.old.left ≡ Some (chars value.now, cursor.new.left)) }
    ensures whole { cursor.new.whole ≡ cursor.old.whole }
{
    match cursor.peek() {
        Some(c) if is_name_char(c) => Some(take_run(cursor, Class::NameChar)),
        _ => None,
    }
}

/// Passes what is left of a quoted literal behind its first bar, and gives its value.
#[tactic(auto, unfolding(crate::specs::Computed::escape_at))]
fn read_quoted(alloc: Global, cursor: &mut Cursor) -> Result<Option<Text>, AllocError>
    ensures computed { IfOk result (λ found. MatchOption found (quoted_from false cursor.old.left ≡ None)
        (λ value. quoted_from false cursor.old.left ≡ Some (value, cursor.new.left))) }
    ensures whole { cursor.new.whole ≡ cursor.old.whole }
{
    let mut value = Text::new(alloc);
    push_plain(&mut value, cursor)?;
    while !pass_one(cursor, '|') {
        let Some(c) = pass_escape(cursor) else {
            return Ok(None);
        };
        value.push(c)?;
        push_plain(&mut value, cursor)?;
    }
    Ok(Some(value))
}

/// Passes the characters that stand for themselves, which are put at the end of the value.
fn push_plain(value: &mut Text, cursor: &mut Cursor) -> Result<(), AllocError>
    ensures gathered { OnOk result (gathered value.new cursor.new.left
        ≡ gathered value.old cursor.old.left) }
    ensures end { is_next is_quoted cursor.new.left ≡ false }
    ensures shorter { length cursor.new.left ≤ length cursor.old.left }
    ensures whole { cursor.new.whole ≡ cursor.old.whole }
{
    let plain = take_run(cursor, Class::Quoted);
    value.push_str(plain)
}
