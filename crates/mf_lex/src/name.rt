//! Names, with the marks beside them, and identifiers.
ghost use Rattle.std.specs.Prelude.{◌≡◌, Some, None, chars, MatchOption, IfOk, OnErr};
ghost use Rattle.mf_lex.specs.Readers.{Finds};
ghost use Rattle.mf_lex.specs.Computed.{after_mark, bare_name_at, name_at, second_name_at, identifier_at};

use crate::class::Class;
use crate::escape::pass_one;
use crate::run::{pass, take_run};
use crate::{Cursor, Ident};
use mf_text::{Text, is_name_start};
use std::alloc::{AllocError, Global};

/// Passes a name, and gives it without the marks beside it.
pub fn read_name(alloc: Global, cursor: &mut Cursor) -> Result<Option<Text>, AllocError>
    ensures computed { IfOk result (λ found. Finds name_at found cursor.old.left cursor.new.left) }
    ensures unchanged { OnErr result (cursor.new ≡ cursor.old) }
    ensures whole { cursor.new.whole ≡ cursor.old.whole }
{
    let mut ahead = cursor.save();
    let Some(name) = pass_name(&mut ahead) else {
        return Ok(None);
    };
    let name = Text::of(alloc, name)?;
    *cursor = ahead;
    Ok(Some(name))
}

/// Passes an identifier.
#[tactic(auto, unfolding(crate::specs::Computed::identifier_at))]
pub fn read_identifier(alloc: Global, cursor: &mut Cursor) -> Result<Option<Ident>, AllocError>
    ensures computed { IfOk result (λ found.
        Finds identifier_at found cursor.old.left cursor.new.left) }
    ensures unchanged { OnErr result (cursor.new ≡ cursor.old) }
    ensures whole { cursor.new.whole ≡ cursor.old.whole }
{
    let mut ahead = cursor.save();
    let Some(first) = pass_name(&mut ahead) else {
        return Ok(None);
    };
    let first = Text::of(alloc, first)?;
    let ident = match pass_second_name(&mut ahead) {
        Some(second) => Ident {
            namespace: Some(first),
            name: Text::of(alloc, second)?,
        },
        None => Ident {
            namespace: None,
            name: first,
        },
    };
    *cursor = ahead;
    Ok(Some(ident))
}

/// Passes a name with the marks beside it, and gives it without them.
#[tactic(auto, unfolding(crate::specs::Computed::name_at))]
fn pass_name<'a>(cursor: &mut Cursor<'a>) -> Option<&'a str>
    ensures computed { MatchOption result (name_at cursor.old.left ≡ None)
        (λ name. name_at cursor.old.left ≡ Some (chars name.now, cursor.new.left)) }
    ensures whole { cursor.new.whole ≡ cursor.old.whole }
{
    pass_mark(cursor);
    let name = pass_bare_name(cursor)?;
    pass_mark(cursor);
    Some(name)
}

/// Passes a mark, if one is next.
fn pass_mark(cursor: &mut Cursor)
    ensures mark { cursor.new.left ≡ after_mark cursor.old.left }
    ensures whole { cursor.new.whole ≡ cursor.old.whole }
{
    let _passed = pass(cursor, Class::Mark);
}

/// Passes a name without marks.
fn pass_bare_name<'a>(cursor: &mut Cursor<'a>) -> Option<&'a str>
    ensures computed { MatchOption result (bare_name_at cursor.old.left ≡ None)
        (λ name. bare_name_at cursor.old.left ≡ Some (chars name.now, cursor.new.left)) }
    ensures whole { cursor.new.whole ≡ cursor.old.whole }
{
    match cursor.peek() {
        Some(c) if is_name_start(c) => Some(take_run(cursor, Class::NameChar)),
        _ => None,
    }
}

/// Passes a colon and a name, and nothing where not both are next.
fn pass_second_name<'a>(cursor: &mut Cursor<'a>) -> Option<&'a str>
    ensures computed { MatchOption result ((second_name_at cursor.old.left ≡ None) × (cursor.new ≡ cursor.old))
        (λ name. second_name_at cursor.old.left ≡ Some (chars name.now, cursor.new.left)) }
    ensures whole { cursor.new.whole ≡ cursor.old.whole }
{
    let mut ahead = cursor.save();
    if !pass_one(&mut ahead, ':') {
        return None;
    }
    let name = pass_name(&mut ahead)?;
    *cursor = ahead;
    Some(name)
}
