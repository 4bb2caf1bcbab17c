//! Matchers, one function a production.
ghost use Rattle.std.specs.Prelude.{◌≡◌, true, false, Some, None, IfOk, IsErrOf, MatchBool};
ghost use Rattle.mf_lex.specs.Computed.{after_space};
ghost use Rattle.mf_parse.specs.Computed.{begins_key, begins_variant, key_at, keys_at, matcher_at, selectors_at, variant_at, variants_at};

use crate::error::ParseError;
use crate::expression::{literal, variable};
use crate::pattern::quoted_pattern;
use crate::spaces::{is_next, pass_space_before};
use mf_lex::Cursor;
use mf_tree::{Body, Key, Keys, Names, Variant, Variants};
use std::alloc::Global;

/// `key`
#[tactic(auto, unfolding(crate::specs::Computed::key_at))]
fn key(alloc: Global, cursor: &mut Cursor) -> Result<Key, ParseError>
    ensures found { IfOk result (λ key. key_at cursor.old.left ≡ Some (key, cursor.new.left)) }
    ensures none { IsErrOf result ParseError.Syntax → key_at cursor.old.left ≡ None }
{
    if cursor.one('*') {
        return Ok(Key::Star);
    }
    Ok(Key::Literal(literal(alloc, cursor)?))
}

/// Passes the space before a further key, where there is white space in it and no brace behind it.
fn pass_space_before_key(cursor: &mut Cursor) -> bool
    ensures { MatchBool result
        ((begins_key cursor.old.left ≡ true) × (cursor.new.left ≡ after_space cursor.old.left))
        ((begins_key cursor.old.left ≡ false) × (cursor.new.left ≡ cursor.old.left)) }
{
    let mut ahead = cursor.save();
    if ahead.s() && !is_next(&ahead, '{') {
        *cursor = ahead;
        return true;
    }
    false
}

/// `key *(s key)`
#[tactic(auto, using(crate::proofs::Chains::keys_none_1, crate::proofs::Gathers::key_none))]
fn keys(alloc: Global, cursor: &mut Cursor) -> Result<Keys, ParseError>
    ensures found { IfOk result (λ keys. keys_at cursor.old.left ≡ Some (keys, cursor.new.left)) }
    ensures none { IsErrOf result ParseError.Syntax → keys_at cursor.old.left ≡ None }
{
    let first = key(alloc, cursor)?;
    let mut keys = Keys::new(alloc);
    keys.push(first)?;
    while pass_space_before_key(cursor) {
        let key = key(alloc, cursor)?;
        keys.push(key)?;
    }
    Ok(keys)
}

/// `variant`
#[tactic(auto, unfolding(crate::specs::Computed::variant_at))]
fn variant(alloc: Global, cursor: &mut Cursor) -> Result<Variant, ParseError>
    ensures found { IfOk result (λ variant. variant_at cursor.old.left ≡ Some
        (variant, cursor.new.left)) }
    ensures none { IsErrOf result ParseError.Syntax → variant_at cursor.old.left ≡ None }
{
    let keys = keys(alloc, cursor)?;
    cursor.o();
    let pattern = quoted_pattern(alloc, cursor)?;
    Ok(Variant { keys, pattern })
}

/// Passes the space before whatever follows it, if anything does.
fn pass_space_before_variant(cursor: &mut Cursor) -> bool
    ensures { MatchBool result
        ((begins_variant cursor.old.left ≡ true) × (cursor.new.left ≡ after_space cursor.old.left))
        ((begins_variant cursor.old.left ≡ false) × (cursor.new.left ≡ cursor.old.left)) }
{
    let mut ahead = cursor.save();
    ahead.o();
    if ahead.peek().is_none() {
        return false;
    }
    *cursor = ahead;
    true
}

/// `variant *(o variant)`
#[tactic(auto, using(crate::proofs::Chains::variants_none_1, crate::proofs::Gathers::variant_none))]
fn variants(alloc: Global, cursor: &mut Cursor) -> Result<Variants, ParseError>
    ensures found { IfOk result (λ variants. variants_at cursor.old.left ≡ Some
        (variants, cursor.new.left)) }
    ensures none { IsErrOf result ParseError.Syntax → variants_at cursor.old.left ≡ None }
{
    let first = variant(alloc, cursor)?;
    let mut variants = Variants::new(alloc);
    variants.push(first)?;
    while pass_space_before_variant(cursor) {
        let variant = variant(alloc, cursor)?;
        variants.push(variant)?;
    }
    Ok(variants)
}

/// `*(s variable)`
#[tactic(auto, using(crate::proofs::Gathers::selector_none, crate::proofs::Gathers::gathered_start))]
fn selectors(alloc: Global, cursor: &mut Cursor) -> Result<Names, ParseError>
    ensures found { IfOk result (λ selectors. selectors_at cursor.old.left ≡ Some
        (selectors, cursor.new.left)) }
    ensures none { IsErrOf result ParseError.Syntax → selectors_at cursor.old.left ≡ None }
{
    let mut selectors = Names::new(alloc);
    while pass_space_before(cursor, '$') {
        let name = variable(alloc, cursor)?;
        selectors.push(name)?;
    }
    Ok(selectors)
}

/// A matcher behind its word.
#[tactic(auto, unfolding(crate::specs::Computed::matcher_at))]
pub fn matcher(alloc: Global, cursor: &mut Cursor) -> Result<Body, ParseError>
    ensures found { IfOk result (λ body. matcher_at cursor.old.left ≡ Some
        (body, cursor.new.left)) }
    ensures none { IsErrOf result ParseError.Syntax → matcher_at cursor.old.left ≡ None }
{
    let selectors = selectors(alloc, cursor)?;
    if selectors.is_empty() || !cursor.s() {
        return Err(ParseError::Syntax);
    }
    let variants = variants(alloc, cursor)?;
    Ok(Body::Match {
        selectors,
        variants,
    })
}
