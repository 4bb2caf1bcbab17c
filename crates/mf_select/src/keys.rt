//! Keys: how well they match.

ghost use Rattle.std.specs.Prelude.{◌≡◌, IfOk, OnOk};
ghost use Rattle.std.specs.Option.{option_copied};
ghost use Rattle.mf_select.specs.Stepping.{RanksColumn, RanksKey, RanksKeys, RanksLiteral};

use crate::ranks::{ANY, EXACT, KEYWORD, Rank, Ranks};
use crate::selectors::selects_nothing;
use mf_resolve::Scope;
use mf_text::{List, Text};
use mf_tree::{Fault, Key, Kind, Variant};
use mf_value::{Functions, Ranked, Value};
use std::alloc::{AllocError, Global};

/// The ranks of the keys of variants, for the values of their selectors.
pub fn rank_keys<'a, F: Functions>(
    alloc: Global,
    scope: &mut Scope<'a>,
    functions: &F,
    values: &[Value],
    variants: &[Variant],
) -> Result<Ranks, AllocError>
    ensures { IfOk result
        (RanksKeys (F.meaning functions.now) scope.old scope.new values.now variants.now) }
{
    let room = values.len().saturating_mul(variants.len());
    let mut ranks = List::with_capacity(alloc, room)?;
    for (column, value) in values.iter().enumerate() {
        rank_column(alloc, scope, functions, column, value, variants, &mut ranks)?;
    }
    Ok(Ranks {
        ranks,
        columns: values.len(),
        variants: variants.len(),
    })
}

/// Puts the ranks of the keys of one column behind others, by variants.
fn rank_column<'a, F: Functions>(
    alloc: Global,
    scope: &mut Scope<'a>,
    functions: &F,
    column: usize,
    value: &Value,
    variants: &[Variant],
    ranks: &mut List<Option<Rank>>,
) -> Result<(), AllocError>
    ensures { OnOk result
        (RanksColumn (F.meaning functions.now) scope.old scope.new
        column value.now variants.now ranks.old ranks.new) }
{
    for variant in variants {
        let rank = rank_key(alloc, scope, functions, value, variant.keys.get(column))?;
        ranks.push(rank)?;
    }
    Ok(())
}

/// The rank of a key, if there is one and it matches.
fn rank_key<'a, F: Functions>(
    alloc: Global,
    scope: &mut Scope<'a>,
    functions: &F,
    value: &Value,
    key: Option<&Key>,
) -> Result<Option<Rank>, AllocError>
    ensures { IfOk result
        (RanksKey (F.meaning functions.now) scope.old scope.new
        value.now (option_copied key.entry)) }
{
    match key {
        None => Ok(None),
        Some(Key::Star) => Ok(Some(ANY)),
        Some(Key::Literal(text)) => rank_literal(alloc, scope, functions, value, text),
    }
}

/// The rank of a literal key, with an error where it is none for the value. Where a selector can't
/// select none matches.
fn rank_literal<'a, F: Functions>(
    alloc: Global,
    scope: &mut Scope<'a>,
    functions: &F,
    value: &Value,
    key: &Text,
) -> Result<Option<Rank>, AllocError>
    ensures { IfOk result
        (RanksLiteral (F.meaning functions.now) scope.old scope.new value.now key.now) }
{
    if selects_nothing(value.selects) {
        return Ok(None);
    }
    match functions.rank(alloc, value, key)? {
        Ranked::Exact => Ok(Some(EXACT)),
        Ranked::Keyword => Ok(Some(KEYWORD)),
        Ranked::Never => Ok(None),
        Ranked::BadKey => {
            scope.add(Fault {
                kind: Kind::BadVariantKey,
                of: key.clone()?,
            })?;
            Ok(None)
        }
    }
}
