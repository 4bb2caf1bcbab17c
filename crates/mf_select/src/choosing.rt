//! The chosen variant.

ghost use Rattle.std.specs.Prelude.{◌≡◌, IfOk};
ghost use Rattle.mf_select.specs.Choosing.{CanChoose, Chooses};

use crate::keys::rank_keys;
use crate::selectors::resolve_selectors;
use mf_resolve::Scope;
use mf_tree::{Names, Variants};
use mf_value::Functions;
use std::alloc::{AllocError, Global};

/// The position, from 0, of the variant that is chosen, by the functions of the scope's other
/// calls: each of its keys matches the value of its selector, and of all such variants its ranks
/// are least, the first selector counting most. Of variants whose ranks are equal it is the first.
///
/// The scope then has the errors of the selectors from left to right, each followed by
/// `bad-selector` where it can't select, and behind them `bad-variant-key` for each key that is
/// none for its value, column by column.
pub fn choose<'a, F: Functions>(
    alloc: Global,
    scope: &mut Scope<'a>,
    functions: &F,
    selectors: &'a Names,
    variants: &Variants,
) -> Result<usize, AllocError>
    requires fit { CanChoose selectors.now variants.now }
    ensures { IfOk result
        (Chooses (F.meaning functions.now) scope.old scope.new selectors.now variants.now) }
{
    let values = resolve_selectors(alloc, scope, functions, selectors.as_slice())?;
    let ranks = rank_keys(
        alloc,
        scope,
        functions,
        values.as_slice(),
        variants.as_slice(),
    )?;
    Ok(ranks.least().unwrap_or(0))
}
