//! Selectors: what they come to.

ghost use Rattle.std.specs.Prelude.{◌≡◌, IfOk};
ghost use Rattle.mf_select.specs.Stepping.{ResolvesSelector, ResolvesSelectors};
ghost use Rattle.mf_tree.specs.Faults as faults;
ghost use Rattle.mf_value.specs.Values as values;

use mf_resolve::Scope;
use mf_text::{List, Text};
use mf_tree::{Fault, Kind, Name};
use mf_value::{Functions, Selects, Value};
use std::alloc::{AllocError, Global};

/// The values of selectors, from left to right.
pub fn resolve_selectors<'a, F: Functions>(
    alloc: Global,
    scope: &mut Scope<'a>,
    functions: &F,
    selectors: &'a [Name],
) -> Result<List<Value>, AllocError>
    ensures { IfOk result
        (ResolvesSelectors (F.meaning functions.now) scope.old scope.new selectors.now) }
{
    let mut values = List::with_capacity(alloc, selectors.len())?;
    for name in selectors {
        let value = resolve_selector(alloc, scope, functions, name)?;
        values.push(value)?;
    }
    Ok(values)
}

/// The value of a selector, with an error where it can't select.
fn resolve_selector<'a, F: Functions>(
    alloc: Global,
    scope: &mut Scope<'a>,
    functions: &F,
    name: &'a Name,
) -> Result<Value, AllocError>
    ensures { IfOk result
        (ResolvesSelector (F.meaning functions.now) scope.old scope.new name.now) }
{
    let value = scope.resolve_variable(alloc, functions, name)?;
    if selects_nothing(value.selects) {
        scope.add(Fault {
            kind: Kind::BadSelector,
            of: variable_text(alloc, name)?,
        })?;
    }
    Ok(value)
}

/// Whether a value that selects so can't select.
pub fn selects_nothing(selects: Selects) -> bool
    ensures { result ≡ values.selects_nothing selects }
{
    matches!(selects, Selects::Nothing)
}

/// A variable as `$name`.
fn variable_text(alloc: Global, name: &Name) -> Result<Text, AllocError>
    ensures { IfOk result (λ text. text ≡ faults.variable_text name.now) }
{
    let mut text = Text::new(alloc);
    text.push('$')?;
    text.push_str(name.value.as_str())?;
    Ok(text)
}
