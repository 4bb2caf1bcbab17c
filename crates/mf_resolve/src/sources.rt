//! What is shown for an expression that has no value, and what an error is about.

ghost use Rattle.std.specs.Prelude.{◌≡◌, IfOk};
ghost use Rattle.mf_tree.specs.Canonical.{quoted_source};
ghost use Rattle.mf_tree.specs.Faults as faults;
ghost use Rattle.mf_value.specs.Traces as traces;

use mf_print::push_quoted;
use mf_text::Text;
use mf_tree::{Expression, Identifier, Name, Operand};
use std::alloc::{AllocError, Global};

/// A variable as `$name`.
pub fn variable_text(alloc: Global, name: &Name) -> Result<Text, AllocError>
    ensures { IfOk result (λ text. text ≡ faults.variable_text name.now) }
{
    let mut text = Text::new(alloc);
    text.push('$')?;
    text.push_str(name.value.as_str())?;
    Ok(text)
}

/// An identifier as `namespace:name` or `name`.
pub fn identifier_text(alloc: Global, identifier: &Identifier) -> Result<Text, AllocError>
    ensures { IfOk result (λ text. text ≡ faults.identifier_text identifier.now) }
{
    match &identifier.namespace {
        None => identifier.name.value.clone(),
        Some(namespace) => {
            let mut text = namespace.value.clone()?;
            text.push(':')?;
            text.push_str(identifier.name.value.as_str())?;
            Ok(text)
        }
    }
}

/// A function as `:identifier`.
pub fn function_source(alloc: Global, name: &Identifier) -> Result<Text, AllocError>
    ensures { IfOk result (λ text. text ≡ traces.function_source name.now) }
{
    let identifier = identifier_text(alloc, name)?;
    let mut text = Text::new(alloc);
    text.push(':')?;
    text.push_str(identifier.as_str())?;
    Ok(text)
}

/// The fallback source of an expression: its operand, or its function where it has no operand
/// (Unicode TS 35, Part 9, "Fallback Resolution").
pub fn fallback_source(alloc: Global, expression: &Expression) -> Result<Text, AllocError>
    ensures { IfOk result (λ text. text ≡ traces.fallback_source expression.now) }
{
    match &expression.operand {
        Operand::Literal(text) => quoted(alloc, text),
        Operand::Variable(name) => variable_text(alloc, name),
        Operand::Absent => match &expression.function {
            Some(function) => function_source(alloc, &function.name),
            None => Ok(Text::new(alloc)),
        },
    }
}

/// A literal in quotes.
fn quoted(alloc: Global, value: &Text) -> Result<Text, AllocError>
    ensures { IfOk result (λ text. text ≡ quoted_source value.now) }
{
    let mut text = Text::new(alloc);
    push_quoted(&mut text, value)?;
    Ok(text)
}
