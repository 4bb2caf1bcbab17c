//! What an error is about.
ghost use Rattle.std.specs.Prelude.{◌≡◌, ◌+◌, ◌<◌, ◌^◌, IfOk};
ghost use Rattle.std.specs.Fmt.{decimal};
ghost use Rattle.mf_tree.specs.Faults.{identifier_text, variable_text};

use mf_text::Text;
use mf_tree::{Identifier, Name};
use std::alloc::{AllocError, Global};

/// A variable as `$name`.
pub fn show_variable(alloc: Global, name: &Name) -> Result<Text, AllocError>
    ensures { IfOk result (λ text. text ≡ variable_text name.now) }
{
    let mut text = String::from_str(alloc, "$")?;
    text.push_str(name.value.as_str())?;
    Ok(Text::from(text))
}

/// An identifier as `namespace:name` or `name`.
pub fn show_identifier(alloc: Global, identifier: &Identifier) -> Result<Text, AllocError>
    ensures { IfOk result (λ text. text ≡ identifier_text identifier.now) }
{
    match &identifier.namespace {
        None => identifier.name.value.clone(),
        Some(namespace) => {
            let mut text = String::from_str(alloc, namespace.value.as_str())?;
            text.push_str(":")?;
            text.push_str(identifier.name.value.as_str())?;
            Ok(Text::from(text))
        }
    }
}

/// The number, counted from 1, of what stands at a place that is counted from 0.
pub fn show_number(alloc: Global, at: usize) -> Result<Text, AllocError>
    requires { at + 1 < 2 ^ 64 }
    ensures { IfOk result (λ text. text ≡ decimal (at + 1)) }
{
    let number = at + 1;
    let text = format!(in alloc; "{number}")?;
    Ok(Text::from(text))
}
