//! The option that a name means.

ghost use Rattle.std.specs.Prelude.{◌≡◌};
ghost use Rattle.mf_meaning.specs.Options as options;
ghost use Rattle.mf_value.specs.NumberOptions.{option_named};

use mf_tree::Identifier;
use mf_value::{NumberFunction, NumberOption};

/// The option of the function that has this name, which has no namespace.
pub fn option_of(function: NumberFunction, identifier: &Identifier) -> Option<NumberOption>
    ensures { result ≡ options.option_of function identifier.now }
{
    if identifier.namespace.is_some() {
        return None;
    }
    option_named(function, identifier.name.value.as_str())
}

/// The option of the function that has this name.
pub fn option_named(function: NumberFunction, name: &str) -> Option<NumberOption>
    ensures { result ≡ options.option_at function (option_named name.now) }
{
    match NumberOption::named(name) {
        Some(option) if option.is_of(function) => Some(option),
        _ => None,
    }
}
