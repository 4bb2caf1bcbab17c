//! The built-in functions, by name.

ghost use Rattle.std.specs.Prelude.{◌≡◌};
ghost use Rattle.mf_value.specs.BuiltIns.{function_named};

use crate::number_option::NumberFunction;

/// A function that every message may call (Unicode TS 35, Part 9, "Default Functions").
#[derive(Clone, Copy, Debug, PartialEq, Eq)]
pub enum BuiltIn {
    /// `:string`.
    String,
    /// `:number` or `:integer`.
    Numeric(NumberFunction),
}

impl BuiltIn {
    /// The function with this name, which has no namespace, if there is one.
    pub fn named(name: &str) -> Option<BuiltIn>
        ensures { result ≡ function_named name.now }
    {
        match name {
            "string" => Some(BuiltIn::String),
            "number" => Some(BuiltIn::Numeric(NumberFunction::Number)),
            "integer" => Some(BuiltIn::Numeric(NumberFunction::Integer)),
            _ => None,
        }
    }
}
