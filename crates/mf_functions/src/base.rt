//! A call of a built-in function by what it is, where some options are preset.

ghost use Rattle.std.specs.Prelude.{◌≡◌, ◌<◌, ◌^◌, length, IfOk};
ghost use Rattle.std.specs.Option.{option_copied};
ghost use Rattle.mf_meaning.specs.Functions as functions;
ghost use Rattle.mf_meaning.specs.Handlers as handlers;

use crate::number::number_called;
use crate::string::{bad_operand, string_fn};
use crate::written::Written;
use mf_locale::LocaleRecord;
use mf_text::Pair;
use mf_value::{BuiltIn, Called, Options, Value};
use std::alloc::{AllocError, Global};

/// What the function gives for its operand, if there is one, and its options; no function has a
/// value for any operand.
///
/// An option that isn't written has the value of the first preset that names it and is allowed,
/// before the one that the operand keeps. A preset that isn't allowed is passed over.
pub fn base_called(
    alloc: Global,
    record: &LocaleRecord,
    function: Option<BuiltIn>,
    presets: &[Pair],
    operand: Option<&Value>,
    options: &Options,
) -> Result<Called, AllocError>
    requires few { length options.now < 2 ^ 32 }
    ensures { IfOk result (λ called. called
        ≡ functions.base_called «record».now function presets.now
        (option_copied operand.entry) options.now) }
{
    match function {
        Some(BuiltIn::String) => string_fn(alloc, operand, options),
        Some(BuiltIn::Numeric(function)) => {
            number_called(alloc, record, function, presets, operand, options)
        }
        None => Ok(bad_operand(alloc)),
    }
}

/// Whether the preset is an option of the function, and its value is allowed.
pub fn allows_preset(function: BuiltIn, preset: &Pair) -> bool
    ensures { result ≡ handlers.allows_preset function preset.now }
{
    match function {
        BuiltIn::String => false,
        BuiltIn::Numeric(function) => Written::nothing().take_preset(function, preset),
    }
}
