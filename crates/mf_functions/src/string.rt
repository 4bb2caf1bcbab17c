//! `:string`.

ghost use Rattle.std.specs.Prelude.{◌≡◌, ◌<◌, ◌++◌, ◌^◌, false, length, IfOk};
ghost use Rattle.std.specs.Option.{option_copied};
ghost use Rattle.mf_meaning.specs.Functions as functions;

use mf_text::{Direction, List, Text};
use mf_tree::Kind;
use mf_value::{CallFault, CallFaults, Called, Content, Options, Selects, Value};
use std::alloc::{AllocError, Global};

/// `:string`: a text that selects as one (Unicode TS 35, Part 9, "The `:string` function").
///
/// The operand is a text, or a number whose exact text is taken; there is no value for any other
/// one, and for none. Each option is refused, since it has none.
pub fn string_fn(
    alloc: Global,
    operand: Option<&Value>,
    options: &Options,
) -> Result<Called, AllocError>
    requires few { length options.now < 2 ^ 32 }
    ensures { IfOk result (λ called. called ≡ functions.string_called
        (option_copied operand.entry) options.now) }
{
    let Some(text) = operand_text(alloc, operand)? else {
        return Ok(bad_operand(alloc));
    };
    let faults = refused_options(alloc, options)?;
    Ok(Called {
        value: Some(text_value(alloc, text)),
        faults,
    })
}

/// The answer of a function that refuses its operand.
pub fn bad_operand(alloc: Global) -> Called
    ensures { result ≡ functions.bad_operand }
{
    Called {
        value: None,
        faults: List::new(alloc),
    }
}

/// The option text of an operand that is a text or a number.
pub fn operand_text(alloc: Global, operand: Option<&Value>) -> Result<Option<Text>, AllocError>
    ensures { IfOk result (λ text. text ≡ functions.operand_text (option_copied operand.entry)) }
{
    match operand {
        Some(value) => value.content.option_text(alloc),
        None => Ok(None),
    }
}

/// Each option, refused.
pub fn refused_options(alloc: Global, options: &Options) -> Result<CallFaults, AllocError>
    requires few { length options.now < 2 ^ 32 }
    ensures { IfOk result (λ faults. faults ≡ functions.refused_options
        (λ given. false) options.now) }
{
    let mut refused = List::new(alloc);
    for (place, _given) in options.as_slice().iter().enumerate() {
        refused.push(CallFault {
            kind: Kind::BadOption,
            option: place as u32,
        })?;
    }
    Ok(refused)
}

/// A text that selects as one.
pub fn text_value(alloc: Global, text: Text) -> Value
    ensures { result ≡ functions.text_value text }
{
    Value {
        content: Content::Text(text),
        dir: Direction::Unknown,
        forced: false,
        id: None,
        prefix: Text::new(alloc),
        suffix: Text::new(alloc),
        selects: Selects::Text,
    }
}
