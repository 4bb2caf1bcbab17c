//! A call of a handler.

ghost use Rattle.std.specs.Prelude.{◌≡◌, ◌<◌, ◌++◌, ◌^◌, length, option_and_then, IfOk};
ghost use Rattle.std.specs.Option.{option_copied};
ghost use Rattle.mf_meaning.specs.Handlers as handlers;

use mf_functions::{bad_operand, base_called, operand_text, refused_options, text_value};
use mf_locale::LocaleRecord;
use mf_text::{Text, nfc};
use mf_value::{BuiltIn, Called, Entries, HandlerDef, Options, Value};
use std::alloc::{AllocError, Global};

/// What a handler gives for its operand, if there is one, and its options, whether it may be
/// published or not.
///
/// An alias calls its base, `string`, `number` or `integer`; an option has the value that is
/// written, else that of the first preset that names it and is allowed, else the one that the
/// operand keeps. A preset that isn't allowed is passed over, and another base has no value. An
/// affix does the same, and its value is shown between its prefix and its suffix. A table gives the
/// text under the key whose normal form is that of the operand's option text, else its default, as
/// a text that selects as one; it has no options, and no value for an operand that is missing or a
/// fallback.
pub fn call_handler(
    alloc: Global,
    record: &LocaleRecord,
    def: &HandlerDef,
    operand: Option<&Value>,
    options: &Options,
) -> Result<Called, AllocError>
    requires few { length options.now < 2 ^ 32 }
    ensures { IfOk result (λ called. called ≡ handlers.handler_called «record».now def.now
        (option_copied operand.entry) options.now) }
{
    match def {
        HandlerDef::Alias { base, presets } => {
            let base = BuiltIn::named(base.as_str());
            base_called(alloc, record, base, presets.as_slice(), operand, options)
        }
        HandlerDef::Affix {
            base,
            presets,
            prefix,
            suffix,
        } => {
            let base = BuiltIn::named(base.as_str());
            let called = base_called(alloc, record, base, presets.as_slice(), operand, options)?;
            called_between(prefix, suffix, called)
        }
        HandlerDef::Table { entries, default } => {
            table_called(alloc, entries, default, operand, options)
        }
    }
}

/// What was called, its value between a prefix and a suffix.
fn called_between(prefix: &Text, suffix: &Text, called: Called) -> Result<Called, AllocError>
    ensures { IfOk result (λ between. between
        ≡ handlers.called_between prefix.now suffix.now called) }
{
    let Called { value, faults } = called;
    match value {
        Some(value) => Ok(Called {
            value: Some(affixed(prefix, suffix, value)?),
            faults,
        }),
        None => Ok(Called {
            value: None,
            faults,
        }),
    }
}

/// A value between a prefix and a suffix.
fn affixed(prefix: &Text, suffix: &Text, value: Value) -> Result<Value, AllocError>
    ensures { IfOk result (λ between. between ≡ handlers.affixed prefix.now suffix.now value) }
{
    Ok(Value {
        content: value.content,
        dir: value.dir,
        forced: value.forced,
        id: value.id,
        prefix: joined(prefix, &value.prefix)?,
        suffix: joined(&value.suffix, suffix)?,
        selects: value.selects,
    })
}

/// A text behind another one.
fn joined(first: &Text, second: &Text) -> Result<Text, AllocError>
    ensures { IfOk result (λ text. text ≡ first.now ++ second.now) }
{
    let mut text = first.clone()?;
    text.push_str(second.as_str())?;
    Ok(text)
}

/// What a table gives.
fn table_called(
    alloc: Global,
    entries: &Entries,
    default: &Option<Text>,
    operand: Option<&Value>,
    options: &Options,
) -> Result<Called, AllocError>
    requires few { length options.now < 2 ^ 32 }
    ensures { IfOk result (λ called. called ≡ handlers.table_called entries.now default.now
        (option_copied operand.entry) options.now) }
{
    let asked = operand_text(alloc, operand)?;
    let Some(text) = found_text(alloc, entries, default, asked)? else {
        return Ok(bad_operand(alloc));
    };
    let faults = refused_options(alloc, options)?;
    Ok(Called {
        value: Some(text_value(alloc, text)),
        faults,
    })
}

/// The text that a table has for a text, if there is one.
fn found_text(
    alloc: Global,
    entries: &Entries,
    default: &Option<Text>,
    asked: Option<Text>,
) -> Result<Option<Text>, AllocError>
    ensures { IfOk result (λ text. text ≡ option_and_then
        (handlers.table_text entries.now default.now) asked) }
{
    match asked {
        Some(asked) => table_text(alloc, entries, default, &asked),
        None => Ok(None),
    }
}

/// The text that a table has for a text.
fn table_text(
    alloc: Global,
    entries: &Entries,
    default: &Option<Text>,
    asked: &Text,
) -> Result<Option<Text>, AllocError>
    ensures { IfOk result (λ text. text ≡ handlers.table_text entries.now default.now asked.now) }
{
    let form = nfc(alloc, asked.as_str())?;
    match entries.find(&form) {
        Some(text) => Ok(Some(text.clone()?)),
        None => default.clone(),
    }
}
