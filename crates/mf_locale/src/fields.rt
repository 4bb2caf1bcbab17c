//! The fields of a locale record's JSON object, read one by one.

ghost use Rattle.std.specs.Prelude.{◌≡◌, Ok, IfErr, IfOk, OnOk};
ghost use Rattle.std.specs.Option.{option_copied};
ghost use Rattle.serde_json.specs.View.{view};
ghost use Rattle.mf_locale.specs.RecordFields as fields;
ghost use Rattle.mf_locale.specs.RecordReading.{IsDue};
ghost use Rattle.mf_numfmt.specs.Sizes.{is_size};

use crate::error::LocaleError;
use crate::field::RecordField;
use crate::size::GroupSize;
use mf_plural::{RuleError, Rules, read_rules};
use mf_text::{Direction, Text};
use serde_json::Value;
use std::alloc::Global;

/// The version of records.
const VERSION: u64 = 1;

/// The most bytes that a symbol of numbers may have.
const LONGEST_SYMBOL: usize = 16;

/// The most digits that a group may have.
const LARGEST_SIZE: u64 = 9;

/// Looks whether the version is 1.
pub fn read_version(value: &Value) -> Result<(), LocaleError>
    ensures ok { OnOk result (fields.version_field (view value.now) ≡ Ok 1) }
    ensures refused { IfErr result (IsDue (fields.version_field (view value.now))) }
{
    match number_at(value, RecordField::Version) {
        Some(VERSION) => Ok(()),
        _ => Err(LocaleError::BadField {
            field: RecordField::Version,
        }),
    }
}

/// The direction: `ltr`, `rtl` or `unknown`.
pub fn read_direction(value: &Value) -> Result<Direction, LocaleError>
    ensures ok { IfOk result (λ dir. fields.direction_field (view value.now) ≡ Ok dir) }
    ensures refused { IfErr result (IsDue (fields.direction_field (view value.now))) }
{
    match text_at(value, RecordField::Dir).and_then(direction_from) {
        Some(dir) => Ok(dir),
        None => Err(LocaleError::BadField {
            field: RecordField::Dir,
        }),
    }
}

/// A symbol of numbers, of at least so many bytes and at most 16.
pub fn read_symbol(
    alloc: Global,
    value: &Value,
    field: RecordField,
    least: usize,
) -> Result<Text, LocaleError>
    ensures ok { IfOk result
        (λ symbol. fields.symbol_field least field (view value.now) ≡ Ok symbol) }
    ensures refused { IfErr result (IsDue (fields.symbol_field least field (view value.now))) }
{
    let Some(symbol) = symbol_at(value, field, least) else {
        return Err(LocaleError::BadField { field });
    };
    let symbol = Text::of(alloc, symbol)?;
    Ok(symbol)
}

/// The number of digits of a group, from 1 to 9.
pub fn read_size(value: &Value, field: RecordField) -> Result<GroupSize, LocaleError>
    ensures ok { IfOk result (λ size. fields.size_field field (view value.now) ≡ Ok size) }
    ensures refused { IfErr result (IsDue (fields.size_field field (view value.now))) }
{
    match number_at(value, field).and_then(size_from) {
        Some(size) => Ok(size),
        None => Err(LocaleError::BadField { field }),
    }
}

/// Plural rules.
pub fn read_plural(alloc: Global, value: &Value, field: RecordField) -> Result<Rules, LocaleError>
    ensures ok { IfOk result (λ rules. fields.rules_field field (view value.now) ≡ Ok rules) }
    ensures refused { IfErr result (IsDue (fields.rules_field field (view value.now))) }
{
    let Some(text) = text_at(value, field) else {
        return Err(LocaleError::BadField { field });
    };
    match read_rules(alloc, text) {
        Ok(rules) => Ok(rules),
        Err(RuleError::BadRule { rule }) => Err(LocaleError::BadRule { field, rule }),
        Err(RuleError::OutOfMemory) => Err(LocaleError::OutOfMemory),
    }
}

// A field that is a whole number.
fn number_at(value: &Value, field: RecordField) -> Option<u64>
    ensures { result ≡ fields.number_at field (view value.now) }
{
    value.get(field.as_str()).and_then(Value::as_u64)
}

// A field that is a text.
fn text_at(value: &Value, field: RecordField) -> Option<&str>
    ensures { option_copied result ≡ fields.text_at field (view value.now) }
{
    value.get(field.as_str()).and_then(Value::as_str)
}

// A field that is a symbol of numbers.
fn symbol_at(value: &Value, field: RecordField, least: usize) -> Option<&str>
    ensures { option_copied result ≡ fields.symbol_at least field (view value.now) }
{
    match text_at(value, field) {
        Some(text) if is_symbol(text, least) => Some(text),
        _ => None,
    }
}

// Whether a text may be a symbol of numbers.
fn is_symbol(text: &str, least: usize) -> bool
    ensures { result ≡ fields.is_symbol least text.now }
{
    least <= text.len() && text.len() <= LONGEST_SYMBOL
}

// The direction that a text names.
fn direction_from(text: &str) -> Option<Direction>
    ensures { result ≡ fields.direction_from text.now }
{
    match text {
        "ltr" => Some(Direction::Ltr),
        "rtl" => Some(Direction::Rtl),
        "unknown" => Some(Direction::Unknown),
        _ => None,
    }
}

// The size that a number is, from 1 to 9.
fn size_from(number: u64) -> Option<GroupSize>
    ensures { result ≡ fields.size_from number }
{
    if is_size(number) {
        Some(GroupSize {
            digits: number as u32,
        })
    } else {
        None
    }
}

// Whether a number is a size of groups.
fn is_size(number: u64) -> bool
    ensures { result ≡ is_size number }
{
    number >= 1 && number <= LARGEST_SIZE
}
