//! The handlers that rows name.

ghost use Rattle.std.specs.Prelude.{IsTrue};
ghost use Rattle.mf_handlers.specs.Sizes.{IsFew};

use crate::asking::identifier;
use mf_handlers::check_def;
use mf_text::{Pair, Pairs, Text};
use mf_value::{DefError, Entries, HandlerDef};
use serde_json::Value;
use std::alloc::{AllocError, Global};

/// A handler and its name as a row writes it.
#[derive(Drop)]
pub struct Handler {
    pub name: String,
    pub def: HandlerDef,
}

/// The handler of a line, a name and the JSON of what it does, or none where it is none.
pub fn handler_of(alloc: Global, line: &str) -> Result<Option<Handler>, AllocError> {
    let Some((name, json)) = line.split_once(' ') else {
        return Ok(None);
    };
    let Ok(value) = Value::from_str(alloc, json) else {
        return Ok(None);
    };
    let Some(def) = def_of(alloc, &value)? else {
        return Ok(None);
    };
    Ok(Some(Handler {
        name: String::from_str(alloc, name)?,
        def,
    }))
}

/// What a handler does, by its JSON: an alias or an affix has a base, a table has entries.
fn def_of(alloc: Global, value: &Value) -> Result<Option<HandlerDef>, AllocError> {
    let Some(base) = text_of(alloc, value, "base")? else {
        return Ok(Some(HandlerDef::Table {
            entries: Entries::new(alloc, pairs_of(alloc, value, "entries")?)?,
            default: text_of(alloc, value, "default")?,
        }));
    };
    let presets = pairs_of(alloc, value, "options")?;
    let (Some(prefix), Some(suffix)) = (
        text_of(alloc, value, "prefix")?,
        text_of(alloc, value, "suffix")?,
    ) else {
        return Ok(Some(HandlerDef::Alias { base, presets }));
    };
    Ok(Some(HandlerDef::Affix {
        base,
        presets,
        prefix,
        suffix,
    }))
}

/// The text of a field, if it has one.
fn text_of(alloc: Global, value: &Value, field: &str) -> Result<Option<Text>, AllocError> {
    match value.get(field).and_then(Value::as_str) {
        Some(text) => Ok(Some(Text::of(alloc, text)?)),
        None => Ok(None),
    }
}

/// The pairs of a field, each a list of two texts, in their order.
fn pairs_of(alloc: Global, value: &Value, field: &str) -> Result<Pairs, AllocError> {
    let mut pairs = Pairs::new(alloc);
    if let Some(list) = value.get(field).and_then(Value::as_array) {
        for member in list {
            if let Some(pair) = pair_of(alloc, member)? {
                pairs.push(pair)?;
            }
        }
    }
    Ok(pairs)
}

/// The pair of a list of two texts.
fn pair_of(alloc: Global, member: &Value) -> Result<Option<Pair>, AllocError> {
    let (Some(name), Some(value)) = (
        member.get(0usize).and_then(Value::as_str),
        member.get(1usize).and_then(Value::as_str),
    ) else {
        return Ok(None);
    };
    Ok(Some(Pair {
        name: Text::of(alloc, name)?,
        value: Text::of(alloc, value)?,
    }))
}

/// What is wrong with a handler, as a row writes it.
pub fn checked(alloc: Global, handler: &Handler) -> Result<String, AllocError> {
    let name = identifier(alloc, handler.name.as_str())?;
    if !is_few(&handler.def) {
        return String::from_str(alloc, "too many");
    }
    match check_def(&name, &handler.def) {
        Ok(()) => String::from_str(alloc, "ok"),
        Err(DefError::ReservedName) => String::from_str(alloc, "reserved-name"),
        Err(DefError::BadBase) => String::from_str(alloc, "bad-base"),
        Err(DefError::BadOption { index }) => format!(in alloc; "bad-option {index}"),
        Err(DefError::RepeatedKey { index }) => format!(in alloc; "repeated-key {index}"),
    }
}

/// Whether a handler has no more presets and entries than are checked.
fn is_few(def: &HandlerDef) -> bool
    ensures { IsTrue result → IsFew def.now }
{
    match def {
        HandlerDef::Alias { presets, .. } => presets.len() < 1_000_000,
        HandlerDef::Affix { presets, .. } => presets.len() < 1_000_000,
        HandlerDef::Table { entries, .. } => entries.as_slice().len() < 1_000_000,
    }
}
