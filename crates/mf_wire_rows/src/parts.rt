//! The parts of a reply line.
use crate::replies::text;
use mf_parts::{Part, Parts};
use mf_text::{Direction, Pair, Pairs, Text};
use mf_tree::Form;
use serde_json::Value;
use std::alloc::{AllocError, Global};

/// A text of an object, if there is one.
pub fn text_of(alloc: Global, value: &Value, name: &str) -> Result<Option<Text>, AllocError> {
    match value.get(name).and_then(Value::as_str) {
        Some(text) => Ok(Some(Text::of(alloc, text)?)),
        None => Ok(None),
    }
}

/// The parts of a reply.
pub fn parts(alloc: Global, value: &Value) -> Result<Parts, AllocError> {
    let mut parts = Parts::new(alloc);
    if let Some(objects) = value.get("parts").and_then(Value::as_array) {
        for object in objects {
            if let Some(part) = part(alloc, object)? {
                parts.push(part)?;
            }
        }
    }
    Ok(parts)
}

/// The part of an object, by its kind. A reply doesn't tell the direction.
fn part(alloc: Global, object: &Value) -> Result<Option<Part>, AllocError> {
    let value = Text::of(alloc, text(object, "value"))?;
    let id = text_of(alloc, object, "id")?;
    Ok(match text(object, "kind") {
        "text" => Some(Part::Text(value)),
        "isolate" => value.as_str().chars().next().map(Part::Isolate),
        "string" => Some(Part::String {
            value,
            dir: Direction::Ltr,
            forced: true,
            id,
        }),
        "number" => Some(Part::Number {
            value,
            dir: Direction::Rtl,
            forced: false,
            id,
        }),
        "markup" => Some(Part::Markup {
            form: form(text(object, "form")),
            name: Text::of(alloc, text(object, "name"))?,
            options: options(alloc, object)?,
            id,
        }),
        "fallback" => Some(Part::Fallback {
            source: Text::of(alloc, text(object, "source"))?,
        }),
        _ => None,
    })
}

/// The form of markup with this name.
fn form(name: &str) -> Form {
    match name {
        "open" => Form::Start,
        "close" => Form::End,
        _ => Form::Standalone,
    }
}

/// The options of markup, from the last to the first, of which a reply has the byte order.
fn options(alloc: Global, object: &Value) -> Result<Pairs, AllocError> {
    let mut pairs = Pairs::new(alloc);
    if let Some(members) = object.get("options").and_then(Value::as_object) {
        for (name, value) in members.iter().rev() {
            let name = Text::of(alloc, name.as_str())?;
            let value = Text::of(alloc, value.as_str().unwrap_or(""))?;
            pairs.push(Pair { name, value })?;
        }
    }
    Ok(pairs)
}
