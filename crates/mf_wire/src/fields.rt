ghost use Rattle.std.specs.Prelude.{◌≡◌, [], IfOk, option_map};
ghost use Rattle.std.specs.Option.{option_copied};
ghost use Rattle.serde_json.specs.Find.{get};
ghost use Rattle.serde_json.specs.View.{view, members_view};
ghost use Rattle.mf_wire.specs.Fields as fields;
ghost use Rattle.mf_wire.specs.Fields.{message_with};

use mf_edition::Catalogue;
use mf_locale::{LocaleError, Tag, read_tag};
use mf_text::{Argued, Arguments, Text};
use serde_json::{Map, Value};
use std::alloc::{AllocError, Global};

/// The most messages that a catalogue may have.
const MOST_MESSAGES: usize = 4096;

/// The most bytes that an id may have.
const LONGEST_ID: usize = 256;

/// A field that is a text.
pub(crate) fn string_field<'v>(object: &'v Value, name: &str) -> Option<&'v str>
    ensures { option_copied result ≡ fields.string_field name.now (view object.now) }
{
    object.get(name).and_then(Value::as_str)
}

/// A field that is a tag.
pub(crate) fn tag_field(
    alloc: Global,
    object: &Value,
    name: &str,
) -> Result<Option<Tag>, AllocError>
    ensures { IfOk result (λ tag. tag ≡ fields.tag_field name.now (view object.now)) }
{
    let Some(text) = string_field(object, name) else {
        return Ok(None);
    };
    match read_tag(alloc, text) {
        Ok(tag) => Ok(Some(tag)),
        Err(LocaleError::OutOfMemory) => Err(AllocError),
        Err(_) => Ok(None),
    }
}

/// A field that is an object.
pub(crate) fn object_field<'v>(object: &'v Value, name: &str) -> Option<&'v Value>
    ensures { option_map (λ v. view v.now) result ≡ fields.object_field name.now (view object.now) }
{
    match object.get(name) {
        Some(value) if value.is_object() => Some(value),
        _ => None,
    }
}

/// A field that is a catalogue, whose messages are of this tag.
pub(crate) fn catalogue_field(
    alloc: Global,
    object: &Value,
    name: &str,
    tag: Tag,
) -> Result<Option<Catalogue>, AllocError>
    ensures { IfOk result
        (λ catalogue. catalogue
        ≡ option_map (fields.tagged tag) (fields.catalogue_field name.now (view object.now))) }
{
    let Some(members) = object.get(name).and_then(Value::as_object) else {
        return Ok(None);
    };
    catalogue(alloc, members, tag)
}

/// The catalogue that an object is.
fn catalogue(
    alloc: Global,
    members: &Map<String, Value>,
    tag: Tag,
) -> Result<Option<Catalogue>, AllocError>
    ensures { IfOk result
        (λ catalogue. catalogue
        ≡ option_map (fields.tagged tag)
        (fields.catalogue_from (members_view members.now.entries))) }
{
    if is_catalogue_size(members.len()) {
        messages(alloc, members, tag)
    } else {
        Ok(None)
    }
}

/// Whether a catalogue may have so many messages.
fn is_catalogue_size(count: usize) -> bool
    ensures { result ≡ fields.is_catalogue_size count }
{
    count >= 1 && count <= MOST_MESSAGES
}

/// The messages of a catalogue.
fn messages(
    alloc: Global,
    members: &Map<String, Value>,
    tag: Tag,
) -> Result<Option<Catalogue>, AllocError>
    ensures { IfOk result
        (λ catalogue. catalogue
        ≡ option_map (fields.tagged tag)
        (fields.messages_from (members_view members.now.entries))) }
{
    let mut catalogue = Catalogue::new(alloc, tag, members.len())?;
    for (id, value) in members {
        let Some(source) = source(id.as_str(), value) else {
            return Ok(None);
        };
        catalogue.put(alloc, id.as_str(), source)?;
    }
    Ok(Some(catalogue))
}

/// The source of the message of an id.
fn source<'v>(id: &str, value: &'v Value) -> Option<&'v str>
    ensures { option_map (message_with id.now) (option_copied result)
        ≡ fields.message_from id.now (view value.now) }
{
    if id.is_empty() || id.len() > LONGEST_ID {
        return None;
    }
    value.as_str()
}

/// The arguments of a field.
pub(crate) fn arguments_field(
    alloc: Global,
    object: &Value,
    name: &str,
) -> Result<Option<Arguments>, AllocError>
    ensures { IfOk result
        (λ arguments. arguments ≡ fields.arguments_of (get name.now (view object.now))) }
{
    let Some(value) = object.get(name) else {
        return Ok(Some(Arguments::new(alloc)));
    };
    let Some(members) = value.as_object() else {
        return Ok(None);
    };
    arguments(alloc, members)
}

/// The arguments of an object: none where two names have one normal form.
fn arguments(alloc: Global, members: &Map<String, Value>) -> Result<Option<Arguments>, AllocError>
    ensures { IfOk result
        (λ arguments. arguments ≡ fields.arguments_from (members_view members.now.entries) []) }
{
    let mut arguments = Arguments::new(alloc);
    for (name, value) in members {
        let Some(value) = argued(alloc, value)? else {
            return Ok(None);
        };
        if !arguments.insert(alloc, name.as_str(), value)? {
            return Ok(None);
        }
    }
    Ok(Some(arguments))
}

/// The value of an argument: a text, or a whole number.
fn argued(alloc: Global, value: &Value) -> Result<Option<Argued>, AllocError>
    ensures { IfOk result (λ argued. argued ≡ fields.argued_from (view value.now)) }
{
    let Some(text) = value.as_str() else {
        return Ok(argued_number(value));
    };
    let text = Text::of(alloc, text)?;
    Ok(Some(Argued::Text(text)))
}

/// A whole number as an argument: with a sign where 64 bits with a sign hold it, else without one.
fn argued_number(value: &Value) -> Option<Argued>
    ensures { result ≡ fields.argued_number (view value.now) }
{
    match value.as_i64() {
        Some(number) => Some(Argued::Signed(number)),
        None => value.as_u64().map(Argued::Unsigned),
    }
}

/// The least edition that a format may come from: 0 where the field is missing.
pub(crate) fn since_field(object: &Value, name: &str) -> Option<u64>
    ensures { result ≡ fields.since_of (get name.now (view object.now)) }
{
    match object.get(name) {
        Some(value) => value.as_u64(),
        None => Some(0),
    }
}
