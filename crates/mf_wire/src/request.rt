ghost use Rattle.std.specs.Prelude.{◌≡◌, Ok, IfErr, IfOk};
ghost use Rattle.serde_json.specs.View.{view};
ghost use Rattle.mf_locale.specs.RecordReading.{record_of};
ghost use Rattle.mf_wire.specs.Requests.{format_request, lint_request, locale_request, publish_request, record_request, request_by, request_from, line_request, IsDue};

use crate::field::Field;
use crate::fields::{
    arguments_field, catalogue_field, object_field, since_field, string_field, tag_field,
};
use crate::handler::handler;
use crate::reading::{WireError, read_value};
use crate::size::record_size;
use mf_edition::Change;
use mf_locale::{LocaleError, SharedRecord, Tag, read_record};
use mf_text::{Arguments, Text};
use serde_json::Value;
use std::alloc::Global;

/// What a line asks for.
#[derive(Debug, Drop)]
pub enum Request {
    /// Publish a change.
    Publish(Change),
    /// Format the message of an id, looked up along the chain of a tag, with arguments whose names
    /// are in Normalization Form C, in an edition of at least this number.
    Format {
        tag: Tag,
        id: Text,
        arguments: Arguments,
        since: u64,
    },
    /// Lint a source.
    Lint {
        source: Text,
    },
    /// Tell how many compilations the newest edition has begun.
    Stat,
}

/// The request of a line.
///
/// # Errors
///
/// `BadJson`, `BadRequest` with the first field that is missing, of another kind or out of range,
/// `BadLocale` with that of a locale record, and `OutOfMemory`.
pub fn read_request(alloc: Global, line: &[u8]) -> Result<Request, WireError>
    ensures request { IfOk result (λ request. line_request line.now ≡ Ok request) }
    ensures refused { IfErr result (IsDue (line_request line.now)) }
{
    let Some(value) = read_value(alloc, line)? else {
        return Err(WireError::BadJson);
    };
    asked(alloc, &value)
}

/// What a JSON value asks for.
fn asked(alloc: Global, value: &Value) -> Result<Request, WireError>
    ensures request { IfOk result (λ request. request_from (view value.now) ≡ Ok request) }
    ensures refused { IfErr result (IsDue (request_from (view value.now))) }
{
    match string_field(value, "op") {
        Some(op) => asked_by(alloc, op, value),
        None => Err(WireError::BadRequest { field: Field::Op }),
    }
}

/// What an object with this `op` asks for.
fn asked_by(alloc: Global, op: &str, value: &Value) -> Result<Request, WireError>
    ensures request { IfOk result (λ request. request_by op.now (view value.now) ≡ Ok request) }
    ensures refused { IfErr result (IsDue (request_by op.now (view value.now))) }
{
    match op {
        "publish" => publication(alloc, value),
        "format" => format(alloc, value),
        "lint" => lint(alloc, value),
        "locale" => locale(alloc, value),
        "handler" => handler(alloc, value),
        "stat" => Ok(Request::Stat),
        _ => Err(WireError::BadRequest { field: Field::Op }),
    }
}

/// A publication of messages.
fn publication(alloc: Global, value: &Value) -> Result<Request, WireError>
    ensures request { IfOk result (λ request. publish_request (view value.now) ≡ Ok request) }
    ensures refused { IfErr result (IsDue (publish_request (view value.now))) }
{
    let Some(tag) = tag_field(alloc, value, "locale")? else {
        return Err(WireError::BadRequest {
            field: Field::Locale,
        });
    };
    let Some(catalogue) = catalogue_field(alloc, value, "messages", tag)? else {
        return Err(WireError::BadRequest {
            field: Field::Messages,
        });
    };
    Ok(Request::Publish(Change::Catalogue(catalogue)))
}

/// A publication of a locale record.
fn locale(alloc: Global, value: &Value) -> Result<Request, WireError>
    ensures request { IfOk result (λ request. locale_request (view value.now) ≡ Ok request) }
    ensures refused { IfErr result (IsDue (locale_request (view value.now))) }
{
    let Some(tag) = tag_field(alloc, value, "tag")? else {
        return Err(WireError::BadRequest { field: Field::Tag });
    };
    let Some(given) = object_field(value, "record") else {
        return Err(WireError::BadRequest {
            field: Field::Record,
        });
    };
    locale_record(alloc, tag, given)
}

/// A publication of the record that an object is.
fn locale_record(alloc: Global, tag: Tag, given: &Value) -> Result<Request, WireError>
    ensures request { IfOk result
        (λ request. record_request tag (view given.now) (record_of (view given.now)) ≡ Ok request) }
    ensures refused { IfErr result
        (IsDue (record_request tag (view given.now) (record_of (view given.now)))) }
{
    let size = record_size(&tag, given);
    match read_record(alloc, given) {
        Ok(record) => {
            let place = SharedRecord::new(alloc, record)?;
            Ok(Request::Publish(Change::Locale { tag, place, size }))
        }
        Err(LocaleError::BadField { field }) => Err(WireError::BadLocale { field, rule: None }),
        Err(LocaleError::BadRule { field, rule }) => Err(WireError::BadLocale {
            field,
            rule: Some(rule),
        }),
        Err(LocaleError::BadTag) => unreachable!(),
        Err(LocaleError::OutOfMemory) => Err(WireError::OutOfMemory),
    }
}

/// A request for a sentence.
fn format(alloc: Global, value: &Value) -> Result<Request, WireError>
    ensures request { IfOk result (λ request. format_request (view value.now) ≡ Ok request) }
    ensures refused { IfErr result (IsDue (format_request (view value.now))) }
{
    let Some(tag) = tag_field(alloc, value, "locale")? else {
        return Err(WireError::BadRequest {
            field: Field::Locale,
        });
    };
    let Some(id) = string_field(value, "id") else {
        return Err(WireError::BadRequest { field: Field::Id });
    };
    let Some(arguments) = arguments_field(alloc, value, "args")? else {
        return Err(WireError::BadRequest { field: Field::Args });
    };
    let Some(since) = since_field(value, "since") else {
        return Err(WireError::BadRequest {
            field: Field::Since,
        });
    };
    let id = Text::of(alloc, id)?;
    Ok(Request::Format {
        tag,
        id,
        arguments,
        since,
    })
}

/// A request to lint a source.
fn lint(alloc: Global, value: &Value) -> Result<Request, WireError>
    ensures request { IfOk result (λ request. lint_request (view value.now) ≡ Ok request) }
    ensures refused { IfErr result (IsDue (lint_request (view value.now))) }
{
    let Some(source) = string_field(value, "source") else {
        return Err(WireError::BadRequest {
            field: Field::Source,
        });
    };
    let source = Text::of(alloc, source)?;
    Ok(Request::Lint { source })
}
