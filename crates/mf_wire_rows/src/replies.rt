//! Reply lines: the reply that the JSON of a line says, by the names of its members.
use crate::parts::{parts, text_of};
use mf_locale::{RecordField, Tag, read_tag};
use mf_text::Text;
use mf_tree::{Fault, Faults, Kind};
use mf_wire::{Field, Op, Reason, Reply, reply_line};
use serde_json::Value;
use std::alloc::{AllocError, Global};

/// The line of the reply that a line says, or what is wrong with the line.
pub fn written(alloc: Global, line: &str) -> Result<String, AllocError> {
    let Ok(value) = Value::from_str(alloc, line) else {
        return String::from_str(alloc, "no JSON");
    };
    let reply = match text(&value, "error") {
        "" => accepted(alloc, &value)?,
        error => refused(&value, error),
    };
    match reply {
        Some(reply) => Ok(reply_line(alloc, &reply)?.into_string()),
        None => String::from_str(alloc, "no reply"),
    }
}

/// A text of an object, empty where there is none.
pub fn text<'v>(value: &'v Value, name: &str) -> &'v str {
    value.get(name).and_then(Value::as_str).unwrap_or("")
}

/// A number of an object, 0 where there is none.
fn number(value: &Value, name: &str) -> u64 {
    value.get(name).and_then(Value::as_u64).unwrap_or(0)
}

/// The number of a bad rule, if there is one.
fn rule(value: &Value) -> Option<u32> {
    let rule = value.get("rule").and_then(Value::as_u64)?;
    u32::try_from(rule).ok()
}

/// The reply with this error.
fn refused(value: &Value, error: &str) -> Option<Reply> {
    let edition = number(value, "edition");
    match error {
        "bad-json" => Some(Reply::BadJson),
        "bad-request" => Some(Reply::BadRequest {
            field: request_field(text(value, "field"))?,
        }),
        "bad-locale" => Some(Reply::BadLocale {
            field: record_field(text(value, "field"))?,
            rule: rule(value),
        }),
        "bad-handler" => Some(Reply::BadHandler {
            reason: reason(text(value, "reason"))?,
        }),
        "editions-full" => Some(Reply::EditionsFull {
            entries: number(value, "entries"),
        }),
        "store-full" => Some(Reply::StoreFull {
            used: number(value, "used"),
            size: number(value, "size"),
        }),
        "no-message" => Some(Reply::NoMessage { edition }),
        "not-yet" => Some(Reply::NotYet {
            edition,
            since: number(value, "since"),
        }),
        "too-long" => Some(Reply::TooLong { edition }),
        _ => None,
    }
}

/// The reply with this `ok`.
fn accepted(alloc: Global, value: &Value) -> Result<Option<Reply>, AllocError> {
    let edition = number(value, "edition");
    Ok(match text(value, "ok") {
        "publish" => Some(Reply::Accepted {
            edition,
            op: Op::Publish,
        }),
        "locale" => Some(Reply::Accepted {
            edition,
            op: Op::Locale,
        }),
        "handler" => Some(Reply::Accepted {
            edition,
            op: Op::Handler,
        }),
        "stat" => Some(Reply::Stat {
            edition,
            starts: number(value, "starts"),
            quits: number(value, "quits"),
        }),
        "lint" => Some(match text_of(alloc, value, "source")? {
            Some(source) => Reply::LintValid { source },
            None => Reply::LintInvalid {
                faults: faults(alloc, value)?,
            },
        }),
        "format" => Some(Reply::Formatted {
            edition,
            tag: tag(alloc, text(value, "locale"))?,
            parts: parts(alloc, value)?,
            faults: faults(alloc, value)?,
        }),
        _ => None,
    })
}

fn tag(alloc: Global, spelled: &str) -> Result<Tag, AllocError> {
    match read_tag(alloc, spelled) {
        Ok(tag) => Ok(tag),
        Err(_) => Tag::und(alloc),
    }
}

/// The errors of a reply.
fn faults(alloc: Global, value: &Value) -> Result<Faults, AllocError> {
    let mut faults = Faults::new(alloc);
    if let Some(objects) = value.get("errors").and_then(Value::as_array) {
        for object in objects {
            if let Some(kind) = kind(text(object, "kind")) {
                let of = Text::of(alloc, text(object, "of"))?;
                faults.push(Fault { kind, of })?;
            }
        }
    }
    Ok(faults)
}

/// The class of errors with this name.
fn kind(name: &str) -> Option<Kind> {
    [
        Kind::Syntax,
        Kind::Limit,
        Kind::VariantKeyMismatch,
        Kind::MissingFallbackVariant,
        Kind::MissingSelectorAnnotation,
        Kind::DuplicateDeclaration,
        Kind::DuplicateOptionName,
        Kind::DuplicateVariant,
        Kind::UnresolvedVariable,
        Kind::UnknownFunction,
        Kind::BadSelector,
        Kind::BadOperand,
        Kind::BadOption,
        Kind::BadVariantKey,
    ]
    .into_iter()
    .find(|kind| kind.as_str() == name)
}

/// The field of a request with this name.
fn request_field(name: &str) -> Option<Field> {
    [
        Field::Op,
        Field::Locale,
        Field::Messages,
        Field::Tag,
        Field::Record,
        Field::Name,
        Field::Def,
        Field::Kind,
        Field::Base,
        Field::Options,
        Field::Prefix,
        Field::Suffix,
        Field::Entries,
        Field::Default,
        Field::Id,
        Field::Args,
        Field::Since,
        Field::Source,
    ]
    .into_iter()
    .find(|field| field.as_str() == name)
}

/// The field of a locale record with this name.
fn record_field(name: &str) -> Option<RecordField> {
    [
        RecordField::Version,
        RecordField::Dir,
        RecordField::Decimal,
        RecordField::Group,
        RecordField::Minus,
        RecordField::Plus,
        RecordField::Primary,
        RecordField::Secondary,
        RecordField::MinGroup,
        RecordField::Plural,
        RecordField::Ordinal,
    ]
    .into_iter()
    .find(|field| field.as_str() == name)
}

/// The reason with this name.
fn reason(name: &str) -> Option<Reason> {
    match name {
        "reserved-name" => Some(Reason::ReservedName),
        "bad-base" => Some(Reason::BadBase),
        "bad-option" => Some(Reason::BadOption),
        "repeated-key" => Some(Reason::RepeatedKey),
        _ => None,
    }
}
