//! Locale records.
use crate::rules::keywords;
use mf_locale::{LocaleError, LocaleRecord, read_record};
use mf_text::Direction;
use serde_json::Value;
use std::alloc::{AllocError, Global};

/// What a record says, or why a value is none.
pub fn answer(alloc: Global, given: &str, asked: &str) -> Result<String, AllocError> {
    let Some(value) = value_of(alloc, given, asked)? else {
        return String::from_str(alloc, "no JSON");
    };
    match read_record(alloc, &value) {
        Ok(record) => told(alloc, &record),
        Err(LocaleError::OutOfMemory) => Err(AllocError),
        Err(error) => format!(in alloc; "{error}"),
    }
}

/// The locale record of a JSON text, or none where it is no record.
pub fn record_of(alloc: Global, json: &str) -> Result<Option<LocaleRecord>, AllocError> {
    let Ok(value) = Value::from_str(alloc, json) else {
        return Ok(None);
    };
    match read_record(alloc, &value) {
        Ok(record) => Ok(Some(record)),
        Err(LocaleError::OutOfMemory) => Err(AllocError),
        Err(_) => Ok(None),
    }
}

/// The record that is given with other fields, or without some, or another value.
fn value_of(alloc: Global, given: &str, asked: &str) -> Result<Option<Value>, AllocError> {
    if let Some(json) = asked.strip_prefix("json ") {
        return Ok(Value::from_str(alloc, json).ok());
    }
    let Ok(mut value) = Value::from_str(alloc, given) else {
        return Ok(None);
    };
    if let Some(json) = asked.strip_prefix("with ") {
        let Ok(fields) = Value::from_str(alloc, json) else {
            return Ok(None);
        };
        put_fields(&mut value, fields)?;
    }
    if let Some(names) = asked.strip_prefix("without ") {
        drop_fields(&mut value, names);
    }
    Ok(Some(value))
}

/// Puts the fields of an object into another one.
fn put_fields(value: &mut Value, fields: Value) -> Result<(), AllocError> {
    if let (Some(object), Value::Object(fields)) = (value.as_object_mut(), fields) {
        for (name, field) in fields {
            object.insert(name, field)?;
        }
    }
    Ok(())
}

/// Takes the fields of these names out of an object.
fn drop_fields(value: &mut Value, names: &str) {
    if let Some(object) = value.as_object_mut() {
        for name in names.split(' ') {
            object.remove(name);
        }
    }
}

fn told(alloc: Global, record: &LocaleRecord) -> Result<String, AllocError> {
    let direction = match record.dir {
        Direction::Ltr => "ltr",
        Direction::Rtl => "rtl",
        Direction::Unknown => "unknown",
    };
    let layout = &record.layout;
    let plural = keywords(alloc, &record.plural)?;
    let ordinal = keywords(alloc, &record.ordinal)?;
    let symbols = format!(in alloc;
        "\"{}\" \"{}\" \"{}\" \"{}\"",
        layout.decimal.as_str(),
        layout.group.as_str(),
        layout.minus.as_str(),
        layout.plus.as_str()
    )?;
    format!(in alloc;
        "{direction} {symbols} {} {} {} | {plural} | {ordinal}",
        layout.primary, layout.secondary, layout.min_group
    )
}
