//! What sources spell, and what is wrong with them.
use mf_check::faults;
use mf_lint::{Linted, lint};
use mf_parse::{ParseError, parse};
use mf_print::print;
use mf_tree::Faults;
use std::alloc::{AllocError, Global};

/// The canonical source of the message that a source spells.
pub fn message_of(alloc: Global, source: &str) -> Result<String, AllocError> {
    match parse(alloc, source) {
        Ok(message) => Ok(print(alloc, &message)?.into_string()),
        Err(ParseError::Syntax) => String::from_str(alloc, "no message"),
        Err(ParseError::OutOfMemory) => Err(AllocError),
    }
}

/// The same of a source with some space for each `~`, and with that and a space for each `_`.
pub fn spaced_message_of(alloc: Global, source: &str, space: &str) -> Result<String, AllocError> {
    let mut spaced = String::new(alloc);
    for c in source.chars() {
        match c {
            '~' => spaced.push_str(space)?,
            '_' => {
                spaced.push_str(space)?;
                spaced.push(' ')?;
            }
            _ => spaced.push(c)?,
        }
    }
    message_of(alloc, spaced.as_str())
}

/// The errors of the message that a source spells.
pub fn errors_of(alloc: Global, source: &str) -> Result<String, AllocError> {
    match parse(alloc, source) {
        Ok(message) => told(alloc, &faults(alloc, &message)?),
        Err(ParseError::Syntax) => String::from_str(alloc, "no message"),
        Err(ParseError::OutOfMemory) => Err(AllocError),
    }
}

/// The canonical source of a source, or its errors.
pub fn linted(alloc: Global, source: &str) -> Result<String, AllocError> {
    match lint(alloc, source)? {
        Linted::Valid(canonical) => linted_again(alloc, canonical.into_string()),
        Linted::Invalid(faults) => told(alloc, &faults),
    }
}

/// A canonical source, and what is said of it where that is something else.
fn linted_again(alloc: Global, canonical: String) -> Result<String, AllocError> {
    let again = match lint(alloc, canonical.as_str())? {
        Linted::Valid(again) => again.into_string(),
        Linted::Invalid(faults) => told(alloc, &faults)?,
    };
    if again == canonical {
        return Ok(canonical);
    }
    format!(in alloc; "{canonical}, and of that {again}")
}

/// Each error with its class and what it is about.
fn told(alloc: Global, faults: &Faults) -> Result<String, AllocError> {
    let mut told = String::new(alloc);
    for fault in faults.as_slice() {
        if !told.is_empty() {
            told.push_str("; ")?;
        }
        told.push_str(fault.kind.as_str())?;
        if !fault.of.as_str().is_empty() {
            told.push(' ')?;
            told.push_str(fault.of.as_str())?;
        }
    }
    if told.is_empty() {
        told.push_str("no errors")?;
    }
    Ok(told)
}
