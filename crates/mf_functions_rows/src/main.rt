//! The program `mf_functions_rows`: looks whether the built-in functions and handlers give what the
//! rows of `rows.txt` say, and prints each difference and how many there are.
//!
//! A row is an operand, calls behind `|`, and, behind `?`, keys that are ranked; then `=>` and what
//! is expected: the shown text or `bad-operand`, the places of the options that the last call
//! refuses, and the ranks. `-` is no operand, `{` begins the source of a fallback, and an option
//! `name=$text` is given by a variable. A line `record` names the JSON of the locale of the rows
//! below it, a line `handler` a name and the JSON of what it does, and a row `check` says what is
//! wrong with such.
#![tactic(auto)]

mod asking;
mod handlers;

use asking::answer_of;
use handlers::{Handler, checked, handler_of};
use mf_locale::{LocaleError, LocaleRecord, read_record, root};
use serde_json::Value;
use std::alloc::{AllocError, Global};
use std::process::ExitCode;
use std::{fs, io};

/// How many rows there were, and how many of them differ from what was expected.
#[derive(Drop)]
struct Counts {
    rows: u64,
    differences: u64,
}

/// The locale record of a JSON text, or none where it is no record.
fn record_of(alloc: Global, json: &str) -> Result<Option<LocaleRecord>, AllocError> {
    let Ok(value) = Value::from_str(alloc, json) else {
        return Ok(None);
    };
    match read_record(alloc, &value) {
        Ok(record) => Ok(Some(record)),
        Err(LocaleError::OutOfMemory) => Err(AllocError),
        Err(_) => Ok(None),
    }
}

/// The answer to a row: what is wrong with a handler, or what calls give.
fn answer(
    alloc: Global,
    record: &LocaleRecord,
    handlers: &[Handler],
    asked: &str,
) -> Result<String, AllocError> {
    let Some(line) = asked.strip_prefix("check ") else {
        return answer_of(alloc, record, handlers, asked);
    };
    match handler_of(alloc, line)? {
        Some(handler) => checked(alloc, &handler),
        None => String::from_str(alloc, "no handler"),
    }
}

/// Looks at one row.
fn look(
    rt: &HostRuntime,
    record: &LocaleRecord,
    handlers: &[Handler],
    row: &str,
    counts: &mut Counts,
) -> io::Result<()> {
    let (asked, expected) = row.split_once(" => ").unwrap_or((row, ""));
    let answer = answer(rt.alloc(), record, handlers, asked)?;
    counts.rows = counts.rows.saturating_add(1);
    if answer.as_str() != expected {
        counts.differences = counts.differences.saturating_add(1);
        println!(rt; "{asked} => {answer}, and not {expected}")?;
    }
    Ok(())
}

fn main(rt: HostRuntime) -> io::Result<ExitCode> {
    let rows = fs::read_to_string(&rt, "rows.txt")?;
    let mut record = root(rt.alloc())?;
    let mut handlers = Vec::new(rt.alloc());
    let mut counts = Counts {
        rows: 0,
        differences: 0,
    };
    for row in rows.as_str().lines() {
        if row.is_empty() || row.starts_with('#') {
            continue;
        }
        if let Some(json) = row.strip_prefix("record ") {
            match record_of(rt.alloc(), json)? {
                Some(read) => record = read,
                None => println!(rt; "no record: {json}")?,
            }
        } else if let Some(line) = row.strip_prefix("handler ") {
            match handler_of(rt.alloc(), line)? {
                Some(handler) => handlers.push(handler)?,
                None => println!(rt; "no handler: {line}")?,
            }
        } else {
            look(&rt, &record, handlers.as_slice(), row, &mut counts)?;
        }
    }
    let Counts { rows, differences } = counts;
    println!(rt; "{rows} rows, {differences} differences")?;
    Ok(ExitCode::from(u8::from(differences != 0)))
}
