//! The program `mf_resolve_rows`: looks whether the expressions and selectors of messages come to
//! what the rows of `rows.txt` say, and prints each difference and how many there are.
//!
//! A row is a source and, behind `??`, its arguments: `name=text`, or `name=#number`. Behind `=>`
//! stand the position of the chosen variant, as `[0]`, if there are any, what the expressions and
//! the markup of the pattern come to, and the errors. A fallback is shown as `{source}`, and of
//! markup its options as `<name=text, ..>`; a direction that `u:dir` sets stands behind `!`, an id
//! behind `#`. A line `record` names the JSON of the locale of the rows below it.
#![tactic(auto)]

mod asking;

use asking::answer_of;
use mf_locale::{LocaleError, LocaleRecord, read_record, root};
use serde_json::Value;
use std::alloc::{AllocError, Global};
use std::process::ExitCode;
use std::{fs, io};

/// The locale record of a JSON text, or none where it is no record.
fn record_of(alloc: Global, json: &str) -> Result<Option<LocaleRecord>, AllocError> {
    let Ok(value) = Value::from_str(alloc, json) else {
        return Ok(None);
    };
    match read_record(alloc, &value) {
        Ok(record) => Ok(Some(record)),
        Err(LocaleError::OutOfMemory) => Err(AllocError),
        Err(_) => Ok(None),
    }
}

/// How many rows there were, and how many of them differ from what was expected.
#[derive(Drop)]
struct Counts {
    rows: u64,
    differences: u64,
}

/// Looks at one row.
fn look(rt: &HostRuntime, record: &LocaleRecord, row: &str, counts: &mut Counts) -> io::Result<()> {
    let (asked, expected) = row.split_once(" => ").unwrap_or((row, ""));
    let answer = answer_of(rt.alloc(), record, asked)?;
    counts.rows = counts.rows.saturating_add(1);
    if answer.as_str() != expected {
        counts.differences = counts.differences.saturating_add(1);
        println!(rt; "{asked} => {answer}, and not {expected}")?;
    }
    Ok(())
}

fn main(rt: HostRuntime) -> io::Result<ExitCode> {
    let text = fs::read_to_string(&rt, "rows.txt")?;
    let mut record = root(rt.alloc())?;
    let mut counts = Counts {
        rows: 0,
        differences: 0,
    };
    for row in text.as_str().lines() {
        if row.is_empty() || row.starts_with("# ") {
            continue;
        }
        if let Some(json) = row.strip_prefix("record ") {
            match record_of(rt.alloc(), json)? {
                Some(read) => record = read,
                None => println!(rt; "no record: {json}")?,
            }
        } else {
            look(&rt, &record, row, &mut counts)?;
        }
    }
    let Counts { rows, differences } = counts;
    println!(rt; "{rows} rows, {differences} differences")?;
    Ok(ExitCode::from(u8::from(differences != 0)))
}

#[cfg(test)]
mod plan_tests;
#[cfg(test)]
mod tests;
