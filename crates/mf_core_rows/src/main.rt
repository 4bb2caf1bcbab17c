//! The program `mf_core_rows`: looks whether the events of a World are told what the rows of
//! `rows.txt` say, what a plain list of entries says of a random walk, and what a full log says. It
//! prints each difference and how many there are.
//!
//! A row is a list of events, separated by commas, and behind `=>` what the last of them is told,
//! or why it is refused.
#![tactic(auto)]

mod full;
mod plain;
mod rows;
mod telling;
mod walk;

use std::process::ExitCode;
use std::{fs, io};

/// Looks at a row, and says whether it is as expected.
fn is_as_expected(rt: &HostRuntime, row: &str) -> io::Result<bool> {
    let (events, expected) = row.split_once(" => ").unwrap_or((row, ""));
    let told = rows::told(rt.alloc(), events)?;
    if told.as_str() == expected {
        return Ok(true);
    }
    println!(rt; "{events} => {told}, and not {expected}")?;
    Ok(false)
}

fn main(rt: HostRuntime) -> io::Result<ExitCode> {
    let text = fs::read_to_string(&rt, "rows.txt")?;
    let mut rows: u64 = 0;
    let mut differences: u64 = 0;
    for row in text.as_str().lines() {
        if row.is_empty() || row.starts_with("# ") {
            continue;
        }
        rows = rows.saturating_add(1);
        if !is_as_expected(&rt, row)? {
            differences = differences.saturating_add(1);
        }
    }
    println!(rt; "{rows} rows, {differences} differences")?;
    let walk::Tally {
        claimed,
        busy,
        ready,
        differences,
    } = walk::walk(rt.alloc(), 100_000)?;
    println!(rt;
        "100000 events of a random walk: {claimed} claimed, {busy} busy, {ready} ready, {differences} differences"
    )?;
    let told = full::told(rt.alloc(), 65_536)?;
    println!(rt; "65536 publications and one more: {told}")?;
    Ok(ExitCode::SUCCESS)
}

#[cfg(test)]
mod core_tests;
#[cfg(test)]
mod flight_tests;
