//! The program `mf_history_rows`: looks whether `legal` says of logs and transcripts what the rows
//! of `rows.txt` say, and prints each difference and how many there are.
//!
//! A line `log` begins a log of no entries. `entry 1 REQUEST` puts an entry of caller 1 to its end,
//! with the change that the request publishes. `1 REQUEST` is a line of caller 1, and the line
//! below it, `= REPLY`, is its reply: lines of one caller that stand together make one transcript.
//! `yes`, or `no CALLER PLACE`, is the verdict on the log and the transcripts since the last
//! verdict.
#![tactic(auto)]

mod case;
mod full;

use case::{Case, verdict_text};
use mf_history::legal;
use std::process::ExitCode;
use std::{fs, io};

/// Takes a row into a case: the verdict that it expects, if it is one.
fn take<'a>(case: &mut Case, rt: &HostRuntime, row: &'a str) -> io::Result<Option<&'a str>> {
    let alloc = rt.alloc();
    if row == "yes" || row.starts_with("no ") {
        return Ok(Some(row));
    }
    if row == "log" {
        case.clear_log(alloc);
    } else if let Some(reply) = row.strip_prefix("= ") {
        case.reply(alloc, reply)?;
    } else if let Some(entry) = row.strip_prefix("entry ") {
        if !case.entry(alloc, entry)? {
            println!(rt; "no entry: {entry}")?;
        }
    } else if !case.line(alloc, row)? {
        println!(rt; "no row: {row}")?;
    }
    Ok(None)
}

/// Prints the verdicts on logs that are full: caller 0 has a line, and caller 1 has entries without
/// one.
fn tell_full(rt: &HostRuntime) -> io::Result<()> {
    let alloc = rt.alloc();
    for entries in ["65536", "65535"] {
        let reply = format!(in alloc; "{{\"entries\":{entries},\"error\":\"editions-full\"}}")?;
        let told = verdict_text(alloc, full::full_log(alloc, reply.as_str())?)?;
        println!(rt; "{entries} entries are all: {told}")?;
    }
    for used in ["268435456", "268435455"] {
        let reply = format!(in alloc; "{{\"error\":\"store-full\",\"size\":67,\"used\":{used}}}")?;
        let told = verdict_text(alloc, full::full_store(alloc, reply.as_str())?)?;
        println!(rt; "{used} bytes are used: {told}")?;
    }
    Ok(())
}

fn main(rt: HostRuntime) -> io::Result<ExitCode> {
    let text = fs::read_to_string(&rt, "rows.txt")?;
    let mut case = Case::new(rt.alloc());
    let mut verdicts: u64 = 0;
    let mut differences: u64 = 0;
    for row in text.as_str().lines() {
        if row.is_empty() || row.starts_with("# ") {
            continue;
        }
        let Some(expected) = take(&mut case, &rt, row)? else {
            continue;
        };
        verdicts = verdicts.saturating_add(1);
        let verdict = legal(rt.alloc(), &case.log, case.transcripts())?;
        let told = verdict_text(rt.alloc(), verdict)?;
        if told.as_str() != expected {
            differences = differences.saturating_add(1);
            println!(rt; "{verdicts}: {told}, and not {expected}")?;
        }
        case.clear_transcripts(rt.alloc());
    }
    tell_full(&rt)?;
    println!(rt; "{verdicts} verdicts, {differences} differences")?;
    Ok(ExitCode::from(u8::from(differences != 0)))
}
