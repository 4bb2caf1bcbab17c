//! The program `mf_wire_rows`: looks whether requests are read, published and found again as the
//! rows of `lines.txt` and `editions.txt` say, and whether replies are written as the lines of
//! `replies.txt`; prints each difference and how many there are.
//!
//! A row is a request behind `> `, or a question about the editions made so far behind `? `; below
//! it stands what is told, behind `< `. A request that publishes makes an edition, and an empty
//! line begins again with no edition. What is asked: `items`, the messages in the order of their
//! indices; `find en a`, the index of a message; `along en-GB a`, where it is found along the chain
//! of the tag; `decimal en-GB`, the decimal separator of the record that speaks for the tag;
//! `handler a:b`, what the handler of the name does; `argument a`, the argument of the last
//! request; `used`, the bytes of the log. A reply line stands behind `= `: it is read as JSON, made
//! a reply by the names of its members, and has to be the line of that.
#![tactic(auto)]

mod asking;
mod parts;
mod replies;
mod telling;

use asking::Session;
use replies::written;
use std::process::ExitCode;
use std::{fs, io};

/// How many rows there were, and how many of them differ from what was expected.
#[derive(Clone, Copy)]
struct Counts {
    rows: u64,
    differences: u64,
}

fn main(rt: HostRuntime) -> io::Result<ExitCode> {
    let mut counts = Counts {
        rows: 0,
        differences: 0,
    };
    for file in ["lines.txt", "editions.txt", "replies.txt"] {
        let text = fs::read_to_string(&rt, file)?;
        for block in text.as_str().split("\n\n") {
            counts = look_at(&rt, counts, block)?;
        }
    }
    let Counts { rows, differences } = counts;
    println!(rt; "{rows} rows, {differences} differences")?;
    Ok(ExitCode::from(u8::from(differences != 0)))
}

/// Looks at a block of rows.
fn look_at(rt: &HostRuntime, counts: Counts, block: &str) -> io::Result<Counts> {
    let mut counts = counts;
    let mut session = Session::new(rt.alloc())?;
    let mut asked = String::new(rt.alloc());
    let mut told = String::new(rt.alloc());
    for line in block.lines() {
        if let Some(request) = line.strip_prefix("> ") {
            told = session.request(rt.alloc(), request)?;
            asked = String::from_str(rt.alloc(), line)?;
        } else if let Some(question) = line.strip_prefix("? ") {
            told = session.question(rt.alloc(), question)?;
            asked = String::from_str(rt.alloc(), line)?;
        } else if let Some(expected) = line.strip_prefix("< ") {
            counts = compare(rt, counts, asked.as_str(), told.as_str(), expected)?;
        } else if let Some(reply) = line.strip_prefix("= ") {
            let line = written(rt.alloc(), reply)?;
            counts = compare(rt, counts, "a reply", line.as_str(), reply)?;
        }
    }
    Ok(counts)
}

/// Counts a row, and prints where it differs from what was expected.
fn compare(
    rt: &HostRuntime,
    counts: Counts,
    asked: &str,
    told: &str,
    expected: &str,
) -> io::Result<Counts> {
    let mut counts = counts;
    counts.rows = counts.rows.saturating_add(1);
    if told != expected {
        counts.differences = counts.differences.saturating_add(1);
        println!(rt; "{asked}\n  is told {told}\n  and not {expected}")?;
    }
    Ok(counts)
}

#[cfg(test)]
mod edition_tests;
#[cfg(test)]
mod line_tests;
#[cfg(test)]
mod part_tests;
