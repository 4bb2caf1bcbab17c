//! The program `mf2d_rows`: looks whether `pipe` answers the sessions of `sessions.txt` and of
//! `formatting.txt`, which are the examples of docs/formatting.md, as they say, and prints each
//! difference and how many there are.
//!
//! A session is a block of lines: a request stands behind `> `, its reply behind `< `. Blocks are
//! separated by empty lines, and a line that begins with `# ` is a comment. Each session is
//! answered three times: whole, in pieces of seven bytes, and byte by byte.
#![tactic(auto)]

mod running;

use running::answered;
use std::process::ExitCode;
use std::{fs, io};

/// The lengths of the pieces in which an input comes.
const LENGTHS: [usize; 3] = [1 << 20, 7, 1];

/// What was found so far.
#[derive(Clone, Copy)]
struct Found {
    sessions: u64,
    lines: u64,
    differences: u64,
}

fn main(rt: HostRuntime) -> io::Result<ExitCode> {
    let mut found = Found {
        sessions: 0,
        lines: 0,
        differences: 0,
    };
    for file in ["sessions.txt", "formatting.txt"] {
        let text = fs::read_to_string(&rt, file)?;
        for block in text.as_str().split("\n\n") {
            found = look_at(&rt, found, block)?;
        }
    }
    let Found {
        sessions,
        lines,
        differences,
    } = found;
    println!(rt; "{sessions} sessions of {lines} lines, {differences} differences")?;
    Ok(ExitCode::from(u8::from(differences != 0)))
}

/// Looks at a session.
fn look_at(rt: &HostRuntime, found: Found, block: &str) -> io::Result<Found> {
    let mut found = found;
    let requests = lines_behind(rt, block, "> ")?;
    let replies = lines_behind(rt, block, "< ")?;
    if requests.is_empty() {
        return Ok(found);
    }
    found.sessions = found.sessions.saturating_add(1);
    found.lines = found
        .lines
        .saturating_add(requests.as_str().lines().count() as u64);
    for length in LENGTHS {
        let answer = answered(rt.alloc(), requests.as_bytes(), length)?;
        if answer.as_slice() != replies.as_bytes() {
            found.differences = found.differences.saturating_add(1);
            let answer = str::from_utf8(&answer).unwrap_or("no UTF-8\n");
            println!(rt; "in pieces of {length}:\n{requests}gets\n{answer}and not\n{replies}")?;
        }
    }
    Ok(found)
}

/// The lines of a block that stand behind a mark, each with its line feed.
fn lines_behind(rt: &HostRuntime, block: &str, mark: &str) -> io::Result<String> {
    let mut text = String::new(rt.alloc());
    for line in block.lines() {
        if let Some(line) = line.strip_prefix(mark) {
            text.push_str(line)?;
            text.push('\n')?;
        }
    }
    Ok(text)
}

#[cfg(test)]
mod io_tests;
#[cfg(test)]
mod run_tests;
#[cfg(test)]
mod sentence_tests;
#[cfg(test)]
mod session_tests;
