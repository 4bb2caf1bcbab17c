//! The program `mf_session_rows`: looks at sessions over a shared log, and prints each difference
//! and how many there are.
//!
//! In `sessions.txt` a session is a block of lines: a request stands behind `> `, its reply behind
//! `< `. Blocks are separated by empty lines, and a line that begins with `# ` is a comment. Each
//! session is answered by a hub and by the desk of one caller: whole, in pieces of seven bytes, and
//! byte by byte.
//!
//! In `held.txt` the number of a caller stands before each mark. Caller 0 is answered first. Then
//! callers 1 and 2 are answered in threads: caller 1 is held before its second pin until caller 2
//! is answered, and that begins when caller 1 is held.
//!
//! In the end two callers publish and ask for sentences in threads, and `legal` judges what came of
//! it; once more with their numbers exchanged.
#![tactic(auto)]

mod callers;
mod gates;
mod history;
mod pieces;
mod rows;
mod scripts;
mod several;
mod single;

use history::{judged, verdict_text};
use mf_io::Status;
use rows::lines_behind;
use scripts::script;
use several::{held, together};
use single::{alone, shared};
use std::alloc::Global;
use std::process::ExitCode;
use std::sync::Wait;
use std::thread::Threads;
use std::{fs, io};

/// The lengths of the pieces in which an input comes.
const LENGTHS: [usize; 3] = [1 << 20, 7, 1];

/// How often each of two callers publishes.
const ROUNDS: u64 = 500;

/// Prints a difference, if what came isn't what was expected: whether it is.
fn tell<R: Print>(
    rt: &R,
    what: &str,
    status: Status,
    came: &[u8],
    expected: &str,
) -> io::Result<bool> {
    if status == Status::Ended && came == expected.as_bytes() {
        return Ok(true);
    }
    let number = status.number();
    let came = str::from_utf8(came).unwrap_or("no UTF-8\n");
    println!(rt; "{what}: status {number},\n{came}and not\n{expected}")?;
    Ok(false)
}

/// Answers a session by a hub and by a desk: how many of the answers differ from its replies.
fn look_at<R: Wait + Print>(
    rt: &R,
    alloc: Global,
    requests: &str,
    replies: &str,
) -> io::Result<u64> {
    let mut differences: u64 = 0;
    for length in LENGTHS {
        let (status, output) = shared(rt, alloc, requests.as_bytes(), length)?;
        if !tell(rt, "by a hub", status, &output, replies)? {
            differences = differences.saturating_add(1);
        }
        let (status, output) = alone(alloc, requests.as_bytes(), length)?;
        if !tell(rt, "by a desk", status, &output, replies)? {
            differences = differences.saturating_add(1);
        }
    }
    Ok(differences)
}

/// Answers the sessions of one caller.
fn look_at_sessions<R: Wait + Print>(rt: &R, alloc: Global, text: &str) -> io::Result<u64> {
    let mut sessions: u64 = 0;
    let mut lines: u64 = 0;
    let mut differences: u64 = 0;
    for block in text.split("\n\n") {
        let requests = lines_behind(alloc, block, "> ")?;
        let replies = lines_behind(alloc, block, "< ")?;
        if requests.is_empty() {
            continue;
        }
        sessions = sessions.saturating_add(1);
        lines = lines.saturating_add(requests.as_str().lines().count() as u64);
        let differing = look_at(rt, alloc, requests.as_str(), replies.as_str())?;
        differences = differences.saturating_add(differing);
    }
    println!(rt; "{sessions} sessions of {lines} lines, {differences} differences")?;
    Ok(differences)
}

/// Answers three callers, of which one is held.
fn look_at_held<R: Threads + Wait + Sync + Print>(
    rt: &R,
    alloc: Global,
    text: &str,
) -> io::Result<u64> {
    let zero = lines_behind(alloc, text, "0> ")?;
    let one = lines_behind(alloc, text, "1> ")?;
    let two = lines_behind(alloc, text, "2> ")?;
    let inputs = [zero.as_bytes(), one.as_bytes(), two.as_bytes()];
    let told = held(rt, alloc, inputs)?;
    let mut differences: u64 = 0;
    for caller in told.as_slice() {
        let number = caller.pass.number();
        let mark = format!(in alloc; "{number}< ")?;
        let replies = lines_behind(alloc, text, mark.as_str())?;
        let what = format!(in alloc; "caller {number}")?;
        let output = &caller.output;
        if !tell(rt, what.as_str(), caller.status, output, replies.as_str())? {
            differences = differences.saturating_add(1);
        }
    }
    let count = told.len();
    println!(rt; "{count} callers, one of them held, {differences} differences")?;
    Ok(differences)
}

/// Answers two callers at once, and prints what `legal` says of it.
fn look_at_two<R: Threads + Wait + Sync + Print>(rt: &R, alloc: Global) -> io::Result<()> {
    let one = script(alloc, 1, ROUNDS)?;
    let two = script(alloc, 2, ROUNDS)?;
    let (spoken, log) = together(rt, alloc, one.as_bytes(), two.as_bytes())?;
    let mut spoken = spoken;
    let Some(log) = log else {
        println!(rt; "a hub that isn't closed")?;
        return Ok(());
    };
    let entries = log.len();
    let verdict = verdict_text(alloc, judged(alloc, &log, &spoken)?)?;
    println!(rt; "two callers, {entries} entries: {verdict}")?;
    for one in spoken.as_mut_slice() {
        one.caller = 3u64.saturating_sub(one.caller);
    }
    let verdict = verdict_text(alloc, judged(alloc, &log, &spoken)?)?;
    println!(rt; "each with the lines of the other: {verdict}")?;
    Ok(())
}

fn main(rt: HostRuntime) -> io::Result<ExitCode> {
    let alloc = rt.alloc();
    let text = fs::read_to_string(&rt, "sessions.txt")?;
    let sessions = look_at_sessions(&rt, alloc, text.as_str())?;
    let text = fs::read_to_string(&rt, "held.txt")?;
    let held = look_at_held(&rt, alloc, text.as_str())?;
    look_at_two(&rt, alloc)?;
    Ok(ExitCode::from(u8::from(sessions != 0 || held != 0)))
}
