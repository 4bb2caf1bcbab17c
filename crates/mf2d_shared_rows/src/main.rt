//! The program `mf2d_shared_rows`: lets the callers of scripts send their requests at once, reads
//! what `rehearse` printed of each a second time, and judges it.
//!
//! The scripts of `scripts.txt` are blocks of lines: a line of the script stands behind `> `, and a
//! line that is printed behind `< `, where all of them are known beforehand. Blocks are separated
//! by empty lines, and a line that begins with `# ` is a comment. What is printed is cut into the
//! replies to each caller and the log, the log is made again from the publications that were
//! accepted, and `legal` judges them. Then `serve` serves connections of memory.
#![tactic(auto)]

mod crowd;
mod faults;
mod judging;
mod meeting;
mod running;
mod serving;

use judging::judged;
use meeting::Meeting;
use mf_io::NoGate;
use running::rehearsed;
use std::process::ExitCode;
use std::sync::Wait;
use std::thread::Threads;
use std::{fs, io};

/// The lines of a block that stand behind a mark, each with its line feed.
fn lines_behind(rt: &HostRuntime, block: &str, mark: &str) -> io::Result<String> {
    let mut text = String::new(rt.alloc());
    for line in block.lines() {
        if let Some(line) = line.strip_prefix(mark) {
            text.push_str(line)?;
            text.push('\n')?;
        }
    }
    Ok(text)
}

/// Looks at a script: says whether all is as it has to be.
fn look_at<R: Threads + Wait + Sync>(
    rt: &HostRuntime,
    threads: &R,
    block: &str,
) -> io::Result<bool> {
    let script = lines_behind(rt, block, "> ")?;
    let expected = lines_behind(rt, block, "< ")?;
    let printed = rehearsed(threads, rt.alloc(), script.as_str(), &NoGate)?;
    let told = judged(rt.alloc(), script.as_str(), printed.as_str())?;
    let is_as_said = expected.is_empty() || expected.as_str() == printed.as_str();
    if told.as_str() != "yes" || !is_as_said {
        println!(rt; "{told}:\n{script}gets\n{printed}and not\n{expected}")?;
    }
    Ok(told.as_str() == "yes" && is_as_said)
}

/// Looks at every script of the file.
fn look_at_all<R: Threads + Wait + Sync>(rt: &HostRuntime, threads: &R) -> io::Result<u64> {
    let text = fs::read_to_string(rt, "scripts.txt")?;
    let mut scripts: u64 = 0;
    let mut differences: u64 = 0;
    for block in text.as_str().split("\n\n") {
        scripts = scripts.saturating_add(1);
        if !look_at(rt, threads, block)? {
            differences = differences.saturating_add(1);
        }
    }
    println!(rt; "{scripts} scripts, {differences} differences")?;
    Ok(differences)
}

/// Lets eight callers send a thousand requests each.
fn look_at_crowd<R: Threads + Wait + Sync>(rt: &HostRuntime, threads: &R) -> io::Result<()> {
    let script = crowd::script(rt.alloc())?;
    let printed = rehearsed(threads, rt.alloc(), script.as_str(), &NoGate)?;
    let lines = script.as_str().lines().count();
    let entries = judging::entries_in(printed.as_str());
    let told = judged(rt.alloc(), script.as_str(), printed.as_str())?;
    println!(rt; "eight callers, {lines} lines, {entries} entries: {told}")?;
    Ok(())
}

/// Lets the first of two callers wait for the second before it pins an edition.
fn look_at_meeting<R: Threads + Wait + Sync>(rt: &HostRuntime, threads: &R) -> io::Result<()> {
    let script = "1 {\"op\":\"format\",\"locale\":\"en\",\"id\":\"a\"}\n\
        2 {\"op\":\"format\",\"locale\":\"en\",\"id\":\"a\"}\n";
    let meeting = Meeting::new();
    let printed = rehearsed(threads, rt.alloc(), script, &meeting)?;
    let told = judged(rt.alloc(), script, printed.as_str())?;
    let came = meeting.has_met();
    println!(rt; "two callers, the second came while the first waited: {came}, {told}")?;
    Ok(())
}

fn main(rt: HostRuntime) -> io::Result<ExitCode> {
    let differences = look_at_all(&rt, &rt)?;
    look_at_crowd(&rt, &rt)?;
    look_at_meeting(&rt, &rt)?;
    faults::look_at(&rt, &rt)?;
    serving::look_at(&rt, &rt)?;
    Ok(ExitCode::from(u8::from(differences != 0)))
}
