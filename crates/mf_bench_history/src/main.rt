//! The program `mf_bench_history`: judges a record of several callers many times, so that
//! `bench/run` can time it.
//!
//! Its words are `record ENTRIES EXCHANGES COUNT`: a log of so many entries, all of caller 0, and
//! so many lines with their replies, of which every one that publishes nothing is of one of ten
//! other callers; it is judged so often. It prints one line, the verdict and how often it came.
//! After any other words it ends with status 1.
#![tactic(auto)]

mod record;

use mf_history::{Verdict, legal};
use record::Record;
use std::alloc::{AllocError, Global};
use std::process::ExitCode;
use std::{env, io};

/// A record, and how often it is judged.
#[derive(Clone, Copy)]
struct Task {
    entries: u32,
    exchanges: u32,
    count: u32,
}

/// The task that the words after the program's name ask for, or none where they are other words.
fn read_task(rt: &HostRuntime) -> io::Result<Option<Task>> {
    let mut words = env::args(rt)?.skip(1);
    let (Some(call), Some(entries), Some(exchanges), Some(count), None) = (
        words.next(),
        words.next(),
        words.next(),
        words.next(),
        words.next(),
    ) else {
        return Ok(None);
    };
    if call.as_str() != "record" {
        return Ok(None);
    }
    Ok(task_of(entries.as_str(), exchanges.as_str(), count.as_str()))
}

fn task_of(entries: &str, exchanges: &str, count: &str) -> Option<Task> {
    Some(Task {
        entries: entries.parse::<u32>().ok()?,
        exchanges: exchanges.parse::<u32>().ok()?,
        count: count.parse::<u32>().ok()?,
    })
}

/// How often a record is judged to be legal.
fn legal_times(alloc: Global, task: Task) -> Result<u64, AllocError> {
    let record = Record::new(alloc, task.entries, task.exchanges)?;
    let mut times: u64 = 0;
    for _ in 0..task.count {
        if let Verdict::Yes = legal(alloc, &record.log, &record.transcripts)? {
            times = times.saturating_add(1);
        }
    }
    Ok(times)
}

fn main(rt: HostRuntime) -> io::Result<ExitCode> {
    if let Some(task) = read_task(&rt)? {
        let times = legal_times(rt.alloc(), task)?;
        println!(rt; "yes {times}")?;
        Ok(ExitCode::SUCCESS)
    } else {
        eprintln!(rt; "usage: mf_bench_history record ENTRIES EXCHANGES COUNT")?;
        Ok(ExitCode::FAILURE)
    }
}
