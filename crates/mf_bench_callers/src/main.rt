//! The program `mf_bench_callers`: does the steps of several callers many times, so that
//! `bench/run` can time them.
//!
//! Its words are `asks COUNT` (as many entries of an edition asked for and made ready), `retire
//! COUNT` (the same, and the edition retired), `events COUNT` (so many events of a mixed script),
//! `turns THREADS COUNT` (so many turns in each thread) and `counts COUNT`. It prints one line, a
//! number that comes of all calls, so that none can be left out. After any other words it ends with
//! status 1.
#![tactic(auto)]

mod entries;
mod events;
mod turns;

use std::alloc::{AllocError, Global};
use std::process::ExitCode;
use std::sync::Wait;
use std::thread::Threads;
use std::{env, io};

/// What the command line asks for.
#[derive(Clone, Copy)]
enum Task {
    Asks { count: u32 },
    Retire { count: u32 },
    Events { count: u64 },
    Turns { threads: usize, count: u64 },
    Counts { count: u64 },
}

/// What the words after the program's name ask for, or none where they are other words.
fn read_task(rt: &HostRuntime) -> io::Result<Option<Task>> {
    let mut words = env::args(rt)?.skip(1);
    let (Some(call), Some(first), second, None) = (
        words.next(),
        words.next(),
        words.next(),
        words.next(),
    ) else {
        return Ok(None);
    };
    Ok(match &second {
        None => task_of(call.as_str(), first.as_str()),
        Some(second) => turns_of(call.as_str(), first.as_str(), second.as_str()),
    })
}

/// A task with a count alone.
fn task_of(call: &str, count: &str) -> Option<Task> {
    match call {
        "asks" => Some(Task::Asks {
            count: count.parse::<u32>().ok()?,
        }),
        "retire" => Some(Task::Retire {
            count: count.parse::<u32>().ok()?,
        }),
        "events" => Some(Task::Events {
            count: count.parse::<u64>().ok()?,
        }),
        "counts" => Some(Task::Counts {
            count: count.parse::<u64>().ok()?,
        }),
        _ => None,
    }
}

/// The task with a number of threads and a count.
fn turns_of(call: &str, threads: &str, count: &str) -> Option<Task> {
    if call != "turns" {
        return None;
    }
    Some(Task::Turns {
        threads: threads.parse::<usize>().ok()?,
        count: count.parse::<u64>().ok()?,
    })
}

/// What comes of a task.
fn outcome<R: Threads + Wait + Sync>(rt: &R, alloc: Global, task: Task) -> Result<u64, AllocError> {
    match task {
        Task::Asks { count } => entries::asked(alloc, count),
        Task::Retire { count } => entries::retired(alloc, count),
        Task::Events { count } => events::told(alloc, count),
        Task::Turns { threads, count } => turns::taken(rt, alloc, threads, count),
        Task::Counts { count } => turns::counted(alloc, count),
    }
}

fn main(rt: HostRuntime) -> io::Result<ExitCode> {
    if let Some(task) = read_task(&rt)? {
        let outcome = outcome(&rt, rt.alloc(), task)?;
        println!(rt; "{outcome}")?;
        Ok(ExitCode::SUCCESS)
    } else {
        eprintln!(rt;
            "usage: mf_bench_callers asks|retire|events|counts COUNT, or mf_bench_callers turns THREADS COUNT"
        )?;
        Ok(ExitCode::FAILURE)
    }
}
