//! The program `mf_bench_messages`: compiles and resolves a message many times, so that `bench/run`
//! can time it.
//!
//! Its words are `compile SOURCE COUNT`; `render SOURCE COUNT`, in English with a number and a
//! name; `choose SOURCE COUNT`, where each variable is 1; `variants VARIANTS COUNT`, where a
//! matcher of four numbers has so many variants and one more; and `chain USES COUNT`, where 256
//! declarations use each the one before, and the pattern so many times the last. It prints one
//! line, a number that comes of all calls, so that none can be left out. After any other words it
//! ends with status 1.
#![tactic(auto)]

mod chain;
mod choosing;
mod compiling;
mod rendering;

use std::process::ExitCode;
use std::{env, io};

/// What the command line asks for.
#[derive(Drop)]
enum Task {
    Compile { source: String, count: u64 },
    Render { source: String, count: u64 },
    Choose { source: String, count: u64 },
    Variants { variants: u64, count: u64 },
    Chain { uses: u64, count: u64 },
}

/// What the words after the program's name ask for, or none where they are other words.
fn read_task(rt: &HostRuntime) -> io::Result<Option<Task>> {
    let mut words = env::args(rt)?.skip(1);
    let (Some(call), Some(first), Some(count), None) = (
        words.next(),
        words.next(),
        words.next(),
        words.next(),
    ) else {
        return Ok(None);
    };
    Ok(task_of(call.as_str(), first, count.as_str()))
}

/// What three words ask for.
fn task_of(call: &str, first: String, count: &str) -> Option<Task> {
    let count = count.parse::<u64>().ok()?;
    match call {
        "compile" => Some(Task::Compile {
            source: first,
            count,
        }),
        "render" => Some(Task::Render {
            source: first,
            count,
        }),
        "choose" => Some(Task::Choose {
            source: first,
            count,
        }),
        "variants" => Some(Task::Variants {
            variants: first.as_str().parse::<u64>().ok()?,
            count,
        }),
        "chain" => Some(Task::Chain {
            uses: first.as_str().parse::<u64>().ok()?,
            count,
        }),
        _ => None,
    }
}

/// What comes of a task.
fn outcome(rt: &HostRuntime, task: &Task) -> io::Result<u64> {
    let outcome = match task {
        Task::Compile { source, count } => compiling::compiled(
            rt.alloc(),
            source.as_str(),
            *count,
        )?,
        Task::Render { source, count } => rendering::rendered(rt.alloc(), source.as_str(), *count)?,
        Task::Choose { source, count } => choosing::chosen(rt.alloc(), source.as_str(), *count)?,
        Task::Variants { variants, count } => {
            let source = choosing::matcher(rt.alloc(), *variants)?;
            choosing::chosen(rt.alloc(), source.as_str(), *count)?
        }
        Task::Chain { uses, count } => chain::resolved(rt.alloc(), *uses, *count)?,
    };
    Ok(outcome)
}

fn main(rt: HostRuntime) -> io::Result<ExitCode> {
    if let Some(task) = read_task(&rt)? {
        let outcome = outcome(&rt, &task)?;
        println!(rt; "{outcome}")?;
        Ok(ExitCode::SUCCESS)
    } else {
        eprintln!(rt;
            "usage: mf_bench_messages compile SOURCE COUNT, or render SOURCE COUNT, or choose SOURCE COUNT, or variants VARIANTS COUNT, or chain USES COUNT"
        )?;
        Ok(ExitCode::FAILURE)
    }
}
