//! The program `mf_bench_hub`: callers of a hub publish, pin and format in threads, so that
//! `bench/run` can time them.
//!
//! Its words are `publications MESSAGES THREADS COUNT` (each thread publishes one of so many
//! messages anew, so often), `pins MESSAGES THREADS COUNT` (each thread pins and unpins the newest
//! edition so often, while one more publishes once for each hundred of them), `plans MESSAGES
//! THREADS COUNT` (each thread pins the newest edition, takes the plan of one of so many messages,
//! all of them ready, formats it and unpins, so often) and `cold MESSAGES THREADS COUNT` (a message
//! is published anew, so that none is ready, and then each thread asks for each of them, so often).
//! It prints one line, the number of the newest edition at the end, and how many calls were
//! refused. After the words `lines hub|desk EVERY COUNT` it answers a caller that asks for so many
//! sentences, and publishes their message before each so many of them, over a hub or at a desk, and
//! prints the status and the bytes of the replies. After any other words it ends with status 1.
#![tactic(auto)]

mod calls;
mod changes;
mod crowd;
mod lines;
mod plans;

use crowd::{Call, Task, outcome};
use lines::{answered, read_lines};
use std::process::ExitCode;
use std::{env, io};

/// The task that the words after the program's name ask for, or none where they are other words.
fn read_task(rt: &HostRuntime) -> io::Result<Option<Task>> {
    let mut words = env::args(rt)?.skip(1);
    let (Some(call), Some(messages), Some(threads), Some(count), None) = (
        words.next(),
        words.next(),
        words.next(),
        words.next(),
        words.next(),
    ) else {
        return Ok(None);
    };
    Ok(task_of(
        call.as_str(),
        messages.as_str(),
        threads.as_str(),
        count.as_str(),
    ))
}

fn task_of(call: &str, messages: &str, threads: &str, count: &str) -> Option<Task> {
    Some(Task {
        call: match call {
            "publications" => Call::Publish,
            "pins" => Call::Pin,
            "plans" => Call::Format,
            "cold" => Call::Ask,
            _ => return None,
        },
        messages: messages.parse::<u32>().ok()?,
        threads: threads.parse::<usize>().ok()?,
        count: count.parse::<u32>().ok()?,
    })
}

fn main(rt: HostRuntime) -> io::Result<ExitCode> {
    if let Some(lines) = read_lines(&rt)? {
        let (status, bytes) = answered(&rt, rt.alloc(), lines)?;
        println!(rt; "{status} {bytes}")?;
        Ok(ExitCode::SUCCESS)
    } else if let Some(task) = read_task(&rt)? {
        let (newest, misses) = outcome(&rt, rt.alloc(), task)?;
        println!(rt; "{newest} {misses}")?;
        Ok(ExitCode::SUCCESS)
    } else {
        eprintln!(rt; "usage: mf_bench_hub publications|pins|plans|cold MESSAGES THREADS COUNT")?;
        Ok(ExitCode::FAILURE)
    }
}
