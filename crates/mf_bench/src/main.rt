//! The program `mf_bench`: does one call of the decimals, of number texts, of the plural rules, of
//! the built-in functions, of handlers or of the checks of a message many times, so that
//! `bench/run` can time it.
//!
//! Its words are `read TEXT COUNT`, `round TEXT COUNT`, `exact TEXT COUNT`, `text TEXT COUNT`,
//! `category TEXT COUNT RULES`, `number TEXT COUNT`, `options TEXT COUNT` (the same with four
//! options), `shown TEXT COUNT`, `rank TEXT COUNT KEY`, `alias TEXT COUNT` and `affix TEXT COUNT`
//! (with two presets), `table TEXT COUNT ENTRIES`, `variants SIZE COUNT` and `declarations SIZE
//! COUNT`. It prints one line, a sum over the results, so that no call can be left out. After any
//! other words it ends with status 1.
#![tactic(auto)]

mod call;
mod functions;
mod handlers;
mod layouts;
mod repeat;
mod sources;

use call::Call;
use mf_decimal::{Decimal, read};
use mf_plural::{RuleError, Rules, read_rules};
use mf_value::{HandlerDef, Options};
use std::alloc::AllocError;
use std::process::ExitCode;
use std::{env, io};

/// The call, the number's text, the count and the rules or the key that the command line asks for.
#[derive(Drop)]
struct Task {
    call: Call,
    text: String,
    count: u64,
    rules: Option<String>,
}

/// What the words after the program's name ask for, or none where they are other words.
fn read_task(rt: &HostRuntime) -> io::Result<Option<Task>> {
    let mut words = env::args(rt)?.skip(1);
    let (Some(call), Some(text), Some(count), rules, None) = (
        words.next(),
        words.next(),
        words.next(),
        words.next(),
        words.next(),
    ) else {
        return Ok(None);
    };
    let (Some(call), Ok(count)) = (Call::named(call.as_str()), count.parse::<u64>()) else {
        return Ok(None);
    };
    Ok(Some(Task {
        call,
        text,
        count,
        rules,
    }))
}

/// The rules of a task, or none where its rules are missing or bad.
fn rules_of(rt: &HostRuntime, task: &Task) -> Result<Option<Rules>, AllocError> {
    let Some(text) = &task.rules else {
        return Ok(None);
    };
    match read_rules(rt.alloc(), text.as_str()) {
        Ok(rules) => Ok(Some(rules)),
        Err(RuleError::BadRule { .. }) => Ok(None),
        Err(RuleError::OutOfMemory) => Err(AllocError),
    }
}

/// The number of a task as a size, or nought where it is none.
fn size_of(task: &Task) -> u64 {
    task.text.parse::<u64>().unwrap_or(0)
}

/// The sum over the categories of a number, or none where the task has no rules.
fn category_sum(rt: &HostRuntime, task: &Task, number: Decimal) -> Result<Option<u64>, AllocError> {
    let Some(rules) = rules_of(rt, task)? else {
        return Ok(None);
    };
    Ok(Some(repeat::category_sum(&rules, number, task.count)))
}

/// The key of a task, or the empty one where it has none.
fn key_of(task: &Task) -> &str {
    match &task.rules {
        Some(key) => key.as_str(),
        None => "",
    }
}

/// The sum over the calls of a handler.
fn called(rt: &HostRuntime, def: &HandlerDef, task: &Task) -> Result<u64, AllocError> {
    handlers::handler_sum(rt.alloc(), def, task.text.as_str(), task.count)
}

/// The sum over the results, or none where there is no task or its text is no number.
fn sum(rt: &HostRuntime) -> io::Result<Option<u64>> {
    let Some(task) = read_task(rt)? else {
        return Ok(None);
    };
    let Ok(number) = read(task.text.as_str()) else {
        return Ok(None);
    };
    let sum = match task.call {
        Call::Read => repeat::read_sum(task.text.as_str(), task.count),
        Call::Round => repeat::round_sum(number, task.count),
        Call::Exact => repeat::exact_sum(rt.alloc(), number, task.count)?,
        Call::Text => layouts::text_sum(rt.alloc(), number, task.count)?,
        Call::Category => return Ok(category_sum(rt, &task, number)?),
        Call::Number => {
            functions::number_sum(
                rt.alloc(),
                task.text.as_str(),
                &Options::new(rt.alloc()),
                task.count,
            )?
        }
        Call::Options => functions::number_sum(
            rt.alloc(),
            task.text.as_str(),
            &functions::four_options(rt.alloc())?,
            task.count,
        )?,
        Call::Shown => functions::shown_sum(rt.alloc(), task.text.as_str(), task.count)?,
        Call::Rank => functions::rank_sum(
            rt.alloc(),
            task.text.as_str(),
            key_of(&task),
            task.count,
        )?,
        Call::Alias => called(rt, &handlers::alias(rt.alloc())?, &task)?,
        Call::Affix => called(rt, &handlers::affix(rt.alloc())?, &task)?,
        Call::Table => {
            let size = key_of(&task).parse::<u64>().unwrap_or(0);
            called(rt, &handlers::table(rt.alloc(), size)?, &task)?
        }
        Call::Variants => sources::variants_sum(rt.alloc(), size_of(&task), task.count)?,
        Call::Declarations => sources::declarations_sum(rt.alloc(), size_of(&task), task.count)?,
    };
    Ok(Some(sum))
}

fn main(rt: HostRuntime) -> io::Result<ExitCode> {
    if let Some(sum) = sum(&rt)? {
        println!(rt; "{sum}")?;
        Ok(ExitCode::SUCCESS)
    } else {
        eprintln!(rt;
            "usage: mf_bench read|round|exact|text|number|options|shown|alias|affix TEXT COUNT, mf_bench category TEXT COUNT RULES, mf_bench rank TEXT COUNT KEY, mf_bench table TEXT COUNT ENTRIES, or mf_bench variants|declarations SIZE COUNT"
        )?;
        Ok(ExitCode::FAILURE)
    }
}
