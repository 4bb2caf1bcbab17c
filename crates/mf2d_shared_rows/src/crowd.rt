//! A script of eight callers with a thousand lines each.
use std::alloc::{AllocError, Global};

/// How many lines each of the eight callers has.
const LINES: u32 = 1000;

/// How many messages are published again and again.
const MESSAGES: u32 = 50;

/// The line of a caller with this number.
fn line(alloc: Global, caller: u32, number: u32) -> Result<String, AllocError> {
    let mix = number.wrapping_mul(7).wrapping_add(caller);
    let message = mix % MESSAGES;
    match mix % 10 {
        0 | 1 => format!(in alloc;
            "{caller} {{\"op\":\"publish\",\"locale\":\"en\",\"messages\":\
            {{\"m{message}\":\"{number} of {caller} for {{$name :acme:tag{caller}}}.\"}}}}\n"
        ),
        2 => format!(in alloc;
            "{caller} {{\"op\":\"handler\",\"name\":\"acme:tag{caller}\",\
            \"def\":{{\"kind\":\"affix\",\"base\":\"string\",\"prefix\":\"{number} <\",\
            \"suffix\":\">\"}}}}\n"
        ),
        3 => format!(in alloc; "{caller} {{\"op\":\"stat\"}}\n"),
        _ => format!(in alloc;
            "{caller} {{\"op\":\"format\",\"locale\":\"en\",\
            \"id\":\"m{message}\",\"args\":{{\"name\":\"Ann {number}\"}}}}\n"
        ),
    }
}

/// The lines of all callers, one after the other.
pub fn script(alloc: Global) -> Result<String, AllocError> {
    let mut script = String::new(alloc);
    for number in 0..LINES {
        for caller in 1..9 {
            script.push_str(line(alloc, caller, number)?.as_str())?;
        }
    }
    Ok(script)
}
