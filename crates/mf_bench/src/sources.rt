//! Large messages, checked many times.

use mf_check::faults;
use mf_parse::{ParseError, parse};
use std::alloc::{AllocError, Global};

/// The number of errors of a matcher with four selectors and this many variants, over so many
/// checks.
pub fn variants_sum(alloc: Global, variants: u64, count: u64) -> Result<u64, AllocError> {
    let mut source = String::from_str(alloc, ".match $a $b $c $d")?;
    for number in 0..variants {
        let keys = number % 7;
        source.push_str(format!(in alloc; " a{number} b{keys} * c{{{{}}}}")?.as_str())?;
    }
    checked_sum(alloc, source.as_str(), count)
}

/// The number of errors of a message with this many declarations of a hundred options each, over so
/// many checks.
pub fn declarations_sum(alloc: Global, declarations: u64, count: u64) -> Result<u64, AllocError> {
    let mut source = String::new(alloc);
    for number in 0..declarations {
        source.push_str(format!(in alloc; ".local $v{number} = {{1 :f")?.as_str())?;
        for option in 0..100u64 {
            source.push_str(format!(in alloc; " o{option}=$w{option}")?.as_str())?;
        }
        source.push('}')?;
    }
    source.push_str("{{}}")?;
    checked_sum(alloc, source.as_str(), count)
}

fn checked_sum(alloc: Global, source: &str, count: u64) -> Result<u64, AllocError> {
    let message = match parse(alloc, source) {
        Ok(message) => message,
        Err(ParseError::Syntax) => return Ok(0),
        Err(ParseError::OutOfMemory) => return Err(AllocError),
    };
    let mut sum = 0u64;
    for _ in 0..count {
        sum = sum.wrapping_add(faults(alloc, &message)?.len() as u64);
    }
    Ok(sum)
}
