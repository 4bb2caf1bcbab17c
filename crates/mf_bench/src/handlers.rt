//! Handlers, called many times over the number that a text is.

use crate::functions::text_value;
use mf_handlers::call_handler;
use mf_locale::root;
use mf_text::{Pair, Pairs, Text};
use mf_value::{Entries, HandlerDef, Options};
use std::alloc::{AllocError, Global};

/// The number of values and refused options over so many calls of a handler without options.
pub fn handler_sum(
    alloc: Global,
    def: &HandlerDef,
    text: &str,
    count: u64,
) -> Result<u64, AllocError> {
    let record = root(alloc)?;
    let (one, other) = (text_value(alloc, text)?, text_value(alloc, "0")?);
    let options = Options::new(alloc);
    let mut sum = 0u64;
    if options.len() > 100 {
        return Ok(sum);
    }
    for _ in 0..count {
        let operand = if sum == u64::MAX { &other } else { &one };
        let called = call_handler(alloc, &record, def, Some(operand), &options)?;
        sum = sum.wrapping_add(u64::from(called.value.is_some()));
        sum = sum.wrapping_add(called.faults.len() as u64);
    }
    Ok(sum)
}

/// An alias of `:number` with two presets.
pub fn alias(alloc: Global) -> Result<HandlerDef, AllocError> {
    Ok(HandlerDef::Alias {
        base: Text::of(alloc, "number")?,
        presets: two_presets(alloc)?,
    })
}

/// The same between a prefix and a suffix.
pub fn affix(alloc: Global) -> Result<HandlerDef, AllocError> {
    Ok(HandlerDef::Affix {
        base: Text::of(alloc, "number")?,
        presets: two_presets(alloc)?,
        prefix: Text::of(alloc, "about ")?,
        suffix: Text::of(alloc, " kg")?,
    })
}

/// Two options of `:number`.
fn two_presets(alloc: Global) -> Result<Pairs, AllocError> {
    let mut presets = Pairs::new(alloc);
    for (name, value) in [("minimumFractionDigits", "1"), ("signDisplay", "always")] {
        presets.push(Pair {
            name: Text::of(alloc, name)?,
            value: Text::of(alloc, value)?,
        })?;
    }
    Ok(presets)
}

/// A table of so many entries, whose keys are the whole numbers from 0, with a default.
pub fn table(alloc: Global, size: u64) -> Result<HandlerDef, AllocError> {
    let mut pairs = Pairs::new(alloc);
    for number in 0..size {
        pairs.push(Pair {
            name: Text::from(format!(in alloc; "{number}")?),
            value: Text::of(alloc, "Monday")?,
        })?;
    }
    Ok(HandlerDef::Table {
        entries: Entries::new(alloc, pairs)?,
        default: Some(Text::of(alloc, "some day")?),
    })
}
