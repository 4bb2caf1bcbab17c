//! The built-in functions, called many times over the number that a text is.

ghost use Rattle.std.specs.Prelude.{IsTrue};
ghost use Rattle.mf_value.specs.Meaning.{IsTextOrNumber};

use mf_functions::{number_fn, select_rank, shown_text};
use mf_locale::{LocaleRecord, root};
use mf_text::{Direction, Text};
use mf_tree::{Identifier, Name};
use mf_value::{Content, Given, Options, Ranked, Selects, Value};
use std::alloc::{AllocError, Global};

/// The number of values and refused options over so many calls of `:number`, with these options.
pub fn number_sum(
    alloc: Global,
    text: &str,
    options: &Options,
    count: u64,
) -> Result<u64, AllocError> {
    let record = root(alloc)?;
    let (one, other) = (text_value(alloc, text)?, text_value(alloc, "0")?);
    let mut sum = 0u64;
    if options.len() > 100 {
        return Ok(sum);
    }
    for _ in 0..count {
        let operand = if sum == u64::MAX { &other } else { &one };
        let called = number_fn(alloc, &record, Some(operand), options)?;
        sum = sum.wrapping_add(u64::from(called.value.is_some()));
        sum = sum.wrapping_add(called.faults.len() as u64);
    }
    Ok(sum)
}

/// The length of what the number shows, over so many times.
pub fn shown_sum(alloc: Global, text: &str, count: u64) -> Result<u64, AllocError> {
    let record = root(alloc)?;
    let mut sum = 0u64;
    let Some(value) = number_value(alloc, &record, text)? else {
        return Ok(sum);
    };
    for _ in 0..count {
        if is_text_or_number(&value) {
            sum = sum.wrapping_add(shown_text(alloc, &record, &value)?.as_str().len() as u64);
        }
    }
    Ok(sum)
}

/// The sum over so many ranks of a key for the number.
pub fn rank_sum(alloc: Global, text: &str, key: &str, count: u64) -> Result<u64, AllocError> {
    let record = root(alloc)?;
    let key = Text::of(alloc, key)?;
    let Some(value) = number_value(alloc, &record, text)? else {
        return Ok(0);
    };
    let mut sum = 0u64;
    for _ in 0..count {
        let ranked = select_rank(alloc, &record, &value, &key)?;
        sum = sum.wrapping_add(of_rank(ranked));
    }
    Ok(sum)
}

/// Four options of `:number`.
pub fn four_options(alloc: Global) -> Result<Options, AllocError> {
    let mut options = Options::new(alloc);
    for (name, value) in [
        ("signDisplay", "always"),
        ("useGrouping", "min2"),
        ("minimumFractionDigits", "1"),
        ("maximumFractionDigits", "2"),
    ] {
        options.push(Given {
            name: Identifier {
                namespace: None,
                name: Name::new(alloc, Text::of(alloc, name)?)?,
            },
            value: Text::of(alloc, value)?,
            literal: true,
        })?;
    }
    Ok(options)
}

/// The value that a text has as a literal.
pub fn text_value(alloc: Global, text: &str) -> Result<Value, AllocError> {
    Ok(Value {
        content: Content::Text(Text::of(alloc, text)?),
        dir: Direction::Unknown,
        forced: false,
        id: None,
        prefix: Text::new(alloc),
        suffix: Text::new(alloc),
        selects: Selects::Nothing,
    })
}

/// The number that a text is, without options.
fn number_value(
    alloc: Global,
    record: &LocaleRecord,
    text: &str,
) -> Result<Option<Value>, AllocError> {
    let operand = text_value(alloc, text)?;
    let called = number_fn(alloc, record, Some(&operand), &Options::new(alloc))?;
    Ok(called.value)
}

/// Whether a value is a text or a number.
fn is_text_or_number(value: &Value) -> bool
    ensures { IsTrue result → IsTextOrNumber value.now.content }
{
    match value.content {
        Content::Text(_) => true,
        Content::Number { .. } => true,
        Content::Fallback(_) => false,
    }
}

/// What a rank adds to the sum.
fn of_rank(ranked: Ranked) -> u64 {
    match ranked {
        Ranked::Exact => 1,
        Ranked::Keyword => 2,
        Ranked::Never => 3,
        Ranked::BadKey => 4,
    }
}
