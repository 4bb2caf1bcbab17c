//! What the functions give for a row.

ghost use Rattle.std.specs.Prelude.{IsTrue};
ghost use Rattle.std.specs.Option.{option_copied};
ghost use Rattle.mf_value.specs.Meaning.{IsNoFallback, IsTextOrNumber};

use crate::handlers::Handler;
use mf_functions::{BuiltIns, select_rank, shown_text};
use mf_handlers::call_handler;
use mf_locale::LocaleRecord;
use mf_text::{Direction, List, Text};
use mf_tree::{Identifier, Name};
use mf_value::{
    CallFault, CallFaults, Called, Content, Functions, Given, Options, Ranked, Selects, Value,
};
use std::alloc::{AllocError, Global};

/// The answer to a row, written as a row has it.
pub fn answer_of(
    alloc: Global,
    record: &LocaleRecord,
    handlers: &[Handler],
    asked: &str,
) -> Result<String, AllocError> {
    let (calls, keys) = asked.split_once(" ? ").unwrap_or((asked, ""));
    let mut steps = calls.split(" | ");
    let mut value = operand(alloc, steps.next().unwrap_or(""))?;
    let mut faults = List::new(alloc);
    for step in steps {
        let called = called(alloc, record, handlers, value.as_ref(), step)?;
        value = called.value;
        faults = called.faults;
        if value.is_none() {
            break;
        }
    }
    let mut answer = String::new(alloc);
    match &value {
        None => answer.push_str("bad-operand")?,
        Some(value) => push_value(alloc, &mut answer, record, value, keys)?,
    }
    push_faults(alloc, &mut answer, &faults)?;
    Ok(answer)
}

/// The text that an operand is, the fallback for `{source}`, or none for `-`.
fn operand(alloc: Global, text: &str) -> Result<Option<Value>, AllocError> {
    if text == "-" {
        return Ok(None);
    }
    let content = match text.strip_prefix("{") {
        Some(source) => Content::Fallback(Text::of(alloc, source)?),
        None => Content::Text(Text::of(alloc, text)?),
    };
    Ok(Some(Value {
        content,
        dir: Direction::Unknown,
        forced: false,
        id: None,
        prefix: Text::new(alloc),
        suffix: Text::new(alloc),
        selects: Selects::Nothing,
    }))
}

/// What a call gives: a function's name and its options, with spaces between them.
fn called(
    alloc: Global,
    record: &LocaleRecord,
    handlers: &[Handler],
    operand: Option<&Value>,
    step: &str,
) -> Result<Called, AllocError> {
    let mut words = step.split(' ');
    let word = words.next().unwrap_or("");
    let name = identifier(alloc, word)?;
    let mut options = Options::new(alloc);
    for word in words {
        options.push(given(alloc, word)?)?;
    }
    match handlers
        .iter()
        .find(|handler| handler.name.as_str() == word)
    {
        Some(Handler { def, .. }) if options.len() < 1_000_000 => {
            call_handler(alloc, record, def, operand, &options)
        }
        _ => call(alloc, record, operand, &name, &options),
    }
}

/// A call of a function that there is.
fn call(
    alloc: Global,
    record: &LocaleRecord,
    operand: Option<&Value>,
    name: &Identifier,
    options: &Options,
) -> Result<Called, AllocError> {
    let functions = BuiltIns::new(record);
    if functions.known(name) && is_no_fallback(operand) && options.len() < 1_000_000 {
        functions.call(alloc, name, operand, options)
    } else {
        Ok(Called {
            value: None,
            faults: List::new(alloc),
        })
    }
}

/// Whether the operand, if there is one, is a text or a number.
fn is_no_fallback(operand: Option<&Value>) -> bool
    ensures { IsTrue result → IsNoFallback (option_copied operand.entry) }
{
    match operand {
        None => true,
        Some(value) => is_text_or_number(value),
    }
}

/// Whether a value is a text or a number.
fn is_text_or_number(value: &Value) -> bool
    ensures { IsTrue result → IsTextOrNumber value.now.content }
{
    match value.content {
        Content::Text(_) => true,
        Content::Number { .. } => true,
        Content::Fallback(_) => false,
    }
}

/// A name, and before it its namespace, if it has one.
pub fn identifier(alloc: Global, word: &str) -> Result<Identifier, AllocError> {
    match word.split_once(':') {
        Some((namespace, name)) => Ok(Identifier {
            namespace: Some(Name::new(alloc, Text::of(alloc, namespace)?)?),
            name: Name::new(alloc, Text::of(alloc, name)?)?,
        }),
        None => Ok(Identifier {
            namespace: None,
            name: Name::new(alloc, Text::of(alloc, word)?)?,
        }),
    }
}

/// An option, which is given by a variable where its value begins with `$`.
fn given(alloc: Global, word: &str) -> Result<Given, AllocError> {
    let (name, value) = word.split_once('=').unwrap_or((word, ""));
    let literal = !value.starts_with('$');
    let value = value.strip_prefix("$").unwrap_or(value);
    Ok(Given {
        name: identifier(alloc, name)?,
        value: Text::of(alloc, value)?,
        literal,
    })
}

/// The text that a value shows, and how well each key matches it.
fn push_value(
    alloc: Global,
    answer: &mut String,
    record: &LocaleRecord,
    value: &Value,
    keys: &str,
) -> Result<(), AllocError> {
    if !is_text_or_number(value) {
        return Ok(());
    }
    answer.push_str(shown_text(alloc, record, value)?.as_str())?;
    for key in keys.split(' ') {
        if !key.is_empty() {
            let ranked = select_rank(alloc, record, value, &Text::of(alloc, key)?)?;
            answer.push(' ')?;
            answer.push_str(word_of(ranked))?;
        }
    }
    Ok(())
}

/// The word for a rank.
fn word_of(ranked: Ranked) -> &'static str {
    match ranked {
        Ranked::Exact => "exact",
        Ranked::Keyword => "keyword",
        Ranked::Never => "never",
        Ranked::BadKey => "bad-key",
    }
}

/// The places of the options that are refused.
fn push_faults(alloc: Global, answer: &mut String, faults: &CallFaults) -> Result<(), AllocError> {
    for CallFault { option, .. } in faults.as_slice() {
        let text = format!(in alloc; " refused {option}")?;
        answer.push_str(text.as_str())?;
    }
    Ok(())
}
