//! What a message's expressions come to.

ghost use Rattle.std.specs.Prelude.{◌≡◌, [], IsTrue};
ghost use Rattle.mf_tree.specs.Faults.{faults as faults_of};
ghost use Rattle.mf_value.specs.Meaning.{IsTextOrNumber};

use mf_check::faults;
use mf_functions::{BuiltIns, shown_text};
use mf_locale::LocaleRecord;
use mf_parse::{ParseError, parse};
use mf_resolve::{MarkupValue, Scope};
use mf_select::choose;
use mf_text::{Argued, Arguments, Direction, Text};
use mf_tree::{Body, Faults, Message, Pattern, Piece};
use mf_value::{Content, Value};
use std::alloc::{AllocError, Global};
use std::fmt::Write;

/// The answer to a row, written as a row has it.
pub fn answer_of(alloc: Global, record: &LocaleRecord, asked: &str) -> Result<String, AllocError> {
    let (source, words) = asked.split_once(" ?? ").unwrap_or((asked, ""));
    let message = match parse(alloc, source) {
        Ok(message) => message,
        Err(ParseError::OutOfMemory) => return Err(AllocError),
        Err(ParseError::Syntax) => return String::from_str(alloc, "no message"),
    };
    let mut arguments = Arguments::new(alloc);
    for word in words.split(", ") {
        if let Some((name, value)) = word.split_once('=') {
            arguments.insert(alloc, name, argument(alloc, value)?)?;
        }
    }
    let errors = faults(alloc, &message)?;
    if !errors.is_empty() {
        let mut answer = String::from_str(alloc, "invalid")?;
        push_faults(&mut answer, &errors)?;
        return Ok(answer);
    }
    resolved(alloc, record, &message, &arguments)
}

/// The value of an argument: a number behind `#`, else a text.
fn argument(alloc: Global, value: &str) -> Result<Argued, AllocError> {
    if let Some(digits) = value.strip_prefix("#") {
        if let Ok(number) = digits.parse::<i64>() {
            return Ok(Argued::Signed(number));
        }
    }
    Ok(Argued::Text(Text::of(alloc, value)?))
}

/// The position of the chosen variant, if there are any, the values of what stands in its pattern,
/// and the errors.
fn resolved(
    alloc: Global,
    record: &LocaleRecord,
    message: &Message,
    arguments: &Arguments,
) -> Result<String, AllocError>
    requires valid { faults_of message.now ≡ [] }
{
    let functions = BuiltIns::new(record);
    let mut scope = Scope::new(alloc, &message.declarations, arguments)?;
    let mut answer = String::new(alloc);
    match &message.body {
        Body::Pattern(pieces) => push_pieces(alloc, &mut answer, &functions, &mut scope, pieces)?,
        Body::Match {
            selectors,
            variants,
        } => {
            let place = choose(alloc, &mut scope, &functions, selectors, variants)?;
            write!(answer, "[{place}]")?;
            if let Some(variant) = variants.get(place) {
                push_pieces(alloc, &mut answer, &functions, &mut scope, &variant.pattern)?;
            }
        }
    }
    push_faults(&mut answer, scope.faults())?;
    Ok(answer)
}

/// What the expressions and the markup of a pattern come to.
fn push_pieces<'a>(
    alloc: Global,
    answer: &mut String,
    functions: &BuiltIns,
    scope: &mut Scope<'a>,
    pieces: &'a Pattern,
) -> Result<(), AllocError> {
    for piece in pieces.as_slice() {
        match piece {
            Piece::Text(_) => {}
            Piece::Expression(expression) => {
                let value = scope.resolve_expression(alloc, functions, expression)?;
                push_value(alloc, answer, functions.place, &value)?;
            }
            Piece::Markup(markup) => {
                let value = scope.resolve_markup(alloc, functions, markup)?;
                push_markup(answer, &value)?;
            }
        }
    }
    Ok(())
}

fn push_value(
    alloc: Global,
    answer: &mut String,
    record: &LocaleRecord,
    value: &Value,
) -> Result<(), AllocError> {
    push_bar(answer)?;
    match &value.content {
        Content::Fallback(source) => {
            answer.push('{')?;
            answer.push_str(source.as_str())?;
            answer.push('}')?;
        }
        _ => {
            if is_shown(value) {
                answer.push_str(shown_text(alloc, record, value)?.as_str())?;
            }
        }
    }
    if value.forced {
        answer.push_str(match value.dir {
            Direction::Ltr => "!ltr",
            Direction::Rtl => "!rtl",
            Direction::Unknown => "!auto",
        })?;
    }
    push_id(answer, &value.id)
}

/// The options of markup.
fn push_markup(answer: &mut String, value: &MarkupValue) -> Result<(), AllocError> {
    push_bar(answer)?;
    answer.push('<')?;
    for (place, option) in value.options.as_slice().iter().enumerate() {
        if place != 0 {
            answer.push_str(", ")?;
        }
        answer.push_str(option.name.as_str())?;
        answer.push('=')?;
        answer.push_str(option.value.as_str())?;
    }
    answer.push('>')?;
    push_id(answer, &value.id)
}

fn push_bar(answer: &mut String) -> Result<(), AllocError> {
    if !answer.as_str().is_empty() {
        answer.push_str(" | ")?;
    }
    Ok(())
}

fn push_id(answer: &mut String, id: &Option<Text>) -> Result<(), AllocError> {
    if let Some(id) = id {
        answer.push('#')?;
        answer.push_str(id.as_str())?;
    }
    Ok(())
}

/// Whether a value is a text or a number.
fn is_shown(value: &Value) -> bool
    ensures { IsTrue result → IsTextOrNumber value.now.content }
{
    match value.content {
        Content::Text(_) => true,
        Content::Number { .. } => true,
        Content::Fallback(_) => false,
    }
}

/// Each error with its class and what it is about.
fn push_faults(answer: &mut String, faults: &Faults) -> Result<(), AllocError> {
    for fault in faults.as_slice() {
        answer.push_str("; ")?;
        answer.push_str(fault.kind.as_str())?;
        answer.push(' ')?;
        answer.push_str(fault.of.as_str())?;
    }
    Ok(())
}
