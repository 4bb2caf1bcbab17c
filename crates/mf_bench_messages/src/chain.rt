//! Declarations that use each the one before.
use mf_functions::BuiltIns;
use mf_locale::{LocaleRecord, root};
use mf_parse::{ParseError, parse};
use mf_resolve::Scope;
use mf_text::Arguments;
use mf_tree::{Body, Message, Piece};
use std::alloc::{AllocError, Global};

/// How many declarations there are.
const DECLARATIONS: u64 = 256;

/// How many values come of the message whose pattern has so many uses, resolved so many times.
pub fn resolved(alloc: Global, uses: u64, count: u64) -> Result<u64, AllocError> {
    let record = root(alloc)?;
    let message = message(alloc, uses)?;
    let arguments = Arguments::new(alloc);
    let mut values = 0u64;
    for _ in 0..count {
        values = values.wrapping_add(resolved_once(alloc, &record, &message, &arguments)?);
    }
    Ok(values)
}

/// How many values the expressions of a pattern have.
fn resolved_once(
    alloc: Global,
    record: &LocaleRecord,
    message: &Message,
    arguments: &Arguments,
) -> Result<u64, AllocError> {
    let functions = BuiltIns::new(record);
    let mut scope = Scope::new(alloc, &message.declarations, arguments)?;
    let mut values = 0u64;
    if let Body::Pattern(pieces) = &message.body {
        for piece in pieces.as_slice() {
            if let Piece::Expression(expression) = piece {
                scope.resolve_expression(alloc, &functions, expression)?;
                values = values.wrapping_add(1);
            }
        }
    }
    Ok(values)
}

/// The message whose pattern uses the last declaration so many times.
fn message(alloc: Global, uses: u64) -> Result<Message, AllocError> {
    let mut source = String::from_str(alloc, ".local $v0 = {1 :number}")?;
    for number in 1..DECLARATIONS {
        let before = number - 1;
        let declaration = format!(in alloc; " .local $v{number} = {{$v{before} :number}}")?;
        source.push_str(declaration.as_str())?;
    }
    source.push_str(" {{")?;
    for _ in 0..uses {
        source.push_str("{$v255}")?;
    }
    source.push_str("}}")?;
    match parse(alloc, source.as_str()) {
        Ok(message) => Ok(message),
        Err(ParseError::Syntax | ParseError::OutOfMemory) => Err(AllocError),
    }
}
