//! The input of a large run.
ghost use Rattle.std.specs.Prelude.{◌≡◌, ◌+◌, ◌++◌, ◌<◌, IfOk, OnOk, decimal};
ghost use Rattle.mf_lines.specs.Served.{ended};
ghost use Rattle.mf_mill.specs.Scripts as scripts;

use std::alloc::{AllocError, Global};

/// What English says of its numbers.
const ENGLISH: &str =
    r#"{"op":"locale","tag":"en","record":{"version":1,"dir":"ltr","decimal":".","group":",","minus":"-","plus":"+","primary":3,"secondary":3,"minGroup":1,"plural":"one: i = 1 and v = 0","ordinal":"one: n % 10 = 1 and n % 100 != 11; two: n % 10 = 2 and n % 100 != 12; few: n % 10 = 3 and n % 100 != 13"}}"#;

/// A message with a variant for each of three numbers.
const MESSAGE: &str =
    r#"{"op":"publish","locale":"en","messages":{"m":".input {$n :number} .match $n 1 {{exactly one}} one {{one}} * {{{$n} items}}"}}"#;

/// A request for that message, before its number.
const BEFORE_NUMBER: &str = r#"{"op":"format","locale":"en","id":"m","args":{"n":"#;

/// A request for the counts.
const STAT: &str = r#"{"op":"stat"}"#;

/// The input of a run of so many requests.
pub(crate) fn script(alloc: Global, count: u32) -> Result<Vec<u8>, AllocError>
    ensures { IfOk result (λ input. input.items ≡ scripts.script count) }
{
    let mut input = Vec::new(alloc);
    push_line(&mut input, ENGLISH)?;
    for j in 0..count {
        push_request(&mut input, j)?;
    }
    push_line(&mut input, STAT)?;
    Ok(input)
}

/// Puts the request behind j others at the end of an input, with the publication that may stand
/// before it.
fn push_request(input: &mut Vec<u8>, j: u32) -> Result<(), AllocError>
    requires { j < 4294967295 }
    ensures { OnOk result (input.new.items ≡ input.old.items
        ++ (scripts.publication_behind j ++ ended (scripts.sentence_line (scripts.last_digits (j + 1))))) }
{
    if j % 100 == 0 {
        push_line(input, MESSAGE)?;
    }
    let next = j as u64 + 1;
    push_sentence(input, next * next % 10_000)
}

/// Puts the request with a number at the end of an input.
fn push_sentence(input: &mut Vec<u8>, number: u64) -> Result<(), AllocError>
    ensures { OnOk result (input.new.items
        ≡ input.old.items ++ ended (scripts.sentence_line number)) }
{
    input.extend_from_slice(BEFORE_NUMBER.as_bytes())?;
    push_number(input, number)?;
    push_line(input, "}}")
}

/// Puts a line with its line feed at the end of an input.
fn push_line(input: &mut Vec<u8>, line: &str) -> Result<(), AllocError>
    ensures { OnOk result (input.new.items ≡ input.old.items ++ ended line.now) }
{
    input.extend_from_slice(line.as_bytes())?;
    input.push(b'\n')?;
    Ok(())
}

/// Puts the digits of a number at the end of some bytes.
pub(crate) fn push_number(bytes: &mut Vec<u8>, number: u64) -> Result<(), AllocError>
    ensures { OnOk result (bytes.new.items ≡ bytes.old.items ++ decimal number) }
{
    let mut buffer = itoa::Buffer::new();
    bytes.extend_from_slice(buffer.format(number).as_bytes())
}
