//! What the replies of a large run come to.
ghost use Rattle.std.specs.Prelude.{◌≡◌, ◌≢◌, IfOk, option_map};
ghost use Rattle.serde_json.specs.View.{view};
ghost use Rattle.mf_wire.specs.Reading.{reading};
ghost use Rattle.mf_wire.specs.Replies.{memory_line};
ghost use Rattle.mf_mill.specs.Summaries as summaries;
ghost use Rattle.mf_mill.specs.Tallies.{IsTally};

use mf_wire::{MEMORY_LINE, first_line};
use serde_json::Value;
use std::alloc::{AllocError, Global};

/// What the replies of a run come to.
#[derive(Clone, Copy, Debug, PartialEq, Eq)]
pub(crate) struct Tally {
    /// The last edition.
    pub(crate) editions: u64,
    /// The compilations that were begun in it.
    pub(crate) starts: u64,
    /// The bytes of the texts of all sentences.
    pub(crate) text_bytes: u64,
}

/// What replies come to, none of which is the memory line. Each is read once, and none is kept.
pub(crate) fn tally_of(alloc: Global, replies: &[u8]) -> Result<Tally, AllocError>
    ensures { IfOk result (λ tally. IsTally replies.now tally) }
{
    let mut rest = replies;
    let mut last: &[u8] = &[];
    let mut text_bytes: u64 = 0;
    'lines: while !rest.is_empty() {
        let (line, more) = first_line(rest);
        let length = text_length(alloc, line)?;
        text_bytes = text_bytes.checked_add(length).ok_or(AllocError)?;
        last = line;
        rest = more;
    }
    let counts = read(alloc, last)?;
    Ok(Tally {
        editions: number_in(&counts, "edition"),
        starts: number_in(&counts, "starts"),
        text_bytes,
    })
}

/// How many bytes the text of a reply has. The memory line is none.
fn text_length(alloc: Global, line: &[u8]) -> Result<u64, AllocError>
    ensures length { IfOk result (λ length. length ≡ summaries.text_length (reading line.now)) }
    ensures memory { IfOk result (λ _. line.now ≢ memory_line) }
{
    if line == MEMORY_LINE {
        return Err(AllocError);
    }
    let value = read(alloc, line)?;
    Ok(bytes_in(&value))
}

/// How many bytes the member `text` of a value has.
fn bytes_in(value: &Option<Value>) -> u64
    ensures { result ≡ summaries.text_length (option_map view value.now) }
{
    let Some(value) = value else {
        return 0;
    };
    match value.get("text").and_then(Value::as_str) {
        Some(text) => text.len() as u64,
        None => 0,
    }
}

/// The whole number that a value has under a name, or 0.
fn number_in(value: &Option<Value>, name: &str) -> u64
    ensures { result ≡ summaries.number_in name.now (option_map view value.now) }
{
    let Some(value) = value else {
        return 0;
    };
    value.get(name).and_then(Value::as_u64).unwrap_or(0)
}

/// The JSON value of a line, if it is one.
fn read(alloc: Global, line: &[u8]) -> Result<Option<Value>, AllocError>
    ensures { IfOk result (λ value. option_map view value ≡ reading line.now) }
{
    let Ok(text) = str::from_utf8(line) else {
        return Ok(None);
    };
    match Value::from_str(alloc, text) {
        Ok(value) => Ok(Some(value)),
        Err(error) if error.is_memory() => Err(AllocError),
        Err(_) => Ok(None),
    }
}
