//! Whose each line of an input is.
ghost use Rattle.std.specs.Prelude.{◌≡◌, ◌≤◌, ◌-◌, IfOk};
ghost use Rattle.mf_lines.specs.Served.{written};
ghost use Rattle.mf_rehearse.specs.Scripts.{behind_name, caller_of, callers_in, digit_of, is_named, request_in, requests_of};
ghost use Rattle.mf_wire.specs.Lines.{lines_of};

use mf_wire::first_line;
use std::alloc::{AllocError, Global};

/// Whether a line begins with a digit from 1 to 8 and a space.
fn is_named(line: &[u8]) -> bool
    ensures { result ≡ is_named line.now }
{
    matches!(line, [b'1'..=b'8', b' ', ..])
}

/// Whose a line is.
fn caller_of(line: &[u8]) -> u64
    ensures { result ≡ caller_of line.now }
{
    if is_named(line) {
        (line[0] - b'0') as u64
    } else {
        1
    }
}

/// What its caller asks.
fn request_in(line: &[u8]) -> &[u8]
    ensures { result.now ≡ request_in line.now }
{
    if is_named(line) { &line[2..] } else { line }
}

/// How many callers the lines of an input have: as many as the greatest, and at least two.
pub(crate) fn callers_in(input: &[u8]) -> u64
    ensures most { result ≡ callers_in (lines_of input.now) }
    ensures few { result ≤ 8 }
{
    let mut rest = input;
    let mut most = 2;
    while !rest.is_empty() {
        let (line, more) = first_line(rest);
        most = most.max(caller_of(line));
        rest = more;
    }
    most
}

/// The requests of a caller among the lines of an input, each with its line feed.
pub(crate) fn requests_of(alloc: Global, input: &[u8], caller: u64) -> Result<Vec<u8>, AllocError>
    ensures { IfOk result (λ requests. requests.items ≡ written (requests_of caller (lines_of input.now))) }
{
    let mut rest = input;
    let mut requests = Vec::new(alloc);
    while !rest.is_empty() {
        let (line, more) = first_line(rest);
        if caller_of(line) == caller {
            requests.extend_from_slice(request_in(line))?;
            requests.push(b'\n')?;
        }
        rest = more;
    }
    Ok(requests)
}
