//! What callers sent and got, judged.
use mf_edition::Log;
use mf_history::{Exchange, Exchanges, Transcript, Transcripts, Verdict, legal};
use mf_io::Bytes;
use mf_text::{List, Text};
use std::alloc::{AllocError, Global};

/// The bytes that a caller sent, and those that it got.
#[derive(Drop)]
pub struct Spoken {
    pub caller: u64,
    pub input: Vec<u8>,
    pub output: Vec<u8>,
}

/// Whether a log and what callers sent and got make one legal history.
pub fn judged(alloc: Global, log: &Log, spoken: &[Spoken]) -> Result<Verdict, AllocError> {
    let mut transcripts = Vec::with_capacity(alloc, spoken.len())?;
    for one in spoken {
        transcripts.push(Transcript {
            caller: one.caller,
            lines: exchanges(alloc, &one.input, &one.output)?,
        })?;
    }
    let transcripts: Transcripts = List::from(transcripts);
    legal(alloc, log, &transcripts)
}

/// Each line with its reply. Where one has no reply, the reply is empty.
fn exchanges(alloc: Global, input: &[u8], output: &[u8]) -> Result<Exchanges, AllocError> {
    let requests = str::from_utf8(input).unwrap_or("");
    let mut replies = str::from_utf8(output).unwrap_or("").lines();
    let mut lines = Exchanges::new(alloc);
    for request in requests.lines() {
        lines.push(Exchange {
            request: Bytes::of(alloc, request.as_bytes())?,
            reply: Text::of(alloc, replies.next().unwrap_or(""))?,
        })?;
    }
    Ok(lines)
}

/// A verdict in words.
pub fn verdict_text(alloc: Global, verdict: Verdict) -> Result<String, AllocError> {
    match verdict {
        Verdict::Yes => String::from_str(alloc, "yes"),
        Verdict::No { caller, place } => format!(in alloc; "no {caller} {place}"),
    }
}
