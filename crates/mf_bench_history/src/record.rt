//! A log and what callers sent and got.
use mf_edition::{Entry, Log};
use mf_history::{Exchange, Exchanges, Transcript, Transcripts};
use mf_hub::Alone;
use mf_io::{Bytes, Caps, MemorySink, MemorySource};
use mf_session::session_alone;
use mf_text::{List, Text};
use mf_wire::{Request, read_request};
use std::alloc::{AllocError, Global};

/// How many callers ask for sentences.
const CALLERS: u32 = 10;

const CAPS: Caps = Caps {
    line: 1_048_576,
    input: 4_294_967_296,
};

const PUBLICATION: &str =
    r#"{"op":"publish","locale":"en","messages":{"hi":"Hello {$name}, {$count :number} times!"}}"#;

/// A log, and transcripts over it.
#[derive(Drop)]
pub struct Record {
    pub log: Log,
    pub transcripts: Transcripts,
}

impl Record {
    /// A record of so many entries and lines, whose replies are those of a session.
    pub fn new(alloc: Global, entries: u32, exchanges: u32) -> Result<Record, AllocError> {
        let script = script(alloc, entries, exchanges)?;
        let replies = replies_to(alloc, script.as_str())?;
        let replies = str::from_utf8(replies.taken()).map_err(|_| AllocError)?;
        let mut callers: Vec<Exchanges> = Vec::new(alloc);
        for _ in 0..CALLERS.saturating_add(1) {
            callers.push(Exchanges::new(alloc))?;
        }
        let mut log = Log::new(alloc);
        let mut number: u32 = 0;
        for (line, reply) in script.as_str().lines().zip(replies.lines()) {
            let exchange = Exchange {
                request: Bytes::of(alloc, line.as_bytes())?,
                reply: Text::of(alloc, reply)?,
            };
            let caller = if line == PUBLICATION {
                publish(alloc, &mut log)?;
                0
            } else {
                number = number.wrapping_add(1);
                (number % CALLERS).saturating_add(1)
            };
            if let Some(lines) = callers.get_mut(caller as usize) {
                lines.push(exchange)?;
            }
        }
        Ok(Record {
            log,
            transcripts: transcripts_of(alloc, callers)?,
        })
    }
}

/// So many lines with their line feeds, among them so many publications, evenly.
fn script(alloc: Global, entries: u32, exchanges: u32) -> Result<String, AllocError> {
    let apart = exchanges.checked_div(entries).unwrap_or(1).max(1);
    let mut script = String::new(alloc);
    for number in 0..exchanges {
        if number % apart == 0 {
            script.push_str(PUBLICATION)?;
        } else {
            let count = number.wrapping_mul(7919) % 1000;
            script.push_str(
                r#"{"op":"format","locale":"en","id":"hi","args":{"name":"Ann","count":"#,
            )?;
            script.push_str(format!(in alloc; "{count}")?.as_str())?;
            script.push_str("}}")?;
        }
        script.push_str("\n")?;
    }
    Ok(script)
}

/// The replies of a session with one caller.
fn replies_to(alloc: Global, input: &str) -> Result<MemorySink, AllocError> {
    let mut desk = Alone::new(alloc)?;
    let input = Vec::from_slice(alloc, input.as_bytes())?;
    let mut source = MemorySource::new(vec![in alloc; input]?, Vec::new(alloc));
    let mut sink = MemorySink::new(alloc, usize::MAX, Vec::new(alloc));
    let _status = session_alone(alloc, &mut desk, &mut source, &mut sink, &CAPS);
    Ok(sink)
}

/// Puts the next entry of caller 0 to the end of the log.
fn publish(alloc: Global, log: &mut Log) -> Result<(), AllocError> {
    let Ok(Request::Publish(change)) = read_request(alloc, PUBLICATION.as_bytes()) else {
        return Err(AllocError);
    };
    let nth = log.len().saturating_add(1);
    log.push(Entry {
        caller: 0,
        nth,
        change,
    })
    .map_err(|_| AllocError)
}

/// The transcripts of callers, by their numbers.
fn transcripts_of(alloc: Global, callers: Vec<Exchanges>) -> Result<Transcripts, AllocError> {
    let mut transcripts = Vec::with_capacity(alloc, callers.len())?;
    let mut caller: u64 = 0;
    for lines in callers {
        transcripts.push(Transcript { caller, lines })?;
        caller = caller.saturating_add(1);
    }
    Ok(List::from(transcripts))
}
