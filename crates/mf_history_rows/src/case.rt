//! A log and transcripts, taken from rows.
use mf_edition::{Entry, Log};
use mf_history::{Exchange, Exchanges, Transcript, Transcripts, Verdict};
use mf_io::Bytes;
use mf_text::{List, Text};
use mf_wire::{Request, read_request};
use std::alloc::{AllocError, Global};

/// A log, and transcripts over it.
#[derive(Drop)]
pub struct Case {
    pub log: Log,
    transcripts: Transcripts,
    /// The line that waits for its reply, with its caller.
    asked: Option<(u64, Bytes)>,
}

impl Case {
    pub fn new(alloc: Global) -> Case {
        Case {
            log: Log::new(alloc),
            transcripts: Transcripts::new(alloc),
            asked: None,
        }
    }

    pub fn transcripts(&self) -> &Transcripts {
        &self.transcripts
    }

    pub fn clear_log(&mut self, alloc: Global) {
        self.log = Log::new(alloc);
    }

    pub fn clear_transcripts(&mut self, alloc: Global) {
        self.transcripts = Transcripts::new(alloc);
    }

    /// Puts an entry to the end of the log: its caller, and the request that publishes its change.
    pub fn entry(&mut self, alloc: Global, row: &str) -> Result<bool, AllocError> {
        let Some((caller, request)) = numbered(row) else {
            return Ok(false);
        };
        let Ok(Request::Publish(change)) = read_request(alloc, request.as_bytes()) else {
            return Ok(false);
        };
        let nth = self.made_by(caller).saturating_add(1);
        let entry = Entry {
            caller,
            nth,
            change,
        };
        Ok(self.log.push(entry).is_ok())
    }

    /// How many entries a caller has made.
    fn made_by(&self, caller: u64) -> u64 {
        let mut made: u64 = 0;
        for k in 0..self.log.len() {
            if let Some(entry) = self.log.get(k) {
                if entry.caller == caller {
                    made = made.saturating_add(1);
                }
            }
        }
        made
    }

    /// Takes a line of a caller.
    pub fn line(&mut self, alloc: Global, row: &str) -> Result<bool, AllocError> {
        let Some((caller, request)) = numbered(row) else {
            return Ok(false);
        };
        let request = Bytes::of(alloc, request.as_bytes())?;
        self.asked = Some((caller, request));
        Ok(true)
    }

    /// Takes the reply to the last line: the two go behind those of the same caller, or begin a
    /// transcript.
    pub fn reply(&mut self, alloc: Global, reply: &str) -> Result<(), AllocError> {
        let Some((caller, request)) = self.asked.take() else {
            return Ok(());
        };
        let reply = Text::of(alloc, reply)?;
        let exchange = Exchange { request, reply };
        push_exchange(alloc, &mut self.transcripts, caller, exchange)
    }
}

/// Puts a line with its reply behind those of the last transcript, where that is the same caller's,
/// or into a new one.
fn push_exchange(
    alloc: Global,
    transcripts: &mut Transcripts,
    caller: u64,
    exchange: Exchange,
) -> Result<(), AllocError> {
    let old = std::mem::replace(transcripts, Transcripts::new(alloc));
    let mut members = old.into_members();
    if let Some(last) = members.last_mut() {
        if last.caller == caller {
            last.lines.push(exchange)?;
            *transcripts = List::from(members);
            return Ok(());
        }
    }
    let mut lines = Exchanges::new(alloc);
    lines.push(exchange)?;
    members.push(Transcript { caller, lines })?;
    *transcripts = List::from(members);
    Ok(())
}

/// The number that a row begins with, and what follows it.
fn numbered(row: &str) -> Option<(u64, &str)> {
    let (number, rest) = row.split_once(' ')?;
    let number = number.parse::<u64>().ok()?;
    Some((number, rest))
}

/// A verdict as a row has it.
pub fn verdict_text(alloc: Global, verdict: Verdict) -> Result<String, AllocError> {
    match verdict {
        Verdict::Yes => String::from_str(alloc, "yes"),
        Verdict::No { caller, place } => format!(in alloc; "no {caller} {place}"),
    }
}
