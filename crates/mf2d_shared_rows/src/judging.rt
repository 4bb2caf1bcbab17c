//! What was printed of a script, read a second time.
use mf_edition::{Entry, Log};
use mf_history::{Exchange, Exchanges, Transcript, Transcripts, Verdict, legal};
use mf_io::Bytes;
use mf_text::Text;
use mf_wire::{Request, read_request};
use std::alloc::{AllocError, Global};

/// The caller of a line that begins with its digit and a space, and what follows.
fn numbered(line: &str) -> Option<(u64, &str)> {
    let (number, rest) = line.split_once(' ')?;
    match number {
        "1" | "2" | "3" | "4" | "5" | "6" | "7" | "8" => {
            Some((number.parse::<u64>().ok()?, rest))
        }
        _ => None,
    }
}

/// Whose a line of a script is, and what its caller asks.
fn asked(line: &str) -> (u64, &str) {
    numbered(line).unwrap_or((1, line))
}

/// What a line of the log says: the caller, the edition, and which of the caller's entries it is.
fn logged(line: &str) -> Option<(u64, u64, usize)> {
    let rest = line.strip_prefix("log {\"caller\":")?;
    let (caller, rest) = rest.split_once(",\"change\":\"")?;
    let (_, rest) = rest.split_once("\",\"edition\":")?;
    let (edition, rest) = rest.split_once(",\"nth\":")?;
    let nth = rest.strip_suffix("}")?;
    Some((
        caller.parse::<u64>().ok()?,
        edition.parse::<u64>().ok()?,
        nth.parse::<usize>().ok()?,
    ))
}

/// How many lines of a print are the log's.
pub fn entries_in(printed: &str) -> usize {
    printed
        .lines()
        .filter(|line| line.starts_with("log "))
        .count()
}

/// The edition that a reply accepts a publication as.
fn accepted(reply: &str) -> Option<u64> {
    let rest = reply.strip_prefix("{\"edition\":")?;
    let (edition, rest) = rest.split_once(",\"ok\":\"")?;
    match rest {
        "publish\"}" | "locale\"}" | "handler\"}" => edition.parse::<u64>().ok(),
        _ => None,
    }
}

/// What a caller sent and got.
#[derive(Drop)]
struct Heard {
    lines: Exchanges,
    /// Its publications that were accepted, each with its edition.
    published: Vec<(u64, Bytes)>,
}

/// The lines of a script that are a caller's, with their replies; none where they aren't as many.
fn heard_by(
    alloc: Global,
    script: &str,
    printed: &str,
    caller: u64,
) -> Result<Option<Heard>, AllocError> {
    let mut heard = Heard {
        lines: Exchanges::new(alloc),
        published: Vec::new(alloc),
    };
    let mut replies = printed
        .lines()
        .filter_map(numbered)
        .filter(|said| said.0 == caller);
    for (_, request) in script.lines().map(asked).filter(|line| line.0 == caller) {
        let Some((_, reply)) = replies.next() else {
            return Ok(None);
        };
        if let Some(edition) = accepted(reply) {
            let request = Bytes::of(alloc, request.as_bytes())?;
            heard.published.push((edition, request))?;
        }
        heard.lines.push(Exchange {
            request: Bytes::of(alloc, request.as_bytes())?,
            reply: Text::of(alloc, reply)?,
        })?;
    }
    Ok(if replies.next().is_none() {
        Some(heard)
    } else {
        None
    })
}

/// The entry that a line of the log says to have been a caller's.
fn entry_of(
    alloc: Global,
    published: &[(u64, Bytes)],
    caller: u64,
    edition: u64,
    nth: usize,
) -> Option<Entry> {
    let (as_edition, request) = published.get(nth.checked_sub(1)?)?;
    if *as_edition != edition {
        return None;
    }
    match read_request(alloc, request.as_slice()) {
        Ok(Request::Publish(change)) => Some(Entry {
            caller,
            nth: nth as u64,
            change,
        }),
        _ => None,
    }
}

/// The log that a print has, made again from the publications that were accepted.
fn log_of(
    alloc: Global,
    printed: &str,
    published: &[Vec<(u64, Bytes)>],
) -> Result<Option<Log>, AllocError> {
    let mut log = Log::new(alloc);
    for line in printed.lines().filter(|line| line.starts_with("log ")) {
        let Some((caller, edition, nth)) = logged(line) else {
            return Ok(None);
        };
        let Some(own) = published.get(caller as usize) else {
            return Ok(None);
        };
        let Some(entry) = entry_of(alloc, own, caller, edition, nth) else {
            return Ok(None);
        };
        if edition != log.len().saturating_add(1) || log.push(entry).is_err() {
            return Ok(None);
        }
    }
    Ok(Some(log))
}

/// The verdict on what was printed of a script: `yes`, or what is wrong.
pub fn judged(alloc: Global, script: &str, printed: &str) -> Result<String, AllocError> {
    if printed.lines().last() != Some("legal yes") {
        return String::from_str(alloc, "no verdict at the end");
    }
    let mut transcripts = Transcripts::new(alloc);
    let mut published = Vec::new(alloc);
    published.push(Vec::new(alloc))?;
    for caller in 1..9 {
        let Some(heard) = heard_by(alloc, script, printed, caller)? else {
            return format!(in alloc; "not as many replies as lines of caller {caller}");
        };
        let Heard {
            lines,
            published: own,
        } = heard;
        transcripts.push(Transcript { caller, lines })?;
        published.push(own)?;
    }
    let Some(log) = log_of(alloc, printed, &published)? else {
        return String::from_str(alloc, "another log than was accepted");
    };
    match legal(alloc, &log, &transcripts)? {
        Verdict::Yes => String::from_str(alloc, "yes"),
        Verdict::No { caller, place } => format!(in alloc; "no {caller} {place}"),
    }
}
