//! The lines of one caller, answered over a hub or at a desk.
use mf_hub::{Alone, Hub};
use mf_io::{Caps, MemorySink, MemorySource, NoGate, Status};
use mf_session::{session_alone, session_shared};
use std::alloc::{AllocError, Global};
use std::sync::Wait;
use std::{env, io};

/// The caps that the program has.
const CAPS: Caps = Caps {
    line: 1_048_576,
    input: 4_294_967_296,
};

const PUBLICATION: &str =
    "{\"op\":\"publish\",\"locale\":\"en\",\"messages\":{\"hi\":\"Hello {$name}!\"}}\n";

const SENTENCE: &str =
    "{\"op\":\"format\",\"locale\":\"en\",\"id\":\"hi\",\"args\":{\"name\":\"Ann\"}}\n";

/// Lines that ask for sentences, and who answers them.
#[derive(Clone, Copy)]
pub struct Lines {
    /// Whether a hub answers them; else a desk does.
    over_hub: bool,
    /// The message is published before each so many of them.
    every: u32,
    count: u32,
}

/// The lines that the words after the program's name ask for, or none where they are other words.
pub fn read_lines(rt: &HostRuntime) -> io::Result<Option<Lines>> {
    let mut words = env::args(rt)?.skip(1);
    let (Some(call), Some(who), Some(every), Some(count), None) = (
        words.next(),
        words.next(),
        words.next(),
        words.next(),
        words.next(),
    ) else {
        return Ok(None);
    };
    Ok(lines_of(call.as_str(), who.as_str(), every.as_str(), count.as_str()))
}

fn lines_of(call: &str, who: &str, every: &str, count: &str) -> Option<Lines> {
    if call != "lines" {
        return None;
    }
    Some(Lines {
        over_hub: match who {
            "hub" => true,
            "desk" => false,
            _ => return None,
        },
        every: every.parse::<u32>().ok()?,
        count: count.parse::<u32>().ok()?,
    })
}

/// How a session with these lines ends, by the number of its status, and how many bytes it writes.
pub fn answered<R: Wait>(rt: &R, alloc: Global, lines: Lines) -> Result<(u8, usize), AllocError> {
    let input = script(alloc, lines)?;
    let mut source = MemorySource::new(vec![in alloc; input]?, Vec::new(alloc));
    let mut sink = MemorySink::new(alloc, usize::MAX, Vec::new(alloc));
    let status = if lines.over_hub {
        over_hub(rt, alloc, &mut source, &mut sink)?
    } else {
        let mut desk = Alone::new(alloc)?;
        session_alone(alloc, &mut desk, &mut source, &mut sink, &CAPS)
    };
    Ok((status.number(), sink.taken().len()))
}

fn over_hub<R: Wait>(
    rt: &R,
    alloc: Global,
    source: &mut MemorySource,
    sink: &mut MemorySink,
) -> Result<Status, AllocError> {
    let (hub, pass) = Hub::new(alloc)?;
    let (status, _pass) = session_shared(rt, alloc, &hub, pass, source, sink, &CAPS, &NoGate);
    Ok(status)
}

/// The lines, each with its line feed.
fn script(alloc: Global, lines: Lines) -> Result<Vec<u8>, AllocError> {
    let mut script = Vec::new(alloc);
    for number in 0..lines.count {
        if number % lines.every.max(1) == 0 {
            script.extend_from_slice(PUBLICATION.as_bytes())?;
        }
        script.extend_from_slice(SENTENCE.as_bytes())?;
    }
    Ok(script)
}
