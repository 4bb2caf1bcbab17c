//! Sessions with caps of their own, and over a desk that was used before.
use mf_hub::Alone;
use mf_io::{Caps, MemorySink, MemorySource, Status};
use mf_session::session_alone;
use std::alloc::{AllocError, Global};
use std::test::Fail;

const LINT: &str = "{\"op\":\"lint\",\"source\":\"\"}";

const LINTED: &str = "{\"errors\":[],\"ok\":\"lint\",\"source\":\"\"}\n";

const STAT: &str = "{\"op\":\"stat\"}\n";

/// How a session over a desk ended, and whether it wrote this.
fn session(
    alloc: Global,
    desk: &mut Alone,
    input: Vec<u8>,
    line: u64,
    cap: u64,
    replies: &str,
) -> Result<(Status, bool), AllocError> {
    let caps = Caps {
        line: line.clamp(1, 1_048_576),
        input: cap.max(1),
    };
    let mut source = MemorySource::new(vec![in alloc; input]?, Vec::new(alloc));
    let mut sink = MemorySink::new(alloc, usize::MAX, Vec::new(alloc));
    let status = session_alone(alloc, desk, &mut source, &mut sink, &caps);
    Ok((status, sink.taken() == replies.as_bytes()))
}

/// A line of so many bytes that lints the empty source, with no line feed.
fn padded(alloc: Global, length: usize) -> Result<Vec<u8>, AllocError> {
    let mut line = Vec::from_slice(alloc, LINT.as_bytes())?;
    line.resize(length, b' ')?;
    Ok(line)
}

#[test]
fn a_line_has_its_cap(rt: HostRuntime) -> Result<(), Fail> {
    let alloc = rt.alloc();
    let mut desk = Alone::new(alloc)?;
    let most = 1_048_576;
    let line = padded(alloc, 1_048_576)?;
    let fits = session(alloc, &mut desk, line, most, u64::MAX, LINTED)?;
    assert_eq!(rt; fits, (Status::Ended, true));

    // The line before one that is too long is answered.
    let mut lines = padded(alloc, 100)?;
    lines.push(b'\n')?;
    lines.extend_from_slice(&padded(alloc, 1_048_577)?)?;
    let passes = session(alloc, &mut desk, lines, most, u64::MAX, LINTED)?;
    assert_eq!(rt; passes, (Status::LineTooLong, true));
    Ok(())
}

#[test]
fn an_input_has_its_cap(rt: HostRuntime) -> Result<(), Fail> {
    let alloc = rt.alloc();
    let mut desk = Alone::new(alloc)?;
    for (cap, status, replies) in [
        (27, Status::Ended, LINTED),
        (26, Status::InputFull, LINTED),
        (25, Status::InputFull, ""),
        (10, Status::InputFull, ""),
    ] {
        let mut input = padded(alloc, 25)?;
        input.push(b'\n')?;
        let ended = session(alloc, &mut desk, input, 100, cap, replies)?;
        assert_eq!(rt; ended, (status, true), "a cap of {cap}");
    }
    // A line that is too long comes before a full input.
    let input = padded(alloc, 25)?;
    let ended = session(alloc, &mut desk, input, 20, 25, "")?;
    assert_eq!(rt; ended, (Status::LineTooLong, true));
    Ok(())
}

#[test]
fn a_desk_keeps_what_was_published_and_compiled(rt: HostRuntime) -> Result<(), Fail> {
    let alloc = rt.alloc();
    let mut desk = Alone::new(alloc)?;
    let first = "{\"op\":\"publish\",\"locale\":\"en\",\"messages\":{\"a\":\"\",\"b\":\"\"}}\n\
        {\"op\":\"format\",\"locale\":\"en\",\"id\":\"a\"}\n";
    let replies = "{\"edition\":1,\"ok\":\"publish\"}\n\
        {\"edition\":1,\"errors\":[],\"locale\":\"en\",\"ok\":\"format\",\"parts\":[],\"text\":\"\"}\n";
    let input = Vec::from_slice(alloc, first.as_bytes())?;
    let ended = session(alloc, &mut desk, input, 200, 1_000, replies)?;
    assert_eq!(rt; ended, (Status::Ended, true));

    let input = Vec::from_slice(alloc, STAT.as_bytes())?;
    let counts = "{\"edition\":1,\"ok\":\"stat\",\"quits\":0,\"starts\":1}\n";
    let ended = session(alloc, &mut desk, input, 200, 1_000, counts)?;
    assert_eq!(rt; ended, (Status::Ended, true));
    Ok(())
}
