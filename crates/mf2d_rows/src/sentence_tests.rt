//! Sessions that are too long for a file: a full log, a catalogue at its bounds, a text at its
//! bound.
use mf_io::{MemorySink, MemorySource, Status};
use mf_text::{Text, Texts};
use mf2d::top;
use std::alloc::{AllocError, Global};
use std::test::Fail;

/// What `pipe` writes for these lines.
fn replies(alloc: Global, lines: &[&str]) -> Result<String, AllocError> {
    let mut input = Vec::new(alloc);
    for line in lines {
        input.extend_from_slice(line.as_bytes())?;
        input.push(b'\n')?;
    }
    let mut words = Texts::new(alloc);
    words.push(Text::of(alloc, "pipe")?)?;
    let mut source = MemorySource::new(vec![in alloc; input]?, Vec::new(alloc));
    let mut sink = MemorySink::new(alloc, 1_000_000, Vec::new(alloc));
    let status = top(alloc, &words, &mut source, &mut sink);
    if status != Status::Ended {
        return String::from_str(alloc, "not ended");
    }
    String::from_str(alloc, str::from_utf8(sink.taken()).unwrap_or("no text"))
}

/// The line of a publication of one message.
fn publication(alloc: Global, tag: &str, id: &str, source: &str) -> Result<String, AllocError> {
    format!(in alloc;
        "{{\"op\":\"publish\",\"locale\":\"{tag}\",\"messages\":{{\"{id}\":\"{source}\"}}}}"
    )
}

// One publication more than the log has room for is refused, and so is each one after it.
#[test]
fn a_log_has_its_most_publications(rt: HostRuntime) -> Result<(), Fail> {
    let alloc = rt.alloc();
    let message = publication(alloc, "en", "a", "b")?;
    let mut lines = Vec::new(alloc);
    for _ in 0..65_538 {
        lines.push(message.as_str())?;
    }
    let told = replies(alloc, &lines)?;
    assert!(rt;
        told.as_str().ends_with(
            "\n{\"edition\":65536,\"ok\":\"publish\"}\n{\"entries\":65536,\"error\":\"editions-full\"}\n{\"entries\":65536,\"error\":\"editions-full\"}\n"
        )
    );
    Ok(())
}

#[test]
fn a_catalogue_has_its_bounds(rt: HostRuntime) -> Result<(), Fail> {
    let alloc = rt.alloc();
    for (count, length, is_accepted) in [
        (1usize, 256usize, true),
        (1, 257, false),
        (4096, 4, true),
        (4097, 4, false),
    ] {
        let mut line = String::from_str(
            alloc,
            "{\"op\":\"publish\",\"locale\":\"en\",\"messages\":{",
        )?;
        for number in 0..count {
            let comma = if number == 0 { "" } else { "," };
            line.push_str(format!(in alloc; "{comma}\"{number:0>length$}\":\"\"")?.as_str())?;
        }
        line.push_str("}}")?;
        let told = replies(
            alloc,
            &[
                line.as_str(),
                "{\"op\":\"format\",\"locale\":\"en\",\"id\":\"0000\"}",
            ],
        )?;
        assert_eq!(rt;
            told.as_str()
                .starts_with("{\"edition\":1,\"ok\":\"publish\"}\n"),
            is_accepted,
            "{count} of {length}"
        );
        let empty =
            "{\"edition\":1,\"errors\":[],\"locale\":\"en\",\"ok\":\"format\",\"parts\":[],\"text\":\"\"}\n";
        assert_eq!(rt;
            told.as_str().ends_with(empty),
            is_accepted && count == 4096
        );
    }
    Ok(())
}

#[test]
fn a_text_has_its_bound(rt: HostRuntime) -> Result<(), Fail> {
    let alloc = rt.alloc();
    let value = vec![in alloc; b'v'; 986_889]?;
    let value = str::from_utf8(&value).unwrap_or("");
    let ask = format!(in alloc;
        "{{\"op\":\"format\",\"locale\":\"en\",\"id\":\"a\",\"args\":{{\"x\":\"{value}\"}}}}"
    )?;
    let mut source = String::new(alloc);
    for _ in 0..17 {
        source.push_str("{$x}")?;
    }
    source.push_str("a")?;
    let fits = publication(alloc, "en", "a", source.as_str())?;
    source.push_str("a")?;
    let passes = publication(alloc, "en", "a", source.as_str())?;
    let told = replies(alloc, &[fits.as_str(), ask.as_str()])?;
    assert!(rt; told.len() > 33_554_432);
    let told = replies(alloc, &[passes.as_str(), ask.as_str()])?;
    assert!(rt;
        told.as_str()
            .ends_with("\n{\"edition\":1,\"error\":\"too-long\"}\n")
    );
    Ok(())
}
