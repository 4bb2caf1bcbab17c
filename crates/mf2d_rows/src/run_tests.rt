//! Runs whose input or output fails, is cut, or has a cap, and words that are no command.
ghost use Rattle.std.specs.Prelude.{◌<◌};

use mf_io::{MemorySink, MemorySource, Sink, Source, Status};
use mf_text::{Text, Texts};
use mf2d::top;
use std::alloc::{AllocError, Global};
use std::test::Fail;

const BAD_JSON: &str = "{\"error\":\"bad-json\"}\n";

const BAD_OP: &str = "{\"error\":\"bad-request\",\"field\":\"op\"}\n";

const ACCEPTED: &str = "{\"edition\":1,\"ok\":\"publish\"}\n";

const HELLO_ANN: &str =
    "{\"edition\":1,\"errors\":[],\"locale\":\"en\",\"ok\":\"format\",\"parts\":[\
    {\"kind\":\"text\",\"value\":\"Hello \"},{\"kind\":\"isolate\",\"value\":\"\u{2068}\"},\
    {\"kind\":\"string\",\"value\":\"Ann\"},{\"kind\":\"isolate\",\"value\":\"\u{2069}\"},\
    {\"kind\":\"text\",\"value\":\"!\"}],\"text\":\"Hello \u{2068}Ann\u{2069}!\"}\n";

/// Two requests, the second without a line feed.
const REQUESTS: &[u8] =
    b"{\"op\":\"publish\",\"locale\":\"en\",\"messages\":{\"hi\":\"Hello {$name}!\"}}\n\
    {\"op\":\"format\",\"locale\":\"en\",\"id\":\"hi\",\"args\":{\"name\":\"Ann\"}}";

/// The bytes of the first with its line feed.
const FIRST_LINE: usize = 66;

/// What a run left behind.
#[derive(Debug, Drop)]
struct Run {
    status: Status,
    written: Vec<u8>,
    read_faults: u64,
    write_faults: u64,
}

/// Bytes cut into pieces of this length.
fn pieces(alloc: Global, bytes: &[u8], length: usize) -> Result<Vec<Vec<u8>>, AllocError>
    requires { 0 < length }
{
    let mut pieces = Vec::new(alloc);
    for piece in bytes.chunks(length) {
        pieces.push(Vec::from_slice(alloc, piece)?)?;
    }
    Ok(pieces)
}

fn run_words(
    alloc: Global,
    words: &[&str],
    input: Vec<Vec<u8>>,
    failing_reads: Vec<u64>,
    failing_writes: Vec<u64>,
) -> Result<Run, AllocError> {
    let mut texts = Texts::new(alloc);
    for word in words {
        texts.push(Text::of(alloc, word)?)?;
    }
    let mut source = MemorySource::new(input, failing_reads);
    let mut sink = MemorySink::new(alloc, 1_000_000, failing_writes);
    let status = top(alloc, &texts, &mut source, &mut sink);
    Ok(Run {
        status,
        written: Vec::from_slice(alloc, sink.taken())?,
        read_faults: source.faults(),
        write_faults: sink.faults(),
    })
}

/// A run of `pipe` in which nothing fails.
fn pipe(alloc: Global, input: Vec<Vec<u8>>) -> Result<Run, AllocError> {
    run_words(alloc, &["pipe"], input, Vec::new(alloc), Vec::new(alloc))
}

#[test]
fn every_line_gets_its_reply(rt: HostRuntime) -> Result<(), Fail> {
    let alloc = rt.alloc();
    let mut deep = String::new(alloc);
    for _ in 0..127 {
        deep.push('[')?;
    }
    for _ in 0..127 {
        deep.push(']')?;
    }
    let too_deep = format!(in alloc; "[{deep}]")?;
    let rows: [(&[u8], &[&str]); 9] = [
        (b"", &[]),
        (b"x", &[BAD_JSON]),
        (b"\n", &[BAD_JSON]),
        (b"\"\xff\"\n", &[BAD_JSON]),
        (b"[]\n\n[]", &[BAD_OP, BAD_JSON, BAD_OP]),
        (b"{} \r\n 1", &[BAD_OP, BAD_OP]),
        (deep.as_bytes(), &[BAD_OP]),
        (too_deep.as_bytes(), &[BAD_JSON]),
        (REQUESTS, &[ACCEPTED, HELLO_ANN]),
    ];
    for (input, replies) in rows {
        let mut expected = String::new(alloc);
        for reply in replies {
            expected.push_str(reply)?;
        }
        for length in [1, 3, 1_000] {
            let run = pipe(alloc, pieces(alloc, input, length)?)?;
            assert_eq!(rt; run.status, Status::Ended);
            assert_eq!(rt;
                str::from_utf8(&run.written),
                Ok(expected.as_str()),
                "{input:?} by {length}"
            );
        }
    }
    Ok(())
}

#[test]
fn other_words_are_no_command(rt: HostRuntime) -> Result<(), Fail> {
    let alloc = rt.alloc();
    let rows: [&[&str]; 12] = [
        &[],
        &["pipes"],
        &["Pipe"],
        &["pipe", ""],
        &["", "pipe"],
        &["lint", "pipe"],
        &["lin"],
        &["mill"],
        &["mill", "0"],
        &["mill", "03"],
        &["mill", "+3"],
        &["mill", "100001"],
    ];
    for words in rows {
        let input = pieces(alloc, REQUESTS, 7)?;
        let run = run_words(alloc, words, input, Vec::new(alloc), Vec::new(alloc))?;
        assert_eq!(rt; run.status, Status::Usage, "{words:?}");
        assert!(rt; run.written.is_empty());
    }
    Ok(())
}

#[test]
fn a_large_run_is_summed_up(rt: HostRuntime) -> Result<(), Fail> {
    let alloc = rt.alloc();
    for (count, line) in [
        (
            "1",
            "{\"editions\":2,\"formats\":1,\"ok\":\"mill\",\"starts\":1,\"text_bytes\":11}\n",
        ),
        (
            "3",
            "{\"editions\":2,\"formats\":3,\"ok\":\"mill\",\"starts\":1,\"text_bytes\":25}\n",
        ),
        (
            "101",
            "{\"editions\":3,\"formats\":101,\"ok\":\"mill\",\"starts\":1,\"text_bytes\":1035}\n",
        ),
        (
            "100000",
            "{\"editions\":1001,\"formats\":100000,\"ok\":\"mill\",\"starts\":1,\"text_bytes\":1072560}\n",
        ),
    ] {
        let input = pieces(alloc, REQUESTS, 7)?;
        let run = run_words(
            alloc,
            &["mill", count],
            input,
            Vec::new(alloc),
            Vec::new(alloc),
        )?;
        assert_eq!(rt; run.status, Status::Ended);
        assert_eq!(rt; str::from_utf8(&run.written), Ok(line));
    }
    Ok(())
}

#[test]
fn a_fault_ends_a_large_run(rt: HostRuntime) -> Result<(), Fail> {
    let alloc = rt.alloc();
    let line = "{\"editions\":2,\"formats\":1,\"ok\":\"mill\",\"starts\":1,\"text_bytes\":11}";
    // The line is two writes, and then there is a flush.
    for (failing, written, feeds) in [(1, "", 0), (2, line, 0), (3, line, 1)] {
        let run = run_words(
            alloc,
            &["mill", "1"],
            Vec::new(alloc),
            Vec::new(alloc),
            vec![in alloc; failing]?,
        )?;
        assert_eq!(rt; run.status, Status::WriteFault);
        assert_eq!(rt; run.write_faults, 1);
        assert!(rt; run.written.starts_with(written.as_bytes()));
        assert_eq!(rt; run.written.len(), written.len() + feeds);
    }
    Ok(())
}

#[test]
fn a_fault_ends_the_run(rt: HostRuntime) -> Result<(), Fail> {
    let alloc = rt.alloc();
    // The third read fails, and there was no whole line.
    let input = pieces(alloc, REQUESTS, 10)?;
    let read = run_words(alloc, &["pipe"], input, vec![in alloc; 3]?, Vec::new(alloc))?;
    assert_eq!(rt; read.status, Status::ReadFault);
    assert_eq!(rt; read.read_faults, 1);
    assert!(rt; read.written.is_empty());

    // The second read fails, and the first gave a whole line and ten bytes of the next.
    let input = pieces(alloc, REQUESTS, FIRST_LINE + 10)?;
    let read = run_words(alloc, &["pipe"], input, vec![in alloc; 2]?, Vec::new(alloc))?;
    assert_eq!(rt; read.status, Status::ReadFault);
    assert_eq!(rt; read.read_faults, 1);
    assert_eq!(rt; str::from_utf8(&read.written), Ok(ACCEPTED));

    // A write or a flush fails. Each reply is two writes, and there is a flush when what was read
    // is answered.
    let rows = [
        (1, ""),
        (2, "{\"edition\":1,\"ok\":\"publish\"}"),
        (3, ACCEPTED),
        (4, ACCEPTED),
    ];
    for (failing, written) in rows {
        let input = pieces(alloc, REQUESTS, 1_000)?;
        let run = run_words(
            alloc,
            &["pipe"],
            input,
            Vec::new(alloc),
            vec![in alloc; failing]?,
        )?;
        assert_eq!(rt; run.status, Status::WriteFault);
        assert_eq!(rt; run.write_faults, 1);
        assert_eq!(rt; str::from_utf8(&run.written), Ok(written));
    }
    Ok(())
}

/// A run of `lint` in which nothing fails.
fn lint(alloc: Global, input: Vec<Vec<u8>>) -> Result<Run, AllocError> {
    run_words(alloc, &["lint"], input, Vec::new(alloc), Vec::new(alloc))
}

#[test]
fn a_source_is_linted(rt: HostRuntime) -> Result<(), Fail> {
    let alloc = rt.alloc();
    for (source, line) in [
        (
            b"".as_slice(),
            "{\"errors\":[],\"ok\":\"lint\",\"source\":\"\"}\n",
        ),
        (
            b".local   $a={1}{{ {$a} }}",
            "{\"errors\":[],\"ok\":\"lint\",\"source\":\".local $a = {1}\\n{{ {$a} }}\"}\n",
        ),
        (
            b".input {$v :number minimumFractionDigits=$w} .input {$w :number} {{x}}",
            "{\"errors\":[{\"kind\":\"duplicate-declaration\",\"of\":\"$w\"}],\"ok\":\"lint\"}\n",
        ),
        (
            b".x\n",
            "{\"errors\":[{\"kind\":\"syntax-error\",\"of\":\"\"}],\"ok\":\"lint\"}\n",
        ),
        (b"\xff", "{\"error\":\"bad-utf8\"}\n"),
    ] {
        for length in [1, 1_000] {
            let run = lint(alloc, pieces(alloc, source, length)?)?;
            assert_eq!(rt; run.status, Status::Ended);
            assert_eq!(rt; str::from_utf8(&run.written), Ok(line), "{source:?}");
        }
    }
    Ok(())
}

#[test]
fn a_source_has_a_cap(rt: HostRuntime) -> Result<(), Fail> {
    let alloc = rt.alloc();
    let most = 1_048_577 as usize - 1;
    let rows = [
        (b'a', most, Status::Ended),
        (b'\xff', most, Status::Ended),
        (b'a', most + 1, Status::LineTooLong),
        (b'\xff', most + 1, Status::LineTooLong),
    ];
    for (byte, length, status) in rows {
        let input = vec![in alloc; vec![in alloc; byte; length]?]?;
        let run = lint(alloc, input)?;
        assert_eq!(rt; run.status, status, "{length} bytes");
        assert_eq!(rt; run.written.is_empty(), status != Status::Ended);
    }
    Ok(())
}

#[test]
fn a_fault_ends_a_lint(rt: HostRuntime) -> Result<(), Fail> {
    let alloc = rt.alloc();
    let input = pieces(alloc, b"abc", 1)?;
    let read = run_words(alloc, &["lint"], input, vec![in alloc; 2]?, Vec::new(alloc))?;
    assert_eq!(rt; read.status, Status::ReadFault);
    assert!(rt; read.written.is_empty());
    for failing in 1..4 {
        let input = pieces(alloc, b"abc", 1)?;
        let run = run_words(
            alloc,
            &["lint"],
            input,
            Vec::new(alloc),
            vec![in alloc; failing]?,
        )?;
        assert_eq!(rt; run.status, Status::WriteFault);
        assert_eq!(rt; run.write_faults, 1);
    }
    Ok(())
}
