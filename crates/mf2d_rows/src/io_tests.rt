//! Worked rows: what sources and sinks in memory do, and what is read and sent over them.
ghost use Rattle.std.specs.Prelude.{◌≤◌};

use mf_io::{
    Failed, GatherError, MemorySink, MemorySource, Sink, Source, Status, StdSink, StdSource,
    gather, send,
};
use std::alloc::{AllocError, Global};
use std::io;
use std::io::{ErrorKind, Read, Write};
use std::test::Fail;

const TEXT: &[u8] = b"greetings";

// The text in pieces of `most` bytes.
fn pieces(alloc: Global, most: usize) -> Result<Vec<Vec<u8>>, AllocError>
    requires { 1 ≤ most }
{
    let mut pieces = Vec::new(alloc);
    for piece in TEXT.chunks(most) {
        pieces.push(Vec::from_slice(alloc, piece)?)?;
    }
    Ok(pieces)
}

#[test]
fn a_read_gives_bytes_of_one_piece(rt: HostRuntime) -> Result<(), Fail> {
    let alloc = rt.alloc();
    let pieces = vec![in alloc;
        vec![in alloc; 1, 2, 3]?,
        vec![in alloc]?,
        vec![in alloc; 4]?,
    ]?;
    let mut source = MemorySource::new(pieces, vec![in alloc; 3]?);
    let rows = [
        (Ok(2), [1, 2], 0),
        (Ok(1), [3, 2], 0),
        (Err(Failed), [3, 2], 1),
        (Ok(1), [4, 2], 1),
        (Ok(0), [4, 2], 1),
        (Ok(0), [4, 2], 1),
    ];
    let mut buffer = [0; 2];
    for (count, bytes, faults) in rows {
        assert_eq!(rt; source.read(&mut buffer), count);
        assert_eq!(rt; buffer, bytes);
        assert_eq!(rt; source.faults(), faults);
    }
    Ok(())
}

#[test]
fn a_sink_counts_writes_and_flushes_together(rt: HostRuntime) -> Result<(), Fail> {
    let alloc = rt.alloc();
    let mut sink = MemorySink::new(alloc, 3, vec![in alloc; 2, 4]?);
    assert_eq!(rt; sink.write(b"hello"), Ok(3));
    assert_eq!(rt; sink.write(b"lo"), Err(Failed));
    assert_eq!(rt; sink.write(b"lo"), Ok(2));
    assert_eq!(rt; sink.flush(), Err(Failed));
    assert_eq!(rt; sink.flush(), Ok(()));
    assert_eq!(rt; sink.write(b""), Ok(0));
    assert_eq!(rt; sink.taken(), b"hello".as_slice());
    assert_eq!(rt; sink.faults(), 2);
    Ok(())
}

#[test]
fn an_input_is_gathered_from_pieces_of_any_length(rt: HostRuntime) -> Result<(), Fail> {
    let alloc = rt.alloc();
    for most in [1, 3, 9] {
        for (cap, full) in [(10, false), (9, true), (8, true), (1, true)] {
            let mut source = MemorySource::new(pieces(alloc, most)?, vec![in alloc]?);
            match gather(alloc, &mut source, cap) {
                Ok(input) => {
                    assert!(rt; !full, "a cap of {cap}");
                    assert_eq!(rt; input.as_slice(), TEXT);
                }
                Err(error) => {
                    assert!(rt; full, "a cap of {cap}");
                    assert_eq!(rt; error, GatherError::Full);
                }
            }
            let mut rest = [0; 9];
            let left = source.read(&mut rest).is_ok_and(|count| count > 0);
            assert_eq!(rt; left, cap < 9, "pieces of {most}, a cap of {cap}");
            assert_eq!(rt; source.faults(), 0);
        }
    }
    Ok(())
}

#[test]
fn the_third_read_fails(rt: HostRuntime) -> Result<(), Fail> {
    let alloc = rt.alloc();
    for (most, fails) in [(1, true), (3, true), (9, false)] {
        let mut source = MemorySource::new(pieces(alloc, most)?, vec![in alloc; 3]?);
        let gathered = gather(alloc, &mut source, 100);
        assert_eq!(rt; gathered.err(), fails.then_some(GatherError::Failed));
        assert_eq!(rt; source.faults(), u64::from(fails));
    }
    Ok(())
}

#[test]
fn a_piece_is_sent_whole_or_up_to_the_fault(rt: HostRuntime) -> Result<(), Fail> {
    let alloc = rt.alloc();
    let rows = [
        (1, 0, 9),
        (3, 0, 9),
        (100, 0, 9),
        (1, 2, 1),
        (3, 2, 3),
        (100, 2, 9),
    ];
    for (most, failing, taken) in rows {
        let mut sink = MemorySink::new(alloc, most, vec![in alloc; failing]?);
        let sent = send(&mut sink, TEXT);
        assert_eq!(rt; sent.is_ok(), taken == TEXT.len(), "{most} at once");
        assert_eq!(rt; sink.taken(), TEXT.get(..taken).unwrap_or_default());
        assert_eq!(rt; sink.faults(), u64::from(sent.is_err()));
    }
    Ok(())
}

#[test]
fn std_readers_and_writers_are_sources_and_sinks(rt: HostRuntime) -> Result<(), Fail> {
    let alloc = rt.alloc();
    let mut source = StdSource::new(TEXT);
    assert_eq!(rt; gather(alloc, &mut source, 100)?.as_slice(), TEXT);
    assert_eq!(rt; source.faults(), 0);

    let mut bytes = Vec::new(alloc);
    let mut sink = StdSink::new(&mut bytes);
    send(&mut sink, TEXT)?;
    sink.flush()?;
    assert_eq!(rt; sink.faults(), 0);
    assert_eq!(rt; bytes.as_slice(), TEXT);
    Ok(())
}

// A device that signals interrupt at first, and that then has nothing to read, fails, and takes
// nothing.
#[derive(Drop)]
struct Flaky {
    calls: u64,
}

impl Read for Flaky {
    fn read(&mut self, _: &mut [u8]) -> io::Result<usize> {
        self.calls = self.calls.saturating_add(1);
        match self.calls {
            1 | 2 => Err(ErrorKind::Interrupted.into()),
            3 => Ok(0),
            _ => Err(ErrorKind::Other.into()),
        }
    }
}

impl Write for Flaky {
    fn write(&mut self, _: &[u8]) -> io::Result<usize> {
        Ok(0)
    }

    fn flush(&mut self) -> io::Result<()> {
        self.calls = self.calls.saturating_add(1);
        Err(ErrorKind::Interrupted.into())
    }
}

#[test]
fn errors_of_std_are_counted_and_signals_are_not(rt: HostRuntime) {
    let mut source = StdSource::new(Flaky { calls: 0 });
    let mut buffer = [0; 4];
    for (count, faults) in [(Ok(0), 0), (Err(Failed), 1), (Err(Failed), 2)] {
        assert_eq!(rt; source.read(&mut buffer), count);
        assert_eq!(rt; source.faults(), faults);
    }

    let mut device = Flaky { calls: 0 };
    let mut sink = StdSink::new(&mut device);
    assert_eq!(rt; sink.write(b""), Ok(0));
    assert_eq!(rt; sink.write(b"a"), Err(Failed));
    assert_eq!(rt; sink.faults(), 1);
    assert_eq!(rt; sink.flush(), Err(Failed));
    assert_eq!(rt; sink.faults(), 2);
    assert_eq!(rt; device.calls, 101);
}

#[test]
fn statuses_have_their_numbers(rt: HostRuntime) {
    let rows = [
        (Status::Ended, 0),
        (Status::Usage, 1),
        (Status::ReadFault, 2),
        (Status::WriteFault, 3),
        (Status::LineTooLong, 4),
        (Status::OutOfMemory, 5),
        (Status::InputFull, 6),
        (Status::ListenFault, 7),
    ];
    for (status, number) in rows {
        assert_eq!(rt; status.number(), number);
    }
}
