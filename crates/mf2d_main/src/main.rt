//! The program `mf2d`: hands the words of the command line and the standard streams to the library
//! of that name, and ends with its status.
#![tactic(auto)]

use mf_io::{NoGate, Status, StdSink, StdSource, TcpLinks};
use mf_text::{Text, Texts};
use mf2d::{top, top_shared};
use std::io::BufWriter;
use std::net::{Net, TcpListener, TcpStream};
use std::process::ExitCode;
use std::sync::Wait;
use std::thread::Threads;
use std::{env, io};

/// The words after the program's name.
fn words(rt: &HostRuntime) -> io::Result<Texts> {
    let mut words = Texts::new(rt.alloc());
    for word in env::args(rt)?.skip(1) {
        words.push(Text::from(word))?;
    }
    Ok(words)
}

/// Runs a command over standard input and standard output, with threads and sockets where its
/// callers share a log.
fn run<R: Net<Listener = TcpListener, Stream = TcpStream> + Threads + Wait + Sync>(
    rt: &HostRuntime,
    shared: &R,
) -> io::Result<Status> {
    let words = words(rt)?;
    let mut source = StdSource::new(rt.reader());
    let mut sink = StdSink::new(BufWriter::new(rt.alloc(), io::writer(rt))?);
    if is_shared(&words) {
        let mut links = TcpLinks::new(shared, address_in(rt, &words)?);
        Ok(top_shared(
            shared,
            rt.alloc(),
            &words,
            &mut source,
            &mut sink,
            &mut links,
            &NoGate,
        ))
    } else {
        Ok(top(rt.alloc(), &words, &mut source, &mut sink))
    }
}

/// Whether the words are to be those of a command whose callers share a log.
fn is_shared(words: &Texts) -> bool {
    match words.as_slice() {
        [word, ..] => matches!(word.as_str(), "rehearse" | "serve"),
        [] => false,
    }
}

/// The address of `serve`, which is the second word, or nothing.
fn address_in(rt: &HostRuntime, words: &Texts) -> io::Result<String> {
    let mut address = String::new(rt.alloc());
    if let [_, word, ..] = words.as_slice() {
        address.push_str(word.as_str())?;
    }
    Ok(address)
}

fn main(rt: HostRuntime) -> ExitCode {
    let status = run(&rt, &rt).unwrap_or(Status::OutOfMemory);
    if status == Status::Usage {
        let _ = eprintln!(rt; "usage: mf2d pipe | lint | mill N | rehearse | serve ADDR LIMIT");
    }
    ExitCode::from(status.number())
}
