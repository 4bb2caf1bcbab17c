//! A listener at a TCP address.
ghost use Rattle.std.specs.Prelude.{◌≡◌, is_ok, if◌then◌else◌, None, IfOk, IsSome};
ghost use Rattle.mf_io.specs.Faults.{HasCause, next_count};

use crate::faults::count_up;
use crate::std_source::TRIES;
use crate::{Failed, Listener, StdSink, StdSource};
use std::io;
use std::io::ErrorKind;
use std::marker::Model;
use std::net::{Net, OpenListener, OpenStream, TcpListener};

/// A listener at a TCP address, which begins to listen at its first call. It tells nothing of what
/// is to come.
///
/// A call that a signal interrupts, or that meets a connection whose peer has given it up, is tried
/// again, up to 100 times. Every other error counts as a fault. What is written to a connection
/// isn't held back to be sent in larger parts.
#[derive(Drop)]
pub struct TcpLinks<R: Net> {
    net: R,
    address: String,
    listener: Option<R::Listener>,
    faults: u64,
}

impl<R: Net> Model for TcpLinks<R> {
    ghost use Rattle.std.specs.Prelude.{ℕ};

    ghost Value = { ℕ };

    ghost view = { λ l. l.faults };
}

impl<R: Net> TcpLinks<R> {
    /// A listener at an address, which is an IP address or the name of a host, a colon and a port.
    pub fn new(net: R, address: String) -> TcpLinks<R>
        ensures { result ≡ 0 }
    {
        TcpLinks {
            net,
            address,
            listener: None,
            faults: 0,
        }
    }

    /// How often a call has failed. At `u64::MAX` the count stays.
    pub fn faults(&self) -> u64
        ensures { result ≡ self.now }
    {
        self.faults
    }
}

impl<R: Net> Listener for TcpLinks<R> {
    type From = StdSource<R::Stream>;

    type To = StdSink<R::Stream>;

    ghost left = { λ l. None };

    ghost faults = { λ l. l };

    fn accept(&mut self) -> Result<Option<(StdSource<R::Stream>, StdSink<R::Stream>)>, Failed>
        ensures cause { HasCause self.old self.new result }
        ensures counted { self.new ≡ (if is_ok result then self.old else next_count self.old) }
        ensures comes { IfOk result IsSome }
    {
        match next_ends(&self.net, &self.address, &mut self.listener) {
            Ok((from, to)) => Ok(Some((StdSource::new(from), StdSink::new(to)))),
            Err(_) => {
                self.faults = count_up(self.faults);
                Err(Failed)
            }
        }
    }
}

// The two ends of the next connection. The listener is made where there is none yet.
fn next_ends<R: Net>(
    net: &R,
    address: &str,
    listener: &mut Option<R::Listener>,
) -> io::Result<(R::Stream, R::Stream)> {
    if let Some(listener) = listener {
        return accept_ends(listener);
    }
    let made = TcpListener::bind(net, address)?;
    let ends = accept_ends(&made);
    *listener = Some(made);
    ends
}

// The next connection, as two handles of one stream.
fn accept_ends<S: OpenStream + Drop, L: OpenListener<Stream = S>>(
    listener: &L,
) -> io::Result<(S, S)> {
    let stream = accept_past_signals(listener)?;
    stream.set_nodelay(true)?;
    let other = stream.try_clone()?;
    Ok((stream, other))
}

// One accept, tried again where a signal interrupts it or the peer has given the connection up.
fn accept_past_signals<L: OpenListener>(listener: &L) -> io::Result<L::Stream> {
    for _ in 0..TRIES {
        match listener.accept() {
            Err(error) if is_passing(error.kind()) => {}
            Err(error) => return Err(error),
            Ok((stream, _)) => return Ok(stream),
        }
    }
    let (stream, _) = listener.accept()?;
    Ok(stream)
}

// Whether a call with such an error is tried again.
fn is_passing(kind: ErrorKind) -> bool {
    kind == ErrorKind::Interrupted || kind == ErrorKind::ConnectionAborted
}
