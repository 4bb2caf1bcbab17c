//! A peer at the other end of a socket.

use std::alloc::Global;
use std::io::{Read, Write};
use std::net::{Net, OpenListener, OpenStream, Shutdown, TcpListener, TcpStream};
use std::{io, thread};

/// How often a peer tries to connect at most.
const TRIES: u32 = 1_000_000;

/// An address at which nobody listened a moment ago.
pub fn free_address<R: Net>(net: &R, alloc: Global) -> io::Result<String> {
    let listener = TcpListener::bind(net, "127.0.0.1:0")?;
    Ok(listener.local_addr()?.to_string(alloc)?)
}

/// Sends bytes to an address, once there is a listener, and takes what comes back until the other
/// end closes.
pub fn ask<R: Net>(net: &R, alloc: Global, address: &str, bytes: &[u8]) -> io::Result<Vec<u8>> {
    let mut stream = connect(net, address)?;
    stream.write_all(bytes)?;
    stream.shutdown(Shutdown::Write)?;
    let mut back = Vec::new(alloc);
    stream.read_to_end(&mut back)?;
    Ok(back)
}

fn connect<R: Net>(net: &R, address: &str) -> io::Result<R::Stream> {
    for _ in 0..TRIES {
        if let Ok(stream) = TcpStream::connect(net, address) {
            return Ok(stream);
        }
        thread::yield_now();
    }
    TcpStream::connect(net, address)
}
