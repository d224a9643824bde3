//! Connections by TCP.

use crate::dial::{Dial, Stream};
use crate::host::host_of;
use std::io::{self, ErrorKind, Read, Write};
use std::net::{HostAddrs, Net, OpenStream, TcpStream, ToSocketAddrs};
use std::time::Duration;

/// How long a write may wait for room, in milliseconds.
const LONGEST_WRITE_MS: u64 = 1;

/// What connects by TCP, over the network that it is handed.
#[derive(Drop)]
pub struct Tcp<'a, R: Net> {
    net: &'a R,
}

/// A connection by TCP.
#[derive(Drop)]
pub struct Socket<S: Drop> {
    stream: S,
}

impl<'a, R: Net> Tcp<'a, R> {
    /// Over a network.
    pub fn new(net: &'a R) -> Tcp<'a, R> {
        Tcp { net }
    }
}

impl<S: Read + Drop> Read for Socket<S> {
    fn read(&mut self, buf: &mut [u8]) -> io::Result<usize> {
        self.stream.read(buf)
    }
}

impl<S: Write + Drop> Write for Socket<S> {
    fn write(&mut self, buf: &[u8]) -> io::Result<usize> {
        self.stream.write(buf)
    }

    fn flush(&mut self) -> io::Result<()> {
        self.stream.flush()
    }
}

impl<S: Read + Write + OpenStream + Drop> Stream for Socket<S> {
    ghost state = { λ _. tt };

    fn wait_at_most(&mut self, ms: u64) -> io::Result<()> {
        self.stream
            .set_read_timeout(Some(Duration::from_millis(ms)))
    }

    fn read_some(&mut self, buf: &mut [u8]) -> io::Result<usize> {
        self.read(buf)
    }

    fn give(&mut self, buf: &[u8]) -> io::Result<usize> {
        self.write(buf)
    }
}

/// The addresses that a host has now, in numbers: one that is written in numbers, or all that its name is looked up to.
fn addresses_of<R: Net>(net: &R, address: &str) -> io::Result<HostAddrs> {
    let Some(host) = host_of(address) else {
        return Err(io::Error::from(ErrorKind::InvalidInput));
    };
    let Ok(port) = host.port.parse::<u16>() else {
        return Err(io::Error::from(ErrorKind::InvalidInput));
    };
    match (host.name, port).to_socket_addrs(net) {
        Ok(addresses) => Ok(addresses),
        Err(_) => Err(io::Error::from(ErrorKind::NotFound)),
    }
}

/// Connects to the first of these addresses that answers. Each gets its share of the time.
fn connect<R: Net>(net: &R, addresses: HostAddrs, within_ms: u64) -> io::Result<R::Stream> {
    let share = within_ms / (addresses.len() as u64).max(1);
    let within = Duration::from_millis(share.max(1));
    let mut last = io::Error::from(ErrorKind::NotFound);
    for address in addresses {
        match TcpStream::connect_timeout(net, &address, within) {
            Ok(stream) => return Ok(stream),
            Err(fault) => last = fault,
        }
    }
    Err(last)
}

impl<'a, R: Net> Dial for Tcp<'a, R> {
    type Stream = Socket<R::Stream>;

    /// The address is a host and a port, as [`host_of`] reads them. A name is looked up each time: where none is found, the error is of
    /// the kind `NotFound`. Its addresses are tried in the order in which the system names them, each for its share of the time. How long
    /// a look-up may take, which comes before that, the system alone decides.
    fn dial(&mut self, address: &str, within_ms: u64) -> io::Result<Socket<R::Stream>> {
        let addresses = addresses_of(self.net, address)?;
        let stream = connect(self.net, addresses, within_ms)?;
        stream.set_write_timeout(Some(Duration::from_millis(LONGEST_WRITE_MS)))?;
        Ok(Socket { stream })
    }
}
