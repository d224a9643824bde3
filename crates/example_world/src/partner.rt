//! What a driver dials, reads, writes and waits by, over a server in memory.

use crate::moments::Moments;
use std::cell::RefCell;
use std::io::{self, ErrorKind, Read, Write};
use zk_link::{Clock, Dial, Stream};

/// A server in memory as a driver meets it, with the connection to it. What it refuses is an error, as of an operating system.
pub trait Server: Drop {
    /// What a connection holds as long as it is there.
    type Held: Drop;

    /// A connection is asked for, which may take this many milliseconds.
    fn dial(&mut self, within_ms: u64, moments: &Moments) -> io::Result<Self::Held>;

    /// Whether the connection can be told how long a read may wait.
    fn is_patient(&self) -> bool;

    /// The bytes that come, at most this many: none where nothing comes for now, and `None` where nothing comes any more.
    fn read(&mut self, most: usize, moments: &Moments) -> io::Result<Option<Vec<u8>>>;

    /// The first of these bytes go. How many of them.
    fn write(&mut self, bytes: &[u8], moments: &Moments) -> io::Result<usize>;

    /// Somebody waits for this many milliseconds, or until something happens.
    fn wait(&mut self, ms: u64, moments: &Moments) -> io::Result<()>;
}

/// A connection. A read that nothing comes for waits for this many milliseconds.
#[derive(Drop)]
pub struct Partner<'a, S: Server> {
    server: &'a RefCell<S>,
    moments: &'a Moments,
    _held: S::Held,
    ms: u64,
}

impl<'a, S: Server> Read for Partner<'a, S> {
    fn read(&mut self, buf: &mut [u8]) -> io::Result<usize> {
        let Ok(mut server) = self.server.try_borrow_mut() else {
            return Err(ErrorKind::Other.into());
        };
        let Some(bytes) = server.read(buf.len(), self.moments)? else {
            return Ok(0);
        };
        if bytes.is_empty() {
            server.wait(self.ms, self.moments)?;
            return Err(ErrorKind::WouldBlock.into());
        }
        let mut bytes = bytes.as_slice();
        bytes.read(buf)
    }
}

impl<'a, S: Server> Write for Partner<'a, S> {
    fn write(&mut self, buf: &[u8]) -> io::Result<usize> {
        let Ok(mut server) = self.server.try_borrow_mut() else {
            return Err(ErrorKind::Other.into());
        };
        Ok(server.write(buf, self.moments)?.min(buf.len()))
    }

    fn flush(&mut self) -> io::Result<()> {
        Ok(())
    }
}

impl<'a, S: Server> Stream for Partner<'a, S> {
    ghost state = { λ _. tt };

    fn wait_at_most(&mut self, ms: u64) -> io::Result<()> {
        let is_patient = self
            .server
            .try_borrow()
            .is_ok_and(|server| server.is_patient());
        if !is_patient {
            return Err(ErrorKind::Other.into());
        }
        self.ms = ms;
        Ok(())
    }

    fn read_some(&mut self, buf: &mut [u8]) -> io::Result<usize> {
        self.read(buf)
    }

    fn give(&mut self, buf: &[u8]) -> io::Result<usize> {
        self.write(buf)
    }
}

/// What dials a server in memory, whatever the address, and the clock. A driver has one of each.
#[derive(Drop)]
pub struct Shared<'a, S: Server> {
    server: &'a RefCell<S>,
    moments: &'a Moments,
}

impl<'a, S: Server> Shared<'a, S> {
    /// Over a server and the moments that go by there.
    pub fn new(server: &'a RefCell<S>, moments: &'a Moments) -> Shared<'a, S> {
        Shared { server, moments }
    }
}

impl<'a, S: Server> Dial for Shared<'a, S> {
    type Stream = Partner<'a, S>;

    fn dial(&mut self, _address: &str, within_ms: u64) -> io::Result<Partner<'a, S>> {
        let Ok(mut server) = self.server.try_borrow_mut() else {
            return Err(ErrorKind::Other.into());
        };
        Ok(Partner {
            server: self.server,
            moments: self.moments,
            _held: server.dial(within_ms, self.moments)?,
            ms: 0,
        })
    }
}

impl<'a, S: Server> Clock for Shared<'a, S> {
    fn now(&mut self) -> u64 {
        self.moments.now()
    }

    fn pause(&mut self, ms: u64) {
        if let Ok(mut server) = self.server.try_borrow_mut() {
            let _ = server.wait(ms, self.moments);
        }
    }
}
