//! A server in memory, and the connection to it.

use crate::moments::Moments;
use crate::partner::Server;
use anyhow::Result;
use std::alloc::Global;
use std::io::{self, ErrorKind};
use zk_bench::{Bench, Change, History};

/// The most requests that the server processes after one write.
const REQUESTS: usize = 16;

/// A server that answers each request as it comes, and the connection to it.
#[derive(Drop)]
pub struct World {
    bench: Bench<Global>,
    piece: usize,
    is_busy: bool,
    is_apart: bool,
    is_closed: bool,
    is_told: bool,
    is_expired: bool,
    is_losing: bool,
}

impl World {
    /// A server over a history, before its first transaction. A read brings at most this many bytes, where 0 counts as 1.
    pub fn new(alloc: Global, history: History<Global>, piece: usize) -> World {
        World {
            bench: Bench::new(alloc, history),
            piece: piece.max(1),
            is_busy: false,
            is_apart: false,
            is_closed: false,
            is_told: false,
            is_expired: false,
            is_losing: false,
        }
    }

    /// The history, with all that was written.
    pub fn history(&self) -> &History<Global> {
        self.bench.history()
    }

    /// From now on the server takes a transaction after each request, so that what is asked at once is answered from several trees.
    pub fn be_busy(&mut self) {
        self.is_busy = true;
    }

    /// Another session changes something, and the server takes it.
    pub fn change(&mut self, change: Change<Global>) -> Result<()> {
        self.bench.append(change)?;
        self.bench.take(1).map_err(From::from)
    }

    /// The connection is cut, and none can be made.
    pub fn part(&mut self) {
        self.is_apart = true;
        self.is_closed = true;
        self.bench.disconnect();
    }

    /// Connections can be made again.
    pub fn join(&mut self) {
        self.is_apart = false;
    }

    /// The session expires, which the server says at the next connection. After that it begins new ones.
    pub fn expire(&mut self) {
        self.is_expired = true;
    }

    /// The next write is made, and the connection ends before its answer comes.
    pub fn lose(&mut self) {
        self.is_losing = true;
    }

    /// The connection ends, where a write after this zxid was made whose answer is to be lost.
    fn lose_answer(&mut self, before: i64) {
        if self.is_losing && before < self.bench.history().last_zxid() {
            self.is_losing = false;
            self.is_closed = true;
            self.bench.disconnect();
        }
    }
}

impl Server for World {
    type Held = ();

    fn dial(&mut self, _within_ms: u64, _moments: &Moments) -> io::Result<()> {
        if self.is_apart {
            return Err(ErrorKind::ConnectionRefused.into());
        }
        if self.is_expired {
            self.bench.expire();
        } else if self.is_told {
            self.bench.renew();
        }
        self.is_told = self.is_expired;
        self.is_expired = false;
        self.is_closed = false;
        self.bench.connect(1);
        Ok(())
    }

    fn is_patient(&self) -> bool {
        true
    }

    fn read(&mut self, most: usize, _moments: &Moments) -> io::Result<Option<Vec<u8>>> {
        if self.is_closed {
            return Ok(None);
        }
        Ok(Some(self.bench.output(most.min(self.piece))?))
    }

    fn write(&mut self, bytes: &[u8], _moments: &Moments) -> io::Result<usize> {
        if self.is_closed {
            return Err(ErrorKind::BrokenPipe.into());
        }
        let before = self.bench.history().last_zxid();
        self.bench.receive(bytes)?;
        for _ in 0..REQUESTS {
            self.bench.process()?;
        }
        if self.is_busy {
            self.bench.take(1)?;
        }
        self.lose_answer(before);
        Ok(bytes.len())
    }

    fn wait(&mut self, ms: u64, moments: &Moments) -> io::Result<()> {
        moments.pass(ms);
        Ok(())
    }
}
