//! A writer that keeps why it failed.

use std::io::{self, ErrorKind, Write};

/// A writer that passes on what is written, and keeps the kind of the last failure.
#[derive(Drop)]
pub struct NotedOutput<W: Write + Drop> {
    to: W,
    fault: Option<ErrorKind>,
}

impl<W: Write + Drop> NotedOutput<W> {
    /// Over another one, which has not failed yet.
    pub fn new(to: W) -> NotedOutput<W> {
        NotedOutput { to, fault: None }
    }

    /// Why it failed last.
    pub fn fault(&self) -> Option<ErrorKind> {
        self.fault
    }
}

impl<W: Write + Drop> Write for NotedOutput<W> {
    fn write(&mut self, buf: &[u8]) -> io::Result<usize> {
        let written = self.to.write(buf);
        if let Err(fault) = &written {
            self.fault = Some(fault.kind());
        }
        written
    }

    fn flush(&mut self) -> io::Result<()> {
        self.to.flush()
    }
}
