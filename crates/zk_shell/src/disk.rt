//! Files of the system.

ghost use Rattle.std.specs.Prelude.{None};

use shell_commands::files::Files;
use std::fs::File;
use std::io;

/// What opens files of the system.
#[derive(Drop)]
pub struct Disk<'a> {
    runtime: &'a HostRuntime,
}

impl<'a> Disk<'a> {
    /// Over the runtime of a process.
    pub fn new(runtime: &'a HostRuntime) -> Disk<'a> {
        Disk { runtime }
    }
}

impl<'a> Files for Disk<'a> {
    type File = File;

    /// Nothing is known of the system's files.
    ghost holds = { λ _ _. None };

    fn open(&self, name: &str) -> io::Result<File> {
        File::open(self.runtime, name)
    }
}
