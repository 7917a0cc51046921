//! Writers that each fail in one way.

use std::alloc::Global;
use std::io;
use std::io::{ErrorKind, Write};

/// Takes one byte at a time and keeps it; each second write is interrupted.
#[derive(Drop)]
pub struct Interrupted {
    pub bytes: Vec<u8>,
    ready: bool,
}

impl Interrupted {
    pub fn new(alloc: Global) -> Interrupted {
        Interrupted {
            bytes: Vec::new(alloc),
            ready: false,
        }
    }
}

impl Write for Interrupted {
    fn write(&mut self, buf: &[u8]) -> io::Result<usize> {
        self.ready = !self.ready;
        if self.ready {
            return Err(io::Error::from(ErrorKind::Interrupted));
        }
        let taken = &buf[..buf.len().min(1)];
        self.bytes.extend_from_slice(taken)?;
        Ok(taken.len())
    }

    fn flush(&mut self) -> io::Result<()> {
        Ok(())
    }
}

/// Takes everything, and fails with this kind of error when it is flushed.
#[derive(Drop)]
pub struct Unflushed(pub ErrorKind);

impl Write for Unflushed {
    fn write(&mut self, buf: &[u8]) -> io::Result<usize> {
        Ok(buf.len())
    }

    fn flush(&mut self) -> io::Result<()> {
        Err(io::Error::from(self.0))
    }
}
