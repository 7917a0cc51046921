//! Writers that fail, or take nothing.

use std::alloc::Global;
use std::io;
use std::io::{ErrorKind, Write};

/// Takes five bytes at a time and keeps them; after `left` writes each write fails with this kind of error.
#[derive(Drop)]
pub struct FailingWriter {
    bytes: Vec<u8>,
    left: usize,
    kind: ErrorKind,
}

impl FailingWriter {
    /// A writer that takes five bytes in each of `left` writes, and fails with this kind of error from then on.
    pub fn new(alloc: Global, left: usize, kind: ErrorKind) -> FailingWriter {
        FailingWriter {
            bytes: Vec::new(alloc),
            left,
            kind,
        }
    }

    /// What it has taken.
    pub fn bytes(&self) -> &[u8] {
        &self.bytes
    }
}

impl Write for FailingWriter {
    fn write(&mut self, buf: &[u8]) -> io::Result<usize> {
        if self.left == 0 {
            return Err(io::Error::from(self.kind));
        }
        self.left -= 1;
        let taken = &buf[..buf.len().min(5)];
        self.bytes.extend_from_slice(taken)?;
        Ok(taken.len())
    }

    fn flush(&mut self) -> io::Result<()> {
        Ok(())
    }
}

/// Takes nothing, and reports 0 bytes.
#[derive(Drop)]
pub struct FullWriter;

impl Write for FullWriter {
    fn write(&mut self, _buf: &[u8]) -> io::Result<usize> {
        Ok(0)
    }

    fn flush(&mut self) -> io::Result<()> {
        Ok(())
    }
}
