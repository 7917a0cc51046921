//! Readers that give their bytes in pieces.

use std::io;
use std::io::{ErrorKind, Read};

/// Gives at most `most` bytes at a time; each second read is interrupted.
#[derive(Drop)]
pub struct Pieces<'a> {
    left: &'a [u8],
    most: usize,
    ready: bool,
}

impl<'a> Pieces<'a> {
    pub fn new(bytes: &'a [u8], most: usize) -> Pieces<'a> {
        Pieces {
            left: bytes,
            most,
            ready: false,
        }
    }
}

impl Read for Pieces<'_> {
    fn read(&mut self, buf: &mut [u8]) -> io::Result<usize> {
        self.ready = !self.ready;
        if self.ready {
            return Err(io::Error::from(ErrorKind::Interrupted));
        }
        let most = self.most.min(buf.len());
        self.left.read(&mut buf[..most])
    }
}

/// Gives all its bytes, and then fails with this kind of error.
#[derive(Drop)]
pub struct Failing<'a> {
    left: &'a [u8],
    kind: ErrorKind,
}

impl<'a> Failing<'a> {
    pub fn new(bytes: &'a [u8], kind: ErrorKind) -> Failing<'a> {
        Failing { left: bytes, kind }
    }
}

impl Read for Failing<'_> {
    fn read(&mut self, buf: &mut [u8]) -> io::Result<usize> {
        if self.left.is_empty() {
            return Err(io::Error::from(self.kind));
        }
        self.left.read(buf)
    }
}
