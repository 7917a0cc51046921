//! Bounded input.

use std::alloc::{Allocator, Global};
use std::io;
use std::io::{ErrorKind, Read};
use std::process::Abort;
use tell_base::{Fault, read_all};
use test_support::Refusing;

/// A reader that gives `left` bytes, one at a time, and then fails.
#[derive(Drop)]
struct Failing {
    left: u32,
}

impl Read for Failing {
    fn read(&mut self, buf: &mut [u8]) -> io::Result<usize> {
        if self.left == 0 || buf.is_empty() {
            return Err(io::Error::from(ErrorKind::Other));
        }
        self.left -= 1;
        buf[0] = b'a';
        Ok(1)
    }
}

// The bytes read of a text with this expectation, at most three.
fn read<A: Allocator + Copy>(
    alloc: A,
    text: &str,
    expected: usize,
) -> Result<Vec<u8, A>, Fault<'static>> {
    read_all(alloc, text.as_bytes(), expected, 3, "standard input")
}

// Whether the text is read whole with this expectation.
fn is_read(heap: Global, text: &str, expected: usize) -> bool {
    match read(heap, text, expected) {
        Ok(bytes) => bytes.as_slice() == text.as_bytes(),
        Err(_) => false,
    }
}

#[test]
fn reads_up_to_the_limit(rt: HostRuntime) {
    for (text, expected) in [("", 0), ("a", 1), ("abc", 2), ("abc", 9)] {
        assert!(rt; is_read(rt.alloc(), text, expected), "at {text:?}");
    }
}

// Checks that the fault is this one.
fn check_fault(rt: &impl Abort, found: Option<Fault<'_>>, want: Fault<'_>) {
    assert_eq!(rt; found, Some(want));
}

#[test]
fn refuses_what_is_too_long(rt: HostRuntime) {
    for (text, expected) in [("abcd", 4), ("abcde", 0)] {
        let fault = read(rt.alloc(), text, expected).err();
        check_fault(&rt, fault, Fault::TooLong("standard input"));
    }
}

#[test]
fn refuses_what_fails(rt: HostRuntime) {
    for left in 0..4u32 {
        let fault = read_all(rt.alloc(), Failing { left }, 0, 9, "slot").err();
        check_fault(&rt, fault, Fault::Unreadable("slot"));
    }
}

#[test]
fn says_that_memory_is_wanting(rt: HostRuntime) {
    // The memory for the expected bytes, and for more if more come.
    for request in 1..3 {
        let refusing = Refusing::new(rt.alloc(), request);
        let fault = read(&refusing, "abc", 0).err();
        check_fault(&rt, fault, Fault::OutOfMemory);
    }
}
