//! Readers and writers that fail.

use crate::tests::follows::ends::{Ending, ROOM, SLOT, check_follow};
use crate::tests::follows::readers::Failing;
use cmd_follow::follow_bytes;
use std::alloc::Global;
use std::io::{ErrorKind, Write};
use std::process::Abort;
use tell_base::Status;
use test_support::{FailingWriter, FullWriter};

const INPUT: &str = "1 start deposit\n1 finish 0\n";

const ANSWERS: &str = "1 start deposit: started 0\n1 finish 0: finished\n";

const UNREADABLE: Ending<'static> = (
    Status::StreamFailed,
    "1 start deposit: started 0\n",
    "file: standard input: cannot read\n",
);

const NO_MEMORY: Ending<'static> = (
    Status::NoMemory,
    "1 start deposit: started 0\n",
    "out of memory\n",
);

// What came before a failed read was answered before that read.
#[test]
fn a_line_is_answered_before_the_next_read(rt: HostRuntime) {
    let mut input = Failing::new(b"1 start deposit\n1 fin", ErrorKind::Other);
    check_follow(&rt, rt.alloc(), SLOT, &mut input, UNREADABLE);
}

#[test]
fn a_read_that_wants_memory(rt: HostRuntime) {
    let mut input = Failing::new(b"1 start deposit\n1 fin", ErrorKind::OutOfMemory);
    check_follow(&rt, rt.alloc(), SLOT, &mut input, NO_MEMORY);
}

// Checks that a follow into a writer that fails at this write of five bytes tells this.
fn check_failed_at(rt: &impl Abort, heap: Global, write: usize, kind: ErrorKind, told: &str) {
    let mut input = INPUT.as_bytes();
    let mut out = FailingWriter::new(heap, write, kind);
    let mut err = Vec::new(heap);
    let status = follow_bytes(heap, SLOT.as_bytes(), ROOM, &mut input, &mut out, &mut err);
    assert_eq!(rt;
        (status, err.as_slice()),
        (Status::StreamFailed, told.as_bytes())
    );
    assert!(rt; ANSWERS.as_bytes().starts_with(out.bytes()), "{write}");
}

// The first answer has 27 bytes, so 6 writes of at most five, and the second 21, so 5.
#[test]
fn each_write_fails_in_turn(rt: HostRuntime) {
    for write in 0..11usize {
        check_failed_at(
            &rt,
            rt.alloc(),
            write,
            ErrorKind::Other,
            "output: cannot write\n",
        );
        check_failed_at(&rt, rt.alloc(), write, ErrorKind::BrokenPipe, "");
    }
}

// Checks that a faulty line that can't be told ends the follow, without a word on the output.
fn check_untold<E: Write>(rt: &impl Abort, heap: Global, err: &mut E) {
    let mut input = b"x\n1 start deposit\n".as_slice();
    let mut out = Vec::new(heap);
    let status = follow_bytes(heap, SLOT.as_bytes(), ROOM, &mut input, &mut out, err);
    assert!(rt; status == Status::StreamFailed && out.is_empty());
}

#[test]
fn a_faulty_line_that_cannot_be_told(rt: HostRuntime) {
    check_untold(&rt, rt.alloc(), &mut FullWriter);
}
