//! Runs that are refused, and writers that fail.

use crate::tests::commands::own::{Case, Ending, SLOT, check_ending, over_slot, run_case};
use std::alloc::Global;
use std::io;
use std::io::{ErrorKind, Write};
use std::process::Abort;
use std::sync::Wait;
use std::thread::Threads;
use tell_base::{Fault, Status, tell};
use test_support::FailingWriter;

/// A case, and how its run ends.
type Row = (Case<'static>, Ending<'static>);

/// A declaration at fault counts before a script at fault, and that before a room.
const REFUSED: &[Row] = &[
    (
        Case {
            declaration: "resource",
            room: 0,
            script: "process",
        },
        (
            Status::DeclarationRefused,
            "",
            "declaration: unexpected at 8\n",
        ),
    ),
    (
        Case {
            declaration: SLOT,
            room: 0,
            script: "process p\nenter look\n",
        },
        (Status::TextRefused, "", "script: undeclared in line 1\n"),
    ),
    (
        Case {
            declaration: SLOT,
            room: 0,
            script: "",
        },
        (Status::CommandRefused, "", "open: bad room\n"),
    ),
    (
        Case {
            declaration: SLOT,
            room: 1_048_577,
            script: "",
        },
        (Status::CommandRefused, "", "open: bad room\n"),
    ),
];

fn check_refusals<R: Threads + Wait + Abort + Sync>(rt: &R, alloc: Global, rows: &[Row]) {
    for (case, want) in rows {
        check_ending(rt, alloc, *case, *want);
    }
}

#[test]
fn refusals(rt: HostRuntime) {
    check_refusals(&rt, rt.alloc(), REFUSED);
}

/// Every write fails with this kind of error.
#[derive(Drop)]
struct Broken {
    kind: ErrorKind,
}

impl Write for Broken {
    fn write(&mut self, _buf: &[u8]) -> io::Result<usize> {
        Err(io::Error::from(self.kind))
    }

    fn flush(&mut self) -> io::Result<()> {
        Ok(())
    }
}

const WORKS: &str = "process works\nenter deposit\nleave\nend\n";

/// What the run of it writes: 67 bytes, so 14 writes of five.
const WORKS_JOURNAL: &str =
    "journal 2 room 100\n0 start deposit: started 0\n0 finish 0: finished\n";

/// What is said of it: 12 bytes, so three writes of five.
const WORKS_ENDS: &str = "works: done\n";

fn check_unwritten<R: Threads + Wait + Abort + Sync>(
    rt: &R,
    alloc: Global,
    kind: ErrorKind,
    want: (Status, &str),
) {
    let mut out = Broken { kind };
    let mut err = Vec::new(alloc);
    let status = run_case(rt, alloc, over_slot(WORKS), &mut out, &mut err);
    assert_eq!(rt; (status, err.as_slice()), (want.0, want.1.as_bytes()));
}

#[test]
fn output_that_fails(rt: HostRuntime) {
    let alloc = rt.alloc();
    let unwritable = (Status::StreamFailed, "output: cannot write\n");
    check_unwritten(&rt, alloc, ErrorKind::Other, unwritable);
    let wanting = (Status::NoMemory, "out of memory\n");
    check_unwritten(&rt, alloc, ErrorKind::OutOfMemory, wanting);
}

/// Checks that the first bytes of the text were taken, so many or all.
fn check_taken(rt: &impl Abort, bytes: &[u8], count: usize, text: &str) {
    assert!(rt;
        bytes.len() == count.min(text.len()) && text.as_bytes().starts_with(bytes),
        "{count} bytes"
    );
}

/// Checks how a run ends whose output fails at this write of five bytes, counted from 0, and that all before it was taken.
fn check_output_failed_at<R: Threads + Wait + Abort + Sync>(
    rt: &R,
    alloc: Global,
    write: u32,
    kind: ErrorKind,
    want: (Status, &str),
) {
    let mut out = FailingWriter::new(alloc, write as usize, kind);
    let mut err = Vec::new(alloc);
    let status = run_case(rt, alloc, over_slot(WORKS), &mut out, &mut err);
    assert_eq!(rt;
        (status, err.as_slice()),
        (want.0, want.1.as_bytes()),
        "at write {write}"
    );
    check_taken(rt, out.bytes(), 5 * write as usize, WORKS_JOURNAL);
}

/// An output that fails behind the last write doesn't count.
#[test]
fn each_write_fails_in_turn(rt: HostRuntime) {
    let unwritable = (Status::StreamFailed, "output: cannot write\n");
    for write in 0..14u32 {
        check_output_failed_at(&rt, rt.alloc(), write, ErrorKind::Other, unwritable);
    }
    let passed = (Status::Done, WORKS_ENDS);
    check_output_failed_at(&rt, rt.alloc(), 14, ErrorKind::Other, passed);
}

#[test]
fn each_write_wants_memory_in_turn(rt: HostRuntime) {
    let wanting = (Status::NoMemory, "out of memory\n");
    for write in 0..14u32 {
        check_output_failed_at(&rt, rt.alloc(), write, ErrorKind::OutOfMemory, wanting);
    }
}

/// Checks how a run ends whose standard error fails at this write of five bytes, counted from 0. The journal is whole.
fn check_told_until<R: Threads + Wait + Abort + Sync>(
    rt: &R,
    alloc: Global,
    write: u32,
    want: Status,
) {
    let mut out = Vec::new(alloc);
    let mut err = FailingWriter::new(alloc, write as usize, ErrorKind::Other);
    let status = run_case(rt, alloc, over_slot(WORKS), &mut out, &mut err);
    assert_eq!(rt; (status, out.as_slice()), (want, WORKS_JOURNAL.as_bytes()));
    check_taken(rt, err.bytes(), 5 * write as usize, WORKS_ENDS);
}

#[test]
fn each_write_of_the_ends_fails_in_turn(rt: HostRuntime) {
    for write in 0..3u32 {
        check_told_until(&rt, rt.alloc(), write, Status::StreamFailed);
    }
    check_told_until(&rt, rt.alloc(), 3, Status::Done);
}

fn check_untold<R: Threads + Wait + Abort + Sync>(rt: &R, alloc: Global) {
    let mut out = Vec::new(alloc);
    let mut err = Broken {
        kind: ErrorKind::Other,
    };
    let status = run_case(rt, alloc, over_slot(WORKS), &mut out, &mut err);
    assert!(rt; status == Status::StreamFailed && out.as_slice() == WORKS_JOURNAL.as_bytes());
}

/// The journal was written before the ends are told.
#[test]
fn ends_that_cannot_be_told(rt: HostRuntime) {
    check_untold(&rt, rt.alloc());
}

/// No run has shown it; the words are those that it would have.
#[test]
fn a_run_that_is_not_settled(rt: HostRuntime) {
    let mut err = Vec::new(rt.alloc());
    let status = tell(&mut err, Fault::Unsettled);
    let want = (Status::Unsound, b"run: not settled\n".as_slice());
    assert_eq!(&rt; (status, err.as_slice()), want);
}
