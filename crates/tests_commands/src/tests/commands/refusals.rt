//! Writers that fail, and memory that runs out.

use crate::tests::commands::commands::{COMMANDS, Command, Row, check_ending, ends};
use std::alloc::Global;
use std::io::ErrorKind;
use std::process::Abort;
use tell_base::Status;
use test_support::{FailingWriter, Refusing, refuse_in_turn};

// Checks that the command ends with this status and message, after writing the first bytes of its text, this many.
fn check_failed(
    rt: &impl Abort,
    heap: Global,
    row: &Row,
    mut out: FailingWriter,
    want: (usize, Status, &str),
) {
    let mut err = Vec::new(heap);
    let status = ends(heap, row.0, (row.1, row.2), &mut out, &mut err);
    let front = row.4.get(..want.0).expect(rt, "the text is longer");
    let ended = (status, out.bytes(), err.as_slice());
    check_ending(rt, row.1, ended, (want.1, front, want.2));
}

// Lets each write of five bytes fail in turn; after the last write nothing fails.
fn fail_each_write(rt: &impl Abort, heap: Global, row: &Row) {
    let length = row.4.len();
    let writes = length.div_ceil(5);
    for k in 0..writes {
        let taken = k.saturating_mul(5);
        let unwritable = (taken, Status::StreamFailed, "output: cannot write\n");
        let out = FailingWriter::new(heap, k, ErrorKind::Other);
        check_failed(rt, heap, row, out, unwritable);
        let wanting = (taken, Status::NoMemory, "out of memory\n");
        let out = FailingWriter::new(heap, k, ErrorKind::OutOfMemory);
        check_failed(rt, heap, row, out, wanting);
    }
    let out = FailingWriter::new(heap, writes, ErrorKind::Other);
    check_failed(rt, heap, row, out, (length, row.3, ""));
}

fn fail_each_write_of_all(rt: &impl Abort, heap: Global, rows: &[Row]) {
    for row in rows {
        fail_each_write(rt, heap, row);
    }
}

#[test]
fn each_write_fails_in_turn(rt: HostRuntime) {
    fail_each_write_of_all(&rt, rt.alloc(), COMMANDS);
}

/// An audit under a text that isn't a declaration.
const UNDECLARED: Row = (Command::Audit, "", "", Status::DeclarationRefused, "");

// Checks that the status is StreamFailed if the fault can't be written, and that nothing was written.
fn check_untold(rt: &impl Abort, heap: Global, row: &Row) {
    let mut out: Vec<u8> = Vec::new(heap);
    let mut err = FailingWriter::new(heap, 0, ErrorKind::Other);
    let status = ends(heap, row.0, (row.1, row.2), &mut out, &mut err);
    assert!(rt; status == Status::StreamFailed && out.is_empty());
}

#[test]
fn a_fault_that_cannot_be_told(rt: HostRuntime) {
    check_untold(&rt, rt.alloc(), &UNDECLARED);
}

// Whether a command ends as its row says, or fails because this allocator refused a request. Checks that it then writes nothing.
fn ends_with(
    rt: &impl Abort,
    heap: Global,
    refusing: &Refusing<Global>,
    row: &Row,
) -> Result<bool, Status> {
    let mut out = Vec::new(heap);
    let mut err = Vec::new(heap);
    let status = ends(refusing, row.0, (row.1, row.2), &mut out, &mut err);
    let want = if status == Status::NoMemory {
        (Status::NoMemory, "", "out of memory\n")
    } else {
        (row.3, row.4, "")
    };
    check_ending(rt, row.1, (status, &out, &err), want);
    match status {
        Status::NoMemory => Err(status),
        _ => Ok(true),
    }
}

// Refuses each request in turn, until the command makes no further one.
fn refuse_each_request(rt: &impl Abort, heap: Global, row: &Row) {
    let refused = refuse_in_turn(heap, Status::NoMemory, |refusing: &Refusing<Global>| {
        ends_with(rt, heap, refusing, row)
    });
    assert_eq!(rt; refused, Ok(()), "for {:?}", row.1);
}

fn refuse_each_request_of_all(rt: &impl Abort, heap: Global, rows: &[Row]) {
    for row in rows {
        refuse_each_request(rt, heap, row);
    }
}

#[test]
fn each_request_is_refused(rt: HostRuntime) {
    refuse_each_request_of_all(&rt, rt.alloc(), COMMANDS);
}
