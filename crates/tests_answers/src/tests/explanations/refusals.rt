//! Writers that fail, and memory that runs out.

use crate::tests::explanations::attempts::{BLOCKED, REFUSED, USES};
use crate::tests::explanations::behind;
use crate::tests::explanations::declarations::DECLARATIONS;
use crate::tests::explanations::endings::{Row, check_ending, ends};
use crate::tests::explanations::journals::{JOURNALS, NO_JOURNALS};
use std::alloc::Global;
use std::io::ErrorKind;
use std::process::Abort;
use tell_base::Status;
use test_support::{FailingWriter, Refusing, refuse_in_turn};

// Checks that an explanation ends so if its writer fails at its first write.
fn check_failed(rt: &impl Abort, heap: Global, row: &Row, kind: ErrorKind, want: (Status, &str)) {
    let mut out = FailingWriter::new(heap, 0, kind);
    let mut err = Vec::new(heap);
    let status = ends(heap, row, &mut out, &mut err);
    assert!(rt; status == want.0 && out.bytes().is_empty());
    assert_eq!(rt; err.as_slice(), want.1.as_bytes());
}

fn check_all_failed(rt: &impl Abort, heap: Global, rows: &[Row]) {
    for row in rows {
        let unwritable = (Status::StreamFailed, "output: cannot write\n");
        check_failed(rt, heap, row, ErrorKind::Other, unwritable);
        let wanting = (Status::NoMemory, "out of memory\n");
        check_failed(rt, heap, row, ErrorKind::OutOfMemory, wanting);
    }
}

#[test]
fn writers_that_fail(rt: HostRuntime) {
    check_all_failed(&rt, rt.alloc(), BLOCKED);
    check_all_failed(&rt, rt.alloc(), USES);
    check_all_failed(&rt, rt.alloc(), JOURNALS);
    check_all_failed(&rt, rt.alloc(), behind::BEHIND);
}

// Whether an explanation ends as its row says, or fails because this allocator refused a request. Checks that it then writes nothing.
fn ends_with(
    rt: &impl Abort,
    row: &Row,
    refusing: &Refusing<Global>,
    heap: Global,
) -> Result<bool, Status> {
    let mut out = Vec::new(heap);
    let mut err = Vec::new(heap);
    let status = ends(refusing, row, &mut out, &mut err);
    if status == Status::NoMemory {
        assert_eq!(rt;
            (out.as_slice(), err.as_slice()),
            (b"".as_slice(), b"out of memory\n".as_slice())
        );
        return Err(status);
    }
    check_ending(rt, row, status, &out, &err);
    Ok(true)
}

// Refuses each request in turn, until an explanation makes no further one.
fn refuse_each_request(rt: &impl Abort, heap: Global, rows: &[Row]) {
    for row in rows {
        let refused = refuse_in_turn(heap, Status::NoMemory, |refusing: &Refusing<Global>| {
            ends_with(rt, row, refusing, heap)
        });
        assert_eq!(rt; refused, Ok(()), "for {:?}", row.1);
    }
}

#[test]
fn each_request_is_refused(rt: HostRuntime) {
    refuse_each_request(&rt, rt.alloc(), DECLARATIONS);
    refuse_each_request(&rt, rt.alloc(), USES);
    refuse_each_request(&rt, rt.alloc(), BLOCKED);
    refuse_each_request(&rt, rt.alloc(), JOURNALS);
    refuse_each_request(&rt, rt.alloc(), behind::BEHIND);
}

// Checks that a text is refused as its row says if this request is refused, unless an allocation fails earlier; a fault is told in one line
// where there is no memory for its place.
fn check_refused(rt: &impl Abort, heap: Global, row: &Row, number: u64) {
    let refusing = Refusing::new(heap, number);
    let mut out = Vec::new(heap);
    let mut err = Vec::new(heap);
    let status = ends(&refusing, row, &mut out, &mut err);
    assert!(rt;
        status == row.2 || status == Status::NoMemory,
        "at request {number} for {:?}",
        row.1
    );
    assert!(rt;
        out.is_empty() && !err.is_empty(),
        "at request {number} for {:?}",
        row.1
    );
}

fn check_all_refused(rt: &impl Abort, heap: Global, rows: &[Row], number: u64) {
    for row in rows {
        check_refused(rt, heap, row, number);
    }
}

#[test]
fn refused_texts_want_memory_for_their_place(rt: HostRuntime) {
    for number in 1..80 {
        check_all_refused(&rt, rt.alloc(), REFUSED, number);
        check_all_refused(&rt, rt.alloc(), NO_JOURNALS, number);
        check_all_refused(&rt, rt.alloc(), behind::REFUSED, number);
    }
}
