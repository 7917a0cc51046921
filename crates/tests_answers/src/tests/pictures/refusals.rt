//! Texts that aren't drawn, writers that fail, and memory that runs out.

use crate::tests::pictures::pictures::{Ended, ROOM, SLOT, drawn, drawn_journal};
use cmd_picture::picture_bytes;
use std::alloc::Global;
use std::io::ErrorKind;
use std::process::Abort;
use tell_base::Status;
use test_support::{FailingWriter, Refusing, refuse_in_turn};

// Checks that nothing was drawn, with this status and message.
fn check_refused(rt: &impl Abort, ended: &Ended, want: (Status, &str)) {
    let (status, out, err) = ended;
    assert!(rt;
        *status == want.0 && out.is_empty() && err.as_slice() == want.1.as_bytes(),
        "{}",
        want.1
    );
}

#[test]
fn texts_that_are_refused(rt: HostRuntime) {
    let heap = rt.alloc();
    let undeclared = (Status::DeclarationRefused, "declaration: unexpected at 0\n");
    check_refused(&rt, &drawn(heap, heap, "", 0, "x"), undeclared);
    check_refused(&rt, &drawn_journal(heap, heap, "", "x"), undeclared);
    let refused = (Status::TextRefused, "text: bad line 1\n");
    check_refused(
        &rt,
        &drawn(heap, heap, SLOT, 0, "1 finish 0\n"),
        (Status::CommandRefused, "open: bad room\n"),
    );
    check_refused(&rt, &drawn(heap, heap, SLOT, 0, "1 finish 0\nx"), refused);
    check_refused(
        &rt,
        &drawn_journal(heap, heap, SLOT, "1 finish 0: stale\n1 finish 0"),
        refused,
    );
}

const ATTEMPTS: &str = "1 start deposit\n2 start remove\n1 use 0 put 7\n1 finish 0\n";

// Whether a picture was drawn; fails if memory ran out, when nothing must have been written.
fn is_drawn(rt: &impl Abort, ended: &Ended) -> Result<bool, Status> {
    let (status, out, err) = ended;
    if *status == Status::NoMemory {
        assert!(rt; out.is_empty() && err.as_slice() == b"out of memory\n".as_slice());
        return Err(*status);
    }
    Ok(*status == Status::Done)
}

#[test]
fn each_request_of_a_picture_is_refused(rt: HostRuntime) {
    let heap = rt.alloc();
    let refused = refuse_in_turn(heap, Status::NoMemory, |refusing: &Refusing<Global>| {
        is_drawn(&rt, &drawn(refusing, heap, SLOT, ROOM, ATTEMPTS))
    });
    assert_eq!(rt; refused, Ok(()));
}

#[test]
fn each_request_of_a_journal_is_refused(rt: HostRuntime) {
    let heap = rt.alloc();
    let refused = refuse_in_turn(heap, Status::NoMemory, |refusing: &Refusing<Global>| {
        is_drawn(
            &rt,
            &drawn_journal(refusing, heap, SLOT, "1 start deposit: started 0\n"),
        )
    });
    assert_eq!(rt; refused, Ok(()));
}

// Checks that a picture into a writer that fails at this write of five bytes ends as the writer failed.
fn check_failed_at(rt: &impl Abort, heap: Global, write: usize) {
    let mut out = FailingWriter::new(heap, write, ErrorKind::Other);
    let mut err = Vec::new(heap);
    let (declaration, attempts) = (SLOT.as_bytes(), ATTEMPTS.as_bytes());
    let status = picture_bytes(heap, declaration, ROOM, attempts, &mut out, &mut err);
    assert!(rt;
        status == Status::StreamFailed && err.as_slice() == b"output: cannot write\n".as_slice(),
        "{write}"
    );
}

#[test]
fn each_of_the_first_writes_fails(rt: HostRuntime) {
    for write in 0..100usize {
        check_failed_at(&rt, rt.alloc(), write);
    }
}
