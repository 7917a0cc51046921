//! Traces whose writers fail, or that run out of memory.

use crate::tests::traces::endings::check_ending;
use crate::tests::traces::trace::{SLOT, SLOT_ATTEMPTS, SLOT_TRACE, try_trace};
use crate::tests::traces::writers::{Interrupted, Unflushed};
use cmd_trace::ROOM;
use path_lex::DeclFault;
use path_model::OutOfMemory;
use std::alloc::{Allocator, Global};
use std::io::{ErrorKind, Write};
use std::process::Abort;
use tell_base::Status;
use test_support::{FailingWriter, FullWriter, Refusing, refuse_in_turn};

// Checks that the slot's trace into a writer ends with this status and message.
fn check_failed<O: Write>(rt: &impl Abort, heap: Global, out: &mut O, want: (Status, &str)) {
    let mut err = Vec::new(heap);
    let tried = try_trace(heap, SLOT, ROOM, SLOT_ATTEMPTS, out, &mut err);
    let status = tried.expect(rt, "it is a declaration");
    check_ending(
        rt,
        "the slot into a writer",
        (status, b"", &err),
        (want.0, "", want.1),
    );
}

const UNWRITABLE: (Status, &str) = (Status::StreamFailed, "output: cannot write\n");

const NO_MEMORY: (Status, &str) = (Status::NoMemory, "out of memory\n");

const PASSED: (Status, &str) = (Status::Done, "");

// Checks that the first `count` bytes of the slot's trace were taken.
fn check_taken(rt: &impl Abort, bytes: &[u8], count: usize, trace: &str) {
    assert!(rt;
        bytes.len() == count && trace.as_bytes().starts_with(bytes),
        "{count} bytes"
    );
}

// Checks that the slot's trace into a writer that fails at this write of five bytes, counted from 0, ends this way.
fn check_failed_at(
    rt: &impl Abort,
    heap: Global,
    write: u32,
    kind: ErrorKind,
    want: (Status, &str),
) {
    let mut out = FailingWriter::new(heap, write as usize, kind);
    check_failed(rt, heap, &mut out, want);
    check_taken(rt, out.bytes(), 5 * write as usize, SLOT_TRACE);
}

// The output of the slot has 143 bytes, so 29 writes of five.
#[test]
fn each_write_fails_in_turn(rt: HostRuntime) {
    for write in 0..29u32 {
        check_failed_at(&rt, rt.alloc(), write, ErrorKind::Other, UNWRITABLE);
    }
}

#[test]
fn each_write_wants_memory_in_turn(rt: HostRuntime) {
    for write in 0..29u32 {
        check_failed_at(&rt, rt.alloc(), write, ErrorKind::OutOfMemory, NO_MEMORY);
    }
}

#[test]
fn a_writer_that_fails_after_the_last_write(rt: HostRuntime) {
    let mut out = FailingWriter::new(rt.alloc(), 29, ErrorKind::Other);
    check_failed(&rt, rt.alloc(), &mut out, PASSED);
    check_taken(&rt, out.bytes(), SLOT_TRACE.len(), SLOT_TRACE);
}

#[test]
fn an_interrupted_write(rt: HostRuntime) {
    let mut out = Interrupted::new(rt.alloc());
    check_failed(&rt, rt.alloc(), &mut out, PASSED);
    check_taken(&rt, &out.bytes, SLOT_TRACE.len(), SLOT_TRACE);
}

#[test]
fn a_write_of_nothing(rt: HostRuntime) {
    check_failed(&rt, rt.alloc(), &mut FullWriter, UNWRITABLE);
}

#[test]
fn a_flush_that_fails(rt: HostRuntime) {
    check_failed(
        &rt,
        rt.alloc(),
        &mut Unflushed(ErrorKind::Other),
        UNWRITABLE,
    );
    check_failed(
        &rt,
        rt.alloc(),
        &mut Unflushed(ErrorKind::OutOfMemory),
        NO_MEMORY,
    );
}

#[test]
fn a_fault_that_cannot_be_told(rt: HostRuntime) {
    let mut out: Vec<u8> = Vec::new(rt.alloc());
    let ended = try_trace(
        rt.alloc(),
        SLOT,
        ROOM,
        "1 start #0",
        &mut out,
        &mut FullWriter,
    );
    assert_eq!(rt; (ended, out.is_empty()), (Ok(Status::StreamFailed), true));
}

// Whether memory ran out, for the trace or for its declaration.
fn wants_memory(ended: Result<Status, DeclFault>) -> bool {
    match ended {
        Ok(status) => status == Status::NoMemory,
        Err(fault) => fault == DeclFault::OutOfMemory,
    }
}

// Whether the slot's trace ends with this status; fails if memory ran out and nothing was written.
fn trace_ends<A: Allocator + Copy>(
    alloc: A,
    heap: Global,
    room: u32,
    want: Status,
) -> Result<bool, OutOfMemory> {
    let mut out: Vec<u8> = Vec::new(heap);
    let mut err: Vec<u8> = Vec::new(heap);
    let ended = try_trace(alloc, SLOT, room, SLOT_ATTEMPTS, &mut out, &mut err);
    if wants_memory(ended) && out.is_empty() {
        return Err(OutOfMemory);
    }
    Ok(ended == Ok(want))
}

// Refuses each request of the slot's trace in turn; then it must end with this status.
fn refuse_each_request(rt: &impl Abort, heap: Global, room: u32, want: Status) {
    let refused = refuse_in_turn(heap, OutOfMemory, |refusing: &Refusing<Global>| {
        trace_ends(refusing, heap, room, want)
    });
    assert_eq!(rt; refused, Ok(()));
}

#[test]
fn each_request_of_a_trace_is_refused(rt: HostRuntime) {
    refuse_each_request(&rt, rt.alloc(), ROOM, Status::Done);
}

#[test]
fn each_request_in_a_bad_room_is_refused(rt: HostRuntime) {
    refuse_each_request(&rt, rt.alloc(), 0, Status::CommandRefused);
}

#[test]
fn a_writer_without_memory(rt: HostRuntime) {
    let refusing = Refusing::new(rt.alloc(), 1);
    let mut out = Vec::new(&refusing);
    check_failed(&rt, rt.alloc(), &mut out, NO_MEMORY);
    assert!(rt; out.is_empty());
}
