//! Faults: their texts, and the statuses with their numbers.

use path_audit::AuditFault;
use path_lex::DeclFault;
use path_lines::TextFault;
use path_model::ResId;
use path_system::OpenFault;
use std::alloc::Global;
use std::io;
use std::io::ErrorKind;
use std::process::Abort;
use tell_base::{Fault, Status, tell};

/// A fault, its exit status and its text.
type Row = (Fault<'static>, u8, &'static str);

const FAULTS: &[Row] = &[
    (
        Fault::Declaration(DeclFault::BadByte(7)),
        1,
        "declaration: bad byte at 7\n",
    ),
    (
        Fault::Declaration(DeclFault::OutOfMemory),
        6,
        "out of memory\n",
    ),
    (Fault::Arguments, 2, "arguments: cannot read\n"),
    (Fault::Open(OpenFault::BadRoom), 2, "open: bad room\n"),
    (Fault::Open(OpenFault::WrongCount), 2, "open: wrong count\n"),
    (
        Fault::Open(OpenFault::WrongDevice(ResId(63))),
        2,
        "open: wrong device 63\n",
    ),
    (Fault::Open(OpenFault::OutOfMemory), 6, "out of memory\n"),
    (Fault::Audit(AuditFault::BadRoom), 2, "open: bad room\n"),
    (
        Fault::Audit(AuditFault::WrongCount),
        2,
        "open: wrong count\n",
    ),
    (
        Fault::Audit(AuditFault::BadOpening(ResId(63))),
        2,
        "open: bad opening 63\n",
    ),
    (Fault::Audit(AuditFault::OutOfMemory), 6, "out of memory\n"),
    (Fault::Unreadable("slot"), 3, "file: slot: cannot read\n"),
    (
        Fault::TooLong("standard input"),
        3,
        "file: standard input: too long\n",
    ),
    (Fault::Unwritable, 3, "output: cannot write\n"),
    (Fault::Text(TextFault::TooLong), 4, "text: too long\n"),
    (Fault::Text(TextFault::OutOfMemory), 6, "out of memory\n"),
    (Fault::OutOfMemory, 6, "out of memory\n"),
];

// Whether a fault is written with this exit status and this text.
fn is_told_so(heap: Global, fault: Fault<'_>, number: u8, want: &str) -> bool {
    let mut err: Vec<u8> = Vec::new(heap);
    let status = u8::from(tell(&mut err, fault));
    let is_so = err.as_slice() == want.as_bytes();
    drop(err);
    is_so && status == number
}

// Checks that each fault is written with its exit status and text.
fn check_told(rt: &impl Abort, heap: Global, rows: &[Row]) {
    for (fault, number, want) in rows {
        assert!(rt; is_told_so(heap, *fault, *number, want), "{fault:?}");
    }
}

#[test]
fn tells_each_fault(rt: HostRuntime) {
    check_told(&rt, rt.alloc(), FAULTS);
}

// Why the words of a command line were not read, and the fault that it is.
const OF_ARGUMENTS: &[(ErrorKind, Fault<'static>)] = &[
    (ErrorKind::OutOfMemory, Fault::OutOfMemory),
    (ErrorKind::InvalidData, Fault::Arguments),
    (ErrorKind::Other, Fault::Arguments),
];

// Each of these errors is the fault beside it.
fn check_of_arguments(rt: &impl Abort, rows: &[(ErrorKind, Fault<'static>)]) {
    for (kind, want) in rows {
        let error = io::Error::from(*kind);
        assert_eq!(rt; Fault::of_arguments(&error), *want);
    }
}

#[test]
fn faults_of_arguments(rt: HostRuntime) {
    check_of_arguments(&rt, OF_ARGUMENTS);
}

// The numbers of the statuses that no fault has.
#[test]
fn numbers_of_verdicts(rt: HostRuntime) {
    let numbers = [u8::from(Status::Done), u8::from(Status::Unsound)];
    assert_eq!(rt; numbers, [0, 5]);
}
