//! How a declaration is printed.

use crate::tests::commands::commands::{Command, check_ending_into, ends};
use std::alloc::Global;
use std::io::ErrorKind;
use std::process::Abort;
use tell_base::Status;
use test_support::{FailingWriter, FullWriter};

const SLOT: &str = "resource slot cell operation deposit, remove path deposit ; remove end end";

#[test]
fn a_full_writer(rt: HostRuntime) {
    let want = (Status::StreamFailed, "output: cannot write\n");
    check_ending_into(&rt, rt.alloc(), Command::Check, SLOT, &mut FullWriter, want);
}

// Checks that the declaration is refused with StreamFailed if the fault can't be written.
fn check_untold(rt: &impl Abort, heap: Global, declaration: &str) {
    let mut out: Vec<u8> = Vec::new(heap);
    let status = ends(
        heap,
        Command::Check,
        (declaration, ""),
        &mut out,
        &mut FullWriter,
    );
    assert!(rt; status == Status::StreamFailed && out.is_empty());
}

#[test]
fn a_fault_that_cannot_be_told(rt: HostRuntime) {
    check_untold(&rt, rt.alloc(), "");
}

#[test]
fn a_print_that_wants_memory(rt: HostRuntime) {
    let mut out = FailingWriter::new(rt.alloc(), 3, ErrorKind::OutOfMemory);
    let want = (Status::NoMemory, "out of memory\n");
    check_ending_into(&rt, rt.alloc(), Command::Check, SLOT, &mut out, want);
    assert_eq!(rt; out.bytes(), b"resource slot c".as_slice());
}
