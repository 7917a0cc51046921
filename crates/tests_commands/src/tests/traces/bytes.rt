//! Traces from bytes to bytes, into a writer that takes nothing and with requests refused.

use crate::tests::traces::endings::refuse_each_request;
use cmd_trace::{ROOM, trace_bytes};
use std::alloc::Global;
use std::process::Abort;
use tell_base::Status;
use test_support::FullWriter;

const SLOT: &str = "resource slot cell operation deposit, remove path deposit ; remove end end";

const ATTEMPTS: &str =
    "1 start deposit\n2 start remove\n1 use 0 put 7\n1 finish 0\n2 start remove\n2 use 1 look";

const TRACE: &str = "1 start deposit: started 0\n2 start remove: blocked 0\n1 use 0 put 7: used 0\n\
      1 finish 0: finished\n2 start remove: started 1\n2 use 1 look: used 7\n";

// Checks that the texts are refused with StreamFailed if the fault can't be written.
fn check_untold(rt: &impl Abort, heap: Global, declaration: &[u8], attempts: &[u8]) {
    let mut out = Vec::new(heap);
    let mut err = FullWriter;
    let status = trace_bytes(heap, declaration, ROOM, false, attempts, &mut out, &mut err);
    assert!(rt; status == Status::StreamFailed && out.is_empty());
}

#[test]
fn a_fault_that_cannot_be_told(rt: HostRuntime) {
    check_untold(&rt, rt.alloc(), b"", b"");
}

#[test]
fn each_request_of_a_trace_is_refused(rt: HostRuntime) {
    let want = (Status::Done, TRACE, "");
    refuse_each_request(&rt, rt.alloc(), (SLOT, ATTEMPTS), want);
}
