//! How traces end.

use cmd_trace::{ROOM, trace_bytes};
use std::alloc::{Allocator, Global};
use std::process::Abort;
use tell_base::Status;
use test_support::{Refusing, in_bytes, refuse_in_turn};

/// How a call ends: its status, its output, and its standard error.
pub(crate) type Ending<'a> = test_support::Ending<'a, Status>;

/// Checks that the call of this name ended as wanted.
pub(crate) fn check_ending(
    rt: &impl Abort,
    name: &str,
    ended: (Status, &[u8], &[u8]),
    want: Ending<'_>,
) {
    assert_eq!(rt; ended, in_bytes(want), "{name}");
}

// Whether a trace of attempts over the program's own devices passed, and so ended this way; fails if memory ran out, when nothing
// must have been written.
fn traces<A: Allocator + Copy>(
    rt: &impl Abort,
    alloc: A,
    heap: Global,
    name: &str,
    texts: (&str, &str),
    want: Ending<'_>,
) -> Result<bool, Status> {
    let (declaration, attempts) = (texts.0.as_bytes(), texts.1.as_bytes());
    let mut out = Vec::new(heap);
    let mut err = Vec::new(heap);
    let status = trace_bytes(
        alloc,
        declaration,
        ROOM,
        false,
        attempts,
        &mut out,
        &mut err,
    );
    if status == Status::NoMemory {
        check_ending(
            rt,
            name,
            (status, &out, &err),
            (status, "", "out of memory\n"),
        );
        return Err(status);
    }
    check_ending(rt, name, (status, &out, &err), want);
    Ok(true)
}

/// Refuses each request of a trace over the program's own devices in turn; then it must end this way.
pub(crate) fn refuse_each_request(
    rt: &impl Abort,
    heap: Global,
    texts: (&str, &str),
    want: Ending<'_>,
) {
    let refused = refuse_in_turn(heap, Status::NoMemory, |refusing: &Refusing<Global>| {
        traces(rt, refusing, heap, "a refused request", texts, want)
    });
    assert_eq!(rt; refused, Ok(()));
}
