//! Traces with a report in rooms that no journal has.

use crate::tests::traces::endings::check_ending;
use cmd_trace::trace_bytes;
use std::alloc::Global;
use std::process::Abort;
use tell_base::Status;

/// A room and attempts for a slot, and the status and message of their trace, which writes nothing.
type Refused = (u32, &'static str, Status, &'static str);

const SLOT: &str = "resource slot cell operation deposit, remove path deposit ; remove end end";

const REFUSED: &[Refused] = &[
    (0, "", Status::CommandRefused, "open: bad room\n"),
    (0, "1 start #0", Status::TextRefused, "text: bad line 0\n"),
];

// Checks that a trace that is refused writes no report.
fn check_refused(rt: &impl Abort, heap: Global, declaration: &str, row: &Refused) {
    let mut out = Vec::new(heap);
    let mut err = Vec::new(heap);
    let (declaration, attempts) = (declaration.as_bytes(), row.1.as_bytes());
    let status = trace_bytes(heap, declaration, row.0, true, attempts, &mut out, &mut err);
    check_ending(rt, row.1, (status, &out, &err), (row.2, "", row.3));
}

fn check_all_refused(rt: &impl Abort, heap: Global, declaration: &str, rows: &[Refused]) {
    for row in rows {
        check_refused(rt, heap, declaration, row);
    }
}

#[test]
fn what_is_refused_has_no_report(rt: HostRuntime) {
    check_all_refused(&rt, rt.alloc(), SLOT, REFUSED);
}
