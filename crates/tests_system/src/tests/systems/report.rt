//! Reports of what a system can do next.

use crate::tests::systems::stepping::{Step, opened, row_of, steps};
use path_model::{ActId, Activation, Attempt, OpId, OutOfMemory, PathId, Reply};
use path_shelf::Cell;
use path_system::{Report, System};
use std::alloc::{Allocator, Global};
use std::process::Abort;
use test_support::{Refusing, count_refusals};

const BOOK: &[u8] = b"resource book cell operation read, write path { read } , write end end";

// Each path waits for the other.
const KNOT: &[u8] = b"resource r cell operation a, b path a ; b end path b ; a end end";

const READ: Attempt = Attempt::Start(OpId(0));

const WRITE: Attempt = Attempt::Start(OpId(1));

/// The content of a report.
struct Told<'a> {
    startable: &'a [OpId],
    blocked: &'a [(OpId, PathId)],
    live: &'a [Activation],
    frozen: bool,
}

// A system over one cell after the steps, each of which gets its reply.
fn after<A: Allocator + Copy>(
    rt: &impl Abort,
    alloc: A,
    text: &[u8],
    rows: &[Step],
) -> System<Cell, A> {
    let mut system = opened(rt, alloc, text, row_of(rt, alloc, [Cell::new(0)]));
    steps(rt, &mut system, rows);
    system
}

// What the system reports.
fn reported<A: Allocator + Copy>(
    system: &System<Cell, A>,
    alloc: A,
) -> Result<Report<A>, OutOfMemory> {
    system.report(alloc)
}

fn tells<A: Allocator + Copy>(report: &Report<A>, want: &Told<'_>) -> bool {
    report.startable.as_slice() == want.startable
        && report.blocked.as_slice() == want.blocked
        && report.live.as_slice() == want.live
        && report.frozen == want.frozen
}

// Whether the report has this content, if there is enough memory for one.
fn report_tells<A: Allocator + Copy>(
    alloc: A,
    system: &System<Cell, A>,
    want: &Told<'_>,
) -> Result<bool, OutOfMemory> {
    let report = reported(system, alloc)?;
    Ok(tells(&report, want))
}

// Checks that the report after the steps has this content.
fn check_report(rt: &impl Abort, heap: Global, text: &[u8], rows: &[Step], want: &Told<'_>) {
    let system = after(rt, heap, text, rows);
    let is_told = report_tells(heap, &system, want);
    drop(system);
    assert_eq!(rt; is_told, Ok(true));
}

const UNATTEMPTED: Told<'static> = Told {
    startable: &[OpId(0), OpId(1)],
    blocked: &[],
    live: &[],
    frozen: false,
};

#[test]
fn nothing_attempted(rt: HostRuntime) {
    check_report(&rt, rt.alloc(), BOOK, &[], &UNATTEMPTED);
}

const WRITTEN_LAST: &[Step] = &[
    (1, READ, Reply::Started(ActId(0))),
    (2, READ, Reply::Started(ActId(1))),
    (3, WRITE, Reply::Blocked(PathId(0))),
    (1, Attempt::Finish(ActId(0)), Reply::Finished),
    (3, WRITE, Reply::Blocked(PathId(0))),
    (2, Attempt::Finish(ActId(1)), Reply::Finished),
    (3, WRITE, Reply::Started(ActId(2))),
    (1, READ, Reply::Blocked(PathId(0))),
];

const WRITING: Told<'static> = Told {
    startable: &[],
    blocked: &[(OpId(0), PathId(0)), (OpId(1), PathId(0))],
    live: &[Activation {
        act: ActId(2),
        worker: 3,
        op: OpId(1),
    }],
    frozen: false,
};

#[test]
fn readers_and_writers(rt: HostRuntime) {
    check_report(&rt, rt.alloc(), BOOK, WRITTEN_LAST, &WRITING);
}

const KNOT_STEPS: &[Step] = &[
    (1, READ, Reply::Blocked(PathId(1))),
    (1, WRITE, Reply::Blocked(PathId(0))),
];

const FROZEN: Told<'static> = Told {
    startable: &[],
    blocked: &[(OpId(0), PathId(1)), (OpId(1), PathId(0))],
    live: &[],
    frozen: true,
};

#[test]
fn knot_is_frozen(rt: HostRuntime) {
    check_report(&rt, rt.alloc(), KNOT, KNOT_STEPS, &FROZEN);
}

const READ_ONCE: &[Step] = &[(1, READ, Reply::Started(ActId(0)))];

const READING: Told<'static> = Told {
    startable: &[OpId(0)],
    blocked: &[(OpId(1), PathId(0))],
    live: &[Activation {
        act: ActId(0),
        worker: 1,
        op: OpId(0),
    }],
    frozen: false,
};

const READ_AGAIN: &[Step] = &[
    (2, READ, Reply::Started(ActId(1))),
    (1, Attempt::Finish(ActId(0)), Reply::Finished),
];

// Whether the report after the steps has this content, if this allocator has enough memory for it. The system stays usable.
fn reports_with(
    rt: &impl Abort,
    heap: Global,
    refusing: &Refusing<Global>,
    rows: &[Step],
    want: &Told<'_>,
    later: &[Step],
) -> Result<bool, OutOfMemory> {
    let ample = Refusing::new(heap, 0);
    let mut system = after(rt, &ample, BOOK, rows);
    let is_told = report_tells(refusing, &system, want);
    steps(rt, &mut system, later);
    drop(system);
    is_told
}

// Counts the requests of a report that are refused, each of which it must tell, until it has this content.
fn report_refusals(
    rt: &impl Abort,
    heap: Global,
    rows: &[Step],
    want: &Told<'_>,
    later: &[Step],
) -> Result<u64, u64> {
    count_refusals(heap, OutOfMemory, |refusing: &Refusing<Global>| {
        reports_with(rt, heap, refusing, rows, want, later)
    })
}

#[test]
fn each_request_of_a_report_is_refused(rt: HostRuntime) {
    let refusals = report_refusals(&rt, rt.alloc(), READ_ONCE, &READING, READ_AGAIN);
    assert!(rt; matches!(refusals, Ok(count) if count >= 3), "{refusals:?}");
}
