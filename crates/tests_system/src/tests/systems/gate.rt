//! Gates over worked examples: which starts each admits, and which path it names.

use crate::tests::systems::stepping::declared;
use path_code::translate;
use path_decl::Decl;
use path_gate::Gate;
use path_model::{OpId, OutOfMemory, PathId};
use path_trim::trim;
use std::alloc::{Allocator, Global};
use std::process::Abort;
use test_support::{Refusing, refuse_in_turn};

// After a, one of two paths must go on.
const FORK: &[u8] = b"resource r cell operation a, b, c path a ; b end path a ; c end end";

// Readers overlap, and a writer is alone.
const READERS_AND_WRITERS: &[u8] =
    b"resource book cell operation read, write path { read } , write end end";

// A finish of a belongs to either of two executions.
const CROSSING_LABELS: &[u8] = b"resource r cell operation a, b path { a ; b } end end";

// A burst of a, and then b.
const BURST_THEN_B: &[u8] = b"resource r cell operation a, b path { a } ; b end end";

// At most two readers at a time, or one writer.
const POOL: &[u8] = b"resource r cell operation read, write path { read : 2 } , write end end";

// At most two executions of a and then b are in progress.
const PIPE: &[u8] = b"resource r cell operation a, b path { a ; b : 2 } end end";

// The gate of a declaration, compiled and trimmed.
fn gate_of<A: Allocator + Copy>(alloc: A, decl: &Decl<A>) -> Result<Gate<A>, OutOfMemory> {
    let code = translate(alloc, decl)?;
    match trim(alloc, code) {
        Ok(lean) => Gate::open(alloc, lean),
        Err((_, error)) => Err(error),
    }
}

// The gate of the declaration in a text.
fn opened<A: Allocator + Copy>(
    rt: &impl Abort,
    alloc: A,
    text: &[u8],
) -> Result<Gate<A>, OutOfMemory> {
    let decl = declared(rt, alloc, text)?;
    let gate = gate_of(alloc, &decl);
    drop(decl);
    gate
}

/// An event at a gate.
#[derive(Clone, Copy)]
enum Event {
    /// A start of the operation is admitted.
    Start(OpId),
    /// A start of the operation is blocked by this path.
    Blocked(OpId, PathId),
    /// The operation is finished.
    Finish(OpId),
}

const A: OpId = OpId(0);

const B: OpId = OpId(1);

const C: OpId = OpId(2);

// Checks that a start gets this answer, and that `would_admit` gives the same one before.
fn starts<M: Allocator + Copy>(
    rt: &impl Abort,
    gate: &mut Gate<M>,
    op: OpId,
    want: Result<(), PathId>,
) {
    assert!(rt; gate.admitted() < 100);
    let answers = [gate.would_admit(op), gate.admit(op)];
    assert_eq!(rt; answers, [want, want]);
}

fn finishes<M: Allocator + Copy>(rt: &impl Abort, gate: &mut Gate<M>, op: OpId) {
    assert!(rt; gate.in_progress(op) > 0);
    gate.release(op);
}

fn happens<M: Allocator + Copy>(rt: &impl Abort, gate: &mut Gate<M>, event: Event) {
    match event {
        Event::Start(op) => starts(rt, gate, op, Ok(())),
        Event::Blocked(op, path) => starts(rt, gate, op, Err(path)),
        Event::Finish(op) => finishes(rt, gate, op),
    }
}

fn all_happen_at<M: Allocator + Copy>(rt: &impl Abort, gate: &mut Gate<M>, events: &[Event]) {
    for event in events {
        happens(rt, gate, *event);
    }
}

// Checks that all these events happen at the gate of the text, and then how many starts were admitted and how many executions of the
// first operation are in progress.
fn all_happen(
    rt: &impl Abort,
    heap: Global,
    text: &[u8],
    events: &[Event],
    admitted: u32,
    in_progress: u32,
) {
    let mut gate = opened(rt, heap, text).expect(rt, "enough memory");
    all_happen_at(rt, &mut gate, events);
    assert_eq!(rt;
        [gate.admitted(), gate.in_progress(A)],
        [admitted, in_progress]
    );
}

const FORK_EVENTS: &[Event] = &[
    Event::Start(A),
    Event::Blocked(A, PathId(0)),
    Event::Finish(A),
    Event::Start(B),
    Event::Finish(B),
    Event::Blocked(A, PathId(1)),
    Event::Start(C),
    Event::Finish(C),
    Event::Start(A),
];

#[test]
fn fork_names_the_path_that_blocks(rt: HostRuntime) {
    all_happen(&rt, rt.alloc(), FORK, FORK_EVENTS, 4, 1);
}

const READERS_AND_A_WRITER: &[Event] = &[
    Event::Start(A),
    Event::Start(A),
    Event::Blocked(B, PathId(0)),
    Event::Finish(A),
    Event::Blocked(B, PathId(0)),
    Event::Finish(A),
    Event::Start(B),
    Event::Blocked(A, PathId(0)),
];

#[test]
fn readers_overlap_and_keep_a_writer_out(rt: HostRuntime) {
    all_happen(
        &rt,
        rt.alloc(),
        READERS_AND_WRITERS,
        READERS_AND_A_WRITER,
        3,
        0,
    );
}

const CROSSING_EVENTS: &[Event] = &[
    Event::Start(A),
    Event::Finish(A),
    Event::Start(A),
    Event::Start(B),
    Event::Blocked(B, PathId(0)),
    Event::Finish(A),
    Event::Start(B),
];

#[test]
fn crossing_labels_share_their_finishes(rt: HostRuntime) {
    all_happen(&rt, rt.alloc(), CROSSING_LABELS, CROSSING_EVENTS, 4, 0);
}

const BURST_EVENTS: &[Event] = &[
    Event::Start(A),
    Event::Start(A),
    Event::Finish(A),
    Event::Finish(A),
    Event::Blocked(A, PathId(0)),
    Event::Start(B),
    Event::Finish(B),
    Event::Start(A),
];

#[test]
fn burst_then_b_reopens_only_after_b(rt: HostRuntime) {
    all_happen(&rt, rt.alloc(), BURST_THEN_B, BURST_EVENTS, 4, 1);
}

const POOL_EVENTS: &[Event] = &[
    Event::Start(A),
    Event::Start(A),
    Event::Blocked(A, PathId(0)),
    Event::Blocked(B, PathId(0)),
    Event::Finish(A),
    Event::Start(A),
    Event::Finish(A),
    Event::Finish(A),
    Event::Start(B),
    Event::Blocked(A, PathId(0)),
];

#[test]
fn pool_lets_two_in(rt: HostRuntime) {
    all_happen(&rt, rt.alloc(), POOL, POOL_EVENTS, 4, 0);
}

const PIPE_EVENTS: &[Event] = &[
    Event::Start(A),
    Event::Finish(A),
    Event::Start(A),
    Event::Finish(A),
    Event::Blocked(A, PathId(0)),
    Event::Start(B),
    Event::Blocked(A, PathId(0)),
    Event::Finish(B),
    Event::Start(A),
];

#[test]
fn pipe_gives_its_bound_back_at_the_end(rt: HostRuntime) {
    all_happen(&rt, rt.alloc(), PIPE, PIPE_EVENTS, 4, 1);
}

// The answer of a new gate of the text to a start of the second operation.
fn first_answer<M: Allocator + Copy>(
    rt: &impl Abort,
    alloc: M,
    text: &[u8],
) -> Result<Result<(), PathId>, OutOfMemory> {
    let gate = opened(rt, alloc, text)?;
    Ok(gate.would_admit(B))
}

// Refuses each request in turn while a gate of the text is opened, until path 0 forbids the second operation.
fn refuse_while_opening(rt: &impl Abort, heap: Global, text: &[u8]) {
    let refused = refuse_in_turn(heap, OutOfMemory, |refusing: &Refusing<Global>| {
        Ok(first_answer(rt, refusing, text)? == Err(PathId(0)))
    });
    assert_eq!(rt; refused, Ok(()));
}

#[test]
fn each_request_of_open_is_refused(rt: HostRuntime) {
    refuse_while_opening(&rt, rt.alloc(), FORK);
}
