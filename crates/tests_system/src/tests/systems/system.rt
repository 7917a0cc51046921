//! Systems, step by step.

use crate::tests::systems::stepping::{ROOM, SLOT, Step, declared, held, lines, steps, tried};
use path_model::{ActId, Attempt, MOST_LINES, OpId, OutOfMemory, PathId, Reply, ResId, Verb};
use path_shelf::Cell;
use path_system::{OpenFault, ReplaceFault, System};
use std::alloc::{Allocator, Global};
use std::fmt::Display;
use std::process::Abort;
use test_support::{Refusing, refuse_in_turn};

const DEPOSIT: Attempt = Attempt::Start(OpId(0));

const REMOVE: Attempt = Attempt::Start(OpId(1));

const UNKNOWN: Attempt = Attempt::Start(OpId(256));

/// What the slot contains, and how many lines there are.
type Seen = (Option<u64>, usize);

// A system of the slot.
fn slot<A: Allocator + Copy>(
    rt: &impl Abort,
    alloc: A,
    text: &[u8],
    room: u32,
) -> Result<System<Cell, A>, OutOfMemory> {
    let devices = Vec::from_array(alloc, [Cell::new(0)])?;
    let decl = declared(rt, alloc, text)?;
    match tried(alloc, decl, devices, room) {
        Ok(system) => Ok(system),
        Err((fault, back)) => {
            assert!(rt; fault == OpenFault::OutOfMemory && back.len() == 1);
            Err(OutOfMemory)
        }
    }
}

fn seen<A: Allocator + Copy>(rt: &impl Abort, system: &System<Cell, A>) -> Seen {
    assert_eq!(rt; held(rt, system, 1), None);
    (held(rt, system, 0), lines(system))
}

// What is seen of the slot after the steps, each of which gets its reply.
fn after<A: Allocator + Copy>(
    rt: &impl Abort,
    alloc: A,
    room: u32,
    rows: &[Step],
) -> Result<Seen, OutOfMemory> {
    let mut system = slot(rt, alloc, SLOT, room)?;
    steps(rt, &mut system, rows);
    let seen = seen(rt, &system);
    drop(system);
    Ok(seen)
}

// Checks what is seen of the slot in this room after the steps.
fn check_after(rt: &impl Abort, heap: Global, room: u32, rows: &[Step], want: Seen) {
    assert_eq!(rt;
        after(rt, heap, room, rows),
        Ok(want),
        "in a room of {room}"
    );
}

// A deposit of 7 and its removal, with an attempt to remove too early.
const DEPOSIT_AND_REMOVE: &[Step] = &[
    (1, DEPOSIT, Reply::Started(ActId(0))),
    (2, REMOVE, Reply::Blocked(PathId(0))),
    (1, Attempt::Apply(ActId(0), Verb::Put(7)), Reply::Used(0)),
    (1, Attempt::Finish(ActId(0)), Reply::Finished),
    (2, REMOVE, Reply::Started(ActId(1))),
    (2, Attempt::Apply(ActId(1), Verb::Look), Reply::Used(7)),
];

#[test]
fn slot_passes(rt: HostRuntime) {
    check_after(&rt, rt.alloc(), ROOM, DEPOSIT_AND_REMOVE, (Some(7), 6));
}

// Refuses each request of the slot in turn, until it passes.
fn refuse_while_stepping(rt: &impl Abort, heap: Global, rows: &[Step]) {
    let refused = refuse_in_turn(heap, OutOfMemory, |refusing: &Refusing<Global>| {
        Ok(after(rt, refusing, ROOM, rows)? == (Some(7), 6))
    });
    assert_eq!(rt; refused, Ok(()));
}

#[test]
fn each_request_is_refused(rt: HostRuntime) {
    refuse_while_stepping(&rt, rt.alloc(), DEPOSIT_AND_REMOVE);
}

const OWNERS_AND_STALE: &[Step] = &[
    (1, DEPOSIT, Reply::Started(ActId(0))),
    (2, Attempt::Finish(ActId(0)), Reply::NotYours),
    (2, Attempt::Apply(ActId(0), Verb::Look), Reply::NotYours),
    (1, Attempt::Finish(ActId(0)), Reply::Finished),
    (1, REMOVE, Reply::Started(ActId(1))),
    (1, Attempt::Finish(ActId(0)), Reply::Stale),
    (1, Attempt::Apply(ActId(1), Verb::Look), Reply::Used(0)),
    (1, Attempt::Apply(ActId(9), Verb::Look), Reply::Stale),
    (1, UNKNOWN, Reply::UnknownOperation),
];

#[test]
fn owners_and_stale(rt: HostRuntime) {
    check_after(&rt, rt.alloc(), ROOM, OWNERS_AND_STALE, (Some(0), 9));
}

const ROOM_OF_TWO: &[Step] = &[
    (1, DEPOSIT, Reply::Started(ActId(0))),
    (1, Attempt::Apply(ActId(0), Verb::Put(7)), Reply::NoRoom),
    (1, Attempt::Finish(ActId(0)), Reply::Finished),
    (1, REMOVE, Reply::NoRoom),
    (1, UNKNOWN, Reply::NoRoom),
    (1, Attempt::Finish(ActId(0)), Reply::NoRoom),
];

#[test]
fn room_of_two(rt: HostRuntime) {
    check_after(&rt, rt.alloc(), 2, ROOM_OF_TWO, (Some(0), 2));
}

const WITHOUT_A_TRACE: &[Step] = &[
    (1, DEPOSIT, Reply::Started(ActId(0))),
    (
        1,
        Attempt::Apply(ActId(0), Verb::Put(u64::MAX)),
        Reply::Used(0),
    ),
    (1, Attempt::Apply(ActId(0), Verb::Take), Reply::NotOffered),
    (1, Attempt::Apply(ActId(0), Verb::Add(1)), Reply::NotOffered),
    (
        1,
        Attempt::Apply(ActId(0), Verb::Look),
        Reply::Used(u64::MAX),
    ),
];

#[test]
fn cells_refuse_without_a_trace(rt: HostRuntime) {
    check_after(&rt, rt.alloc(), 6, WITHOUT_A_TRACE, (Some(u64::MAX), 5));
}

#[test]
fn rooms_are_taken_up_to_the_limit(rt: HostRuntime) {
    check_after(&rt, rt.alloc(), 1, &[], (Some(0), 0));
    check_after(&rt, rt.alloc(), MOST_LINES, &[], (Some(0), 0));
}

fn tells<F: Display + Drop>(rt: &impl Abort, heap: Global, fault: F, want: &str) {
    let text = format!(in heap; "{fault}").expect(rt, "enough memory");
    assert_eq!(rt; text.as_str(), want);
}

#[test]
fn faults_are_told(rt: HostRuntime) {
    let heap = rt.alloc();
    tells(&rt, heap, OpenFault::BadRoom, "bad room");
    tells(&rt, heap, OpenFault::WrongCount, "wrong count");
    tells(
        &rt,
        heap,
        OpenFault::WrongDevice(ResId(63)),
        "wrong device 63",
    );
    tells(&rt, heap, OpenFault::OutOfMemory, "out of memory");
}

#[test]
fn faults_of_replacing_are_told(rt: HostRuntime) {
    let heap = rt.alloc();
    tells(&rt, heap, ReplaceFault::Busy, "busy");
    tells(&rt, heap, ReplaceFault::Used, "used");
    tells(&rt, heap, ReplaceFault::OtherLaw, "other law");
}
