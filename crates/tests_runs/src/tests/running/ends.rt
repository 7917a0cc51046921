//! Processes that stall, run out of room, or are refused by a device.

use crate::tests::running::own::{
    Case, KNOT, ROOM, SLOT, journal_of, live_in, ran, started, system_in, unblocked,
};
use path_model::{Attempt, OpId, PathId, Reply};
use path_run::End;
use path_shelf::{Cell, Queue};
use path_system::System;
use std::alloc::Global;
use std::process::Abort;
use std::sync::Wait;
use std::thread::Threads;

const BAG: &[u8] = b"resource q queue 1 operation a end";

/// What a run leaves of the knot. Nothing can be started, so both stall at once.
fn after_knot<R: Threads + Wait + Abort + Sync>(rt: &R, alloc: Global) -> System<Cell> {
    let text = b"process p\nenter a\nleave\nend\nprocess q\nenter b\nleave\nend\n";
    let case = Case {
        declaration: KNOT,
        room: ROOM,
        script: text,
    };
    let ends = [End::Stalled(OpId(0)), End::Stalled(OpId(1))];
    system_in(rt, ran(rt, alloc, case, Cell::new(0)), &ends)
}

#[test]
fn run_knot(rt: HostRuntime) {
    let system = after_knot(&rt, rt.alloc());
    let journal = system.journal();
    assert_eq!(&rt; journal.len(), 2);
    assert_eq!(&rt; started(journal), 0);
}

/// Checks that nothing is live, and that the system is frozen.
fn expect_frozen(rt: &impl Abort, alloc: Global, system: &System<Cell>) {
    let told = live_in(alloc, system);
    let (live, frozen) = told.expect(rt, "enough memory");
    assert!(rt; live.is_empty() && frozen);
}

/// Checks that so many starts of each of the two operations are blocked, each by the path in which the other comes first.
fn refuse_starts(rt: &impl Abort, system: &mut System<Cell>, count: u32) {
    for worker in 0..count {
        let first = system.step(worker, Attempt::Start(OpId(0)));
        assert_eq!(rt; first, Reply::Blocked(PathId(1)));
        let second = system.step(worker, Attempt::Start(OpId(1)));
        assert_eq!(rt; second, Reply::Blocked(PathId(0)));
    }
}

/// What is frozen stays so: each of a hundred further starts is refused.
#[test]
fn a_knot_stays_frozen(rt: HostRuntime) {
    let mut system = after_knot(&rt, rt.alloc());
    expect_frozen(&rt, rt.alloc(), &system);
    refuse_starts(&rt, &mut system, 50);
    expect_frozen(&rt, rt.alloc(), &system);
    assert_eq!(&rt; system.journal().len(), 102);
}

#[test]
fn run_gives_up_for_room(rt: HostRuntime) {
    let text = b"process p\nenter deposit\nuse put 7\nuse put 8\nleave\nend\n";
    let case = Case {
        declaration: SLOT,
        room: 3,
        script: text,
    };
    let journal = journal_of(&rt, rt.alloc(), case, Cell::new(0), &[End::NoRoom]);
    assert_eq!(&rt; journal.len(), 3);
    assert_eq!(&rt; journal[1].reply, Reply::Used(0));
    assert_eq!(&rt; journal[2].reply, Reply::Finished);
}

/// A start wants a place for its finish, too, and only one is left.
#[test]
fn a_start_without_room(rt: HostRuntime) {
    let text = b"process p\nenter deposit\nleave\nenter remove\nleave\nend\n";
    let case = Case {
        declaration: SLOT,
        room: 3,
        script: text,
    };
    let journal = journal_of(&rt, rt.alloc(), case, Cell::new(0), &[End::NoRoom]);
    assert_eq!(&rt; journal.len(), 2);
    assert_eq!(&rt; journal[1].reply, Reply::Finished);
}

#[test]
fn run_gives_up_for_a_fault(rt: HostRuntime) {
    let alloc = rt.alloc();
    let Ok(queue) = Queue::new(alloc, 1) else {
        panic!(&rt; "no queue")
    };
    let text = b"process p\nenter a\nuse take\nleave\nend\n";
    let case = Case {
        declaration: BAG,
        room: ROOM,
        script: text,
    };
    let ends = [End::Faulted(Reply::Empty)];
    let journal = journal_of(&rt, alloc, case, queue, &ends);
    assert_eq!(&rt; journal.len(), 3);
    assert_eq!(&rt; journal[2].reply, Reply::Finished);
}

/// Both end each time, whoever comes first.
#[test]
fn run_slot_again(rt: HostRuntime) {
    let text = b"process p\nenter deposit\nleave\nend\nprocess q\nenter remove\nleave\nend\n";
    for _ in 0..100 {
        let case = Case {
            declaration: SLOT,
            room: ROOM,
            script: text,
        };
        let ends = [End::Done, End::Done];
        let journal = journal_of(&rt, rt.alloc(), case, Cell::new(0), &ends);
        assert_eq!(&rt; unblocked(&journal), 4);
    }
}
