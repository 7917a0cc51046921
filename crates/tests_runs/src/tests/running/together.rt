//! Processes that must run at once, and two that each hold what the other needs.

use crate::tests::running::own::{
    BOOK, Case, PAIR, ROOM, journal_through, live_in, ran_over, started, system_in,
};
use path_model::{Activation, OpId};
use path_run::{End, Turnstile};
use path_shelf::Cell;
use path_system::System;
use std::alloc::Global;
use std::process::Abort;
use std::sync::Wait;
use std::sync::atomic::{AtomicU64, Ordering};
use std::thread;
use std::thread::Threads;

/// How often a process may ask again whether the other has come.
const TURNS: u32 = 1_000_000;

/// Holds each of two processes at step 1 until the other is there.
#[derive(Drop)]
struct Meeting {
    come: [AtomicU64; 2],
}

impl Meeting {
    fn new() -> Meeting {
        Meeting {
            come: [AtomicU64::new(0), AtomicU64::new(0)],
        }
    }
}

impl Turnstile for Meeting {
    fn before(&self, worker: u32, step: u32) -> bool {
        if step != 1 || worker > 1 {
            return true;
        }
        self.come[worker as usize].store(1, Ordering::SeqCst);
        for _ in 0..TURNS {
            if self.come[1 - worker as usize].load(Ordering::SeqCst) == 1 {
                return true;
            }
            thread::yield_now();
        }
        false
    }
}

#[test]
fn run_readers_together(rt: HostRuntime) {
    let text = b"process p\nenter read\nleave\nend\nprocess q\nenter read\nleave\nend\n";
    let case = Case {
        declaration: BOOK,
        room: ROOM,
        script: text,
    };
    let ends = [End::Done, End::Done];
    let journal = journal_through(&rt, rt.alloc(), case, Cell::new(0), &Meeting::new(), &ends);
    assert_eq!(&rt; started(&journal), 2);
}

const CROSSWISE: &[u8] =
    b"process p\nenter a\nenter b\nleave\nleave\nend\nprocess q\nenter b\nenter a\nleave\nleave\nend\n";

/// What a run leaves whose two processes each take one lock and then wait for the other's.
fn after_deadlock<R: Threads + Wait + Abort + Sync>(rt: &R, alloc: Global) -> System<Cell> {
    let case = Case {
        declaration: PAIR,
        room: ROOM,
        script: CROSSWISE,
    };
    let ends = [End::Stalled(OpId(1)), End::Stalled(OpId(0))];
    let outcome = ran_over(rt, alloc, case, Cell::new(0), &Meeting::new());
    system_in(rt, outcome, &ends)
}

#[test]
fn run_deadlock(rt: HostRuntime) {
    let system = after_deadlock(&rt, rt.alloc());
    let journal = system.journal();
    assert_eq!(&rt; journal.len(), 4);
    assert_eq!(&rt; started(journal), 2);
}

/// Whether exactly these two are live: process 0 in the first operation and process 1 in the second.
fn are_crosswise(live: &[Activation]) -> bool {
    live.len() == 2
        && live.iter().any(|one| one.worker == 0 && one.op == OpId(0))
        && live.iter().any(|one| one.worker == 1 && one.op == OpId(1))
}

/// Both keep what they hold, so the system isn't frozen: a finish would let the other go on.
#[test]
fn a_deadlock_keeps_both_live(rt: HostRuntime) {
    let system = after_deadlock(&rt, rt.alloc());
    let told = live_in(rt.alloc(), &system);
    drop(system);
    let (live, frozen) = told.expect(&rt, "enough memory");
    assert!(&rt; are_crosswise(&live));
    assert!(&rt; !frozen);
}
