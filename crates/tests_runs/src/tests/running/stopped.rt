//! A turnstile that stops the first process before a step.

use crate::tests::running::own::{Case, ROOM, SLOT, journal_through};
use path_model::{Line, OpId, Reply};
use path_run::{End, Turnstile};
use std::alloc::Global;
use std::process::Abort;
use std::sync::atomic::{AtomicU32, AtomicU64, Ordering};
use std::sync::{Arc, Wait};
use std::thread::Threads;
use test_support::Counted;

const ROUNDS: &[u8] = b"process p
enter deposit\nuse put 7\nleave\nenter deposit\nuse put 7\nleave\nenter deposit\nuse put 7\nleave\nend
process c
enter remove\nuse look\nleave\nenter remove\nuse look\nleave\nenter remove\nuse look\nleave\nend
";

/// Stops process 0 before this step, and counts how often it is asked for each step of each process.
#[derive(Drop)]
struct Stopping {
    stop: u32,
    first: [AtomicU64; 9],
    second: [AtomicU64; 9],
    /// How often it is asked for a step that no process has.
    others: AtomicU64,
}

fn zeros() -> [AtomicU64; 9] {
    [
        AtomicU64::new(0),
        AtomicU64::new(0),
        AtomicU64::new(0),
        AtomicU64::new(0),
        AtomicU64::new(0),
        AtomicU64::new(0),
        AtomicU64::new(0),
        AtomicU64::new(0),
        AtomicU64::new(0),
    ]
}

impl Turnstile for Stopping {
    fn before(&self, worker: u32, step: u32) -> bool {
        let asked = match worker {
            0 => self.first.get(step as usize),
            1 => self.second.get(step as usize),
            _ => None,
        };
        asked.unwrap_or(&self.others).fetch_add(1, Ordering::SeqCst);
        worker != 0 || step != self.stop
    }
}

/// Whether each step below this number was asked for once, and no other was.
fn asked_below(counts: &[AtomicU64; 9], steps: usize) -> bool {
    for i in 0..9 {
        if counts[i].load(Ordering::SeqCst) != u64::from(i < steps) {
            return false;
        }
    }
    true
}

/// How many lines are finishes of process 0.
fn finished(journal: &[Line]) -> usize {
    journal
        .iter()
        .filter(|line| line.worker == 0 && line.reply == Reply::Finished)
        .count()
}

/// How many deposits are finished in a run through this turnstile over this device, if these are the ends.
fn deposits_through<R: Threads + Wait + Abort + Sync>(
    rt: &R,
    alloc: Global,
    turnstile: &Stopping,
    device: Counted,
    ends: &[End],
) -> usize {
    let case = Case {
        declaration: SLOT,
        room: ROOM,
        script: ROUNDS,
    };
    let journal = journal_through(rt, alloc, case, device, turnstile, ends);
    finished(&journal)
}

/// How many deposits are finished in a run through this turnstile, if these are the ends. Checks that the run's device is dropped once.
fn deposits_over_one<R: Threads + Wait + Abort + Sync>(
    rt: &R,
    alloc: Global,
    turnstile: &Stopping,
    ends: &[End],
) -> usize {
    let drops = Arc::new(alloc, AtomicU32::new(0)).expect(rt, "enough memory");
    let device = Counted::new(0, drops.clone().expect(rt, "clones are few"));
    let finished = deposits_through(rt, alloc, turnstile, device, ends);
    assert_eq!(rt; drops.load(Ordering::SeqCst), 1);
    finished
}

/// Checks a run in which process 0 is stopped before this step: how many deposits are finished, how both processes end, and which
/// steps the turnstile is asked for. Nothing stops it if it has no such step.
fn stops_before<R: Threads + Wait + Abort + Sync>(rt: &R, alloc: Global, stop: u32) {
    let deposits = stop.div_ceil(3);
    let own = if stop < 9 { End::Stopped } else { End::Done };
    let (other, asked) = if deposits == 3 {
        (End::Done, 9)
    } else {
        (End::Stalled(OpId(1)), 3 * deposits as usize + 1)
    };
    let turnstile = Stopping {
        stop,
        first: zeros(),
        second: zeros(),
        others: AtomicU64::new(0),
    };
    let finished = deposits_over_one(rt, alloc, &turnstile, &[own, other]);
    assert_eq!(rt; finished, deposits as usize);
    assert!(rt; asked_below(&turnstile.first, stop as usize + 1));
    assert!(rt; asked_below(&turnstile.second, asked));
    assert_eq!(rt; turnstile.others.load(Ordering::SeqCst), 0);
}

#[test]
fn run_stops_before_each_step(rt: HostRuntime) {
    for stop in 0..9 {
        stops_before(&rt, rt.alloc(), stop);
    }
}

/// Nobody is asked again behind the last step.
#[test]
fn run_asks_for_each_step_once(rt: HostRuntime) {
    stops_before(&rt, rt.alloc(), 9);
}
