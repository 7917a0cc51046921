//! Threads at one desk.

ghost use Rattle.std.specs.Prelude.{◌≡◌};

use crate::tests::workers::own::{FIRST, ROOM, SECOND, open_system};
use path_model::{Attempt, OpId, Reply, Verb};
use path_shelf::{Cell, Device, Queue};
use path_system::System;
use path_workers::{Desk, DeskName, Pass, Steps};
use std::alloc::{Allocator, Global};
use std::marker::Brand;
use std::process::Abort;
use std::sync::Wait;
use std::sync::ledger::Blank;
use std::thread;
use std::thread::Threads;

/// What each worker does in a round: it starts an operation and, if that is admitted, uses it and finishes.
type Round<'a> = &'a [(Attempt, &'a [Verb])];

/// How many workers there are, and how many rounds each makes.
#[derive(Clone, Copy)]
struct Plan<'a> {
    workers: u32,
    rounds: u32,
    round: Round<'a>,
}

fn uses<L: DeskName, S: Steps, R: Wait + Abort>(
    rt: &R,
    desk: &Desk<L, S>,
    pass: &mut Pass<L>,
    start: Attempt,
    verbs: &[Verb],
) {
    let answer = desk.attempt(rt, pass, start).expect(rt, "memory is ample");
    if let Reply::Started(act) = answer.reply {
        for verb in verbs {
            assert!(rt; desk.attempt(rt, pass, Attempt::Apply(act, *verb)).is_ok());
        }
        assert!(rt; desk.attempt(rt, pass, Attempt::Finish(act)).is_ok());
    }
}

fn one_round<L: DeskName, S: Steps, R: Wait + Abort>(
    rt: &R,
    desk: &Desk<L, S>,
    pass: &mut Pass<L>,
    round: Round<'_>,
) {
    for (start, verbs) in round {
        uses(rt, desk, pass, *start, verbs);
    }
}

fn works<L: DeskName, S: Steps, R: Wait + Abort>(
    rt: &R,
    desk: &Desk<L, S>,
    mut pass: Pass<L>,
    plan: Plan<'_>,
) -> Pass<L> {
    for _ in 0..plan.rounds {
        one_round(rt, desk, &mut pass, plan.round);
    }
    pass
}

// A pass for each worker.
fn passes_of<L: DeskName, S: Steps>(
    rt: &impl Abort,
    alloc: Global,
    desk: &Desk<L, S>,
    workers: u32,
) -> Vec<Pass<L>> {
    let mut passes = Vec::new(alloc);
    for worker in 0..workers {
        assert!(rt; passes.push(desk.pass(alloc, worker)).is_ok());
    }
    passes
}

// Each worker in a thread of its own.
fn all_work<L: DeskName + Send + Sync, S: Steps + Send, R: Threads + Wait + Abort + Sync>(
    rt: &R,
    desk: &Desk<L, S>,
    passes: Vec<Pass<L>>,
    plan: Plan<'_>,
) -> Vec<Pass<L>> {
    let passes = thread::map_vec(rt, passes, &|pass| works(rt, desk, pass, plan));
    passes.expect(rt, "memory is ample")
}

// The system, settled after all have worked.
fn settled<L: DeskName + Send + Sync, S: Steps + Send, R: Threads + Wait + Abort + Sync>(
    rt: &R,
    alloc: Global,
    system: S,
    blank: Blank,
    plan: Plan<'_>,
) -> S
    requires name { blank.name ≡ L.name }
    requires parts { (blank.parts ≡ L.parts) × (blank.parts ≡ 18446744073709551615) }
    requires opened { S.account system ≡ L.opened }
{
    let desk = Desk::<L, S>::open(system, blank);
    let passes = passes_of(rt, alloc, &desk, plan.workers);
    let passes = all_work(rt, &desk, passes, plan);
    match desk.settle(passes) {
        Ok(settled) => settled.system,
        Err((fault, _system)) => panic!(rt; "{fault:?}"),
    }
}

// The system, once all have worked at a new desk over it.
fn worked<D: Device + Send, A: Allocator + Copy + Send + Sync, R: Threads + Wait + Abort + Sync>(
    rt: &R,
    alloc: Global,
    system: System<D, A>,
    plan: Plan<'_>,
) -> System<D, A> {
    settled::<Brand, System<D, A>, R>(rt, alloc, system, Blank::new(u64::MAX), plan)
}

// How many lines there are once all have worked over this device, and nothing is live.
fn lines_of<D: Device + Send, R: Threads + Wait + Abort + Sync>(
    rt: &R,
    alloc: Global,
    text: &[u8],
    device: D,
    plan: Plan<'_>,
) -> usize {
    let system = open_system(rt, alloc, text, ROOM, device);
    match worked::<D, Global, R>(rt, alloc, system, plan).close() {
        Ok(journal) => journal.len(),
        Err(_) => panic!(rt; "something is live"),
    }
}

const BOOK: &[u8] = b"resource book cell operation read, write path { read } , write end end";

const TWO_READERS: Plan<'static> = Plan {
    workers: 2,
    rounds: 100,
    round: &[(FIRST, &[])],
};

#[test]
fn two_readers(rt: HostRuntime) {
    let lines = lines_of(&rt, rt.alloc(), BOOK, Cell::new(0), TWO_READERS);
    assert!(rt; lines == 400);
}

#[test]
fn two_readers_of_a_box(rt: HostRuntime) {
    let device: Box<dyn Device + Send> = Box::new(rt.alloc(), Cell::new(0)).expect(
        &rt,
        "memory is ample",
    );
    let lines = lines_of(&rt, rt.alloc(), BOOK, device, TWO_READERS);
    assert!(rt; lines == 400);
}

const POOL: &[u8] = b"resource r cell operation read, write path { read : 2 } , write end end";

const POOLED: Plan<'static> = Plan {
    workers: 8,
    rounds: 50,
    round: &[
        (FIRST, &[Verb::Look, Verb::Look]),
        (SECOND, &[Verb::Put(3), Verb::Look]),
    ],
};

#[test]
fn eight_workers_of_a_pool(rt: HostRuntime) {
    let lines = lines_of(&rt, rt.alloc(), POOL, Cell::new(0), POOLED);
    assert!(rt; 800 <= lines && lines <= 3200);
}

const BUFFER: &[u8] = b"resource buf queue 2 operation put0, put1, get0, get1
    path put0 ; put1 end path get0 ; get1 end path put0 ; get0 end path put1 ; get1 end end";

const BUFFERED: Plan<'static> = Plan {
    workers: 8,
    rounds: 25,
    round: &[
        (FIRST, &[Verb::Put(5)]),
        (SECOND, &[Verb::Put(6)]),
        (Attempt::Start(OpId(2)), &[Verb::Take]),
        (Attempt::Start(OpId(3)), &[Verb::Take]),
    ],
};

#[test]
fn eight_workers_of_a_bounded_buffer(rt: HostRuntime) {
    let queue = Queue::new(rt.alloc(), 2).expect(&rt, "memory is ample");
    let lines = lines_of(&rt, rt.alloc(), BUFFER, queue, BUFFERED);
    assert!(rt; 800 <= lines && lines <= 2400);
}
