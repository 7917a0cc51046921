//! Systems over boxes: which devices are replaced and dropped, and when.

use crate::tests::systems::boxes::{cell, counted, counter, failing_tally, queue, tally};
use crate::tests::systems::stepping::{
    ONLY, SLOT, Step, alone, contains, declared, opened, row_of, steps,
};
use path_decl::counts;
use path_model::{ActId, Attempt, OpId, Reply, Verb};
use path_shelf::Device;
use path_system::{Controller, ReplaceFault, System};
use std::alloc::Global;
use std::process::Abort;
use std::sync::atomic::{AtomicU32, Ordering};

/// A queue of two places.
const PAIR: &[u8] = b"resource q queue 2 operation a end";

/// A tally.
const SUM: &[u8] = b"resource t tally operation a end";

const DEPOSIT: Attempt = Attempt::Start(OpId(0));

const REMOVE: Attempt = Attempt::Start(OpId(1));

const DEPOSITING: &[Step] = &[(1, DEPOSIT, Reply::Started(ActId(0)))];

const DEPOSITED: &[Step] = &[(1, Attempt::Finish(ActId(0)), Reply::Finished)];

const REMOVING: &[Step] = &[
    (1, REMOVE, Reply::Started(ActId(1))),
    (1, Attempt::Apply(ActId(1), Verb::Look), Reply::Used(9)),
];

const REMOVED: &[Step] = &[(1, Attempt::Finish(ActId(1)), Reply::Finished)];

// The answer to a replacement of the device of the only resource.
fn replaced<D: Device>(
    rt: &impl Abort,
    system: &mut System<D>,
    device: D,
) -> Result<(), (ReplaceFault, D)> {
    assert_eq!(rt; counts(system.decl()).resources, 1);
    system.replace(ONLY, device)
}

// Why a device was refused, if it was, and the number in it; else no refusal and `number`.
fn refusal<D: Device>(
    answer: &Result<(), (ReplaceFault, D)>,
    number: Option<u64>,
) -> (Result<(), ReplaceFault>, Option<u64>) {
    match answer {
        Ok(()) => (Ok(()), number),
        Err((fault, back)) => (Err(*fault), back.at(0)),
    }
}

// Checks that the device of the only resource is replaced, or refused for this.
fn replaces<D: Device>(
    rt: &impl Abort,
    system: &mut System<D>,
    device: D,
    want: Result<(), ReplaceFault>,
) {
    let number = device.at(0);
    let answer = replaced(rt, system, device);
    let refusal = refusal(&answer, number);
    drop(answer);
    assert_eq!(rt; refusal, (want, number));
}

// The same with the last of these devices.
fn replaces_next<D: Device>(
    rt: &impl Abort,
    system: &mut System<D>,
    others: &mut Vec<D>,
    want: Result<(), ReplaceFault>,
) {
    let device = others.pop().expect(rt, "there is one left");
    replaces(rt, system, device, want);
}

// Checks that the system closes and gives this many lines.
fn closes<D: Device>(rt: &impl Abort, system: System<D>, lines: usize) {
    match system.close() {
        Ok(journal) => assert_eq!(rt; journal.len(), lines),
        Err(_) => panic!(rt; "something is live"),
    }
}

// Checks that the system can't be closed.
fn stays_open<D: Device>(rt: &impl Abort, system: System<D>) -> System<D> {
    match system.close() {
        Ok(_) => panic!(rt; "nothing is live"),
        Err(system) => system,
    }
}

// The slot after a deposit that was live and is over.
fn deposited<D: Device>(rt: &impl Abort, system: System<D>) -> System<D> {
    let mut system = system;
    steps(rt, &mut system, DEPOSITING);
    let mut system = stays_open(rt, system);
    steps(rt, &mut system, DEPOSITED);
    system
}

// Checks that closing a slot drops its cell, and that nothing is dropped before.
fn drops_at_the_end<D: Device>(rt: &impl Abort, alloc: Global, cell: D, drops: &AtomicU32) {
    let system = opened(rt, alloc, SLOT, alone(rt, alloc, cell));
    let system = deposited(rt, system);
    let before = drops.load(Ordering::SeqCst);
    closes(rt, system, 2);
    assert_eq!(rt; [before, drops.load(Ordering::SeqCst)], [0, 1]);
}

#[test]
fn closing_drops_each_device_once(rt: HostRuntime) {
    let drops = counter(&rt, rt.alloc());
    let cell = counted(&rt, rt.alloc(), 3, &drops);
    drops_at_the_end(&rt, rt.alloc(), cell, &drops);
    assert_eq!(rt; drops.load(Ordering::SeqCst), 1);
}

// A controller of the slot over this cell.
fn controlled<D: Device>(rt: &impl Abort, alloc: Global, cell: D) -> Controller<D> {
    let decl = declared(rt, alloc, SLOT).expect(rt, "enough memory");
    match Controller::open(alloc, decl, alone(rt, alloc, cell), 8) {
        Ok(controller) => controller,
        Err(_) => panic!(rt; "not opened"),
    }
}

// Checks that the controller can't be closed while a deposit is live, and returns it when that is over.
fn deposited_under_control<D: Device>(rt: &impl Abort, controller: Controller<D>) -> Controller<D> {
    let mut controller = controller;
    assert_eq!(rt; controller.step(1, DEPOSIT), Reply::Started(ActId(0)));
    match controller.close() {
        Ok(()) => panic!(rt; "nothing is live"),
        Err(controller) => {
            let mut controller = controller;
            assert_eq!(rt;
                controller.step(1, Attempt::Finish(ActId(0))),
                Reply::Finished
            );
            controller
        }
    }
}

// Checks that closing a controller of the slot drops its cell, and that nothing is dropped before.
fn control_drops_at_the_end<D: Device>(rt: &impl Abort, alloc: Global, cell: D, drops: &AtomicU32) {
    let controller = deposited_under_control(rt, controlled(rt, alloc, cell));
    let before = drops.load(Ordering::SeqCst);
    let is_closed = controller.close().is_ok();
    assert!(rt; is_closed);
    assert_eq!(rt; [before, drops.load(Ordering::SeqCst)], [0, 1]);
}

#[test]
fn closing_a_controller_drops_each_device_once(rt: HostRuntime) {
    let drops = counter(&rt, rt.alloc());
    let cell = counted(&rt, rt.alloc(), 3, &drops);
    control_drops_at_the_end(&rt, rt.alloc(), cell, &drops);
    assert_eq!(rt; drops.load(Ordering::SeqCst), 1);
}

// Checks that the cell of the slot can't be replaced while a deposit is live, and afterwards only by a cell.
fn kept<D: Device>(rt: &impl Abort, system: System<D>, others: &mut Vec<D>) -> System<D> {
    let mut system = system;
    steps(rt, &mut system, DEPOSITING);
    replaces_next(rt, &mut system, others, Err(ReplaceFault::Busy));
    let mut system = stays_open(rt, system);
    steps(rt, &mut system, DEPOSITED);
    replaces_next(rt, &mut system, others, Err(ReplaceFault::OtherLaw));
    contains(rt, &system, &[0]);
    system
}

// Checks that the slot keeps its device once it was asked.
fn kept_to_the_end<D: Device>(rt: &impl Abort, system: System<D>, others: &mut Vec<D>) {
    let mut system = system;
    steps(rt, &mut system, REMOVING);
    replaces_next(rt, &mut system, others, Err(ReplaceFault::Busy));
    steps(rt, &mut system, REMOVED);
    replaces_next(rt, &mut system, others, Err(ReplaceFault::Used));
    contains(rt, &system, &[9]);
    closes(rt, system, 5);
}

// Checks that a cell which contains 9 replaces that of the slot, which is dropped now and not before.
fn dropped_when_replaced<D: Device>(
    rt: &impl Abort,
    system: &mut System<D>,
    others: &mut Vec<D>,
    drops: &AtomicU32,
) {
    let before = drops.load(Ordering::SeqCst);
    replaces_next(rt, system, others, Ok(()));
    assert_eq!(rt; [before, drops.load(Ordering::SeqCst)], [0, 1]);
    contains(rt, system, &[9]);
}

// Checks that the cell of a slot can be replaced by another cell before it is asked, and never after that.
fn replaces_and_closes<D: Device>(
    rt: &impl Abort,
    alloc: Global,
    first: D,
    others: &mut Vec<D>,
    drops: &AtomicU32,
) {
    let system = opened(rt, alloc, SLOT, alone(rt, alloc, first));
    let mut system = kept(rt, system, others);
    dropped_when_replaced(rt, &mut system, others, drops);
    kept_to_the_end(rt, system, others);
}

#[test]
fn replace_and_close(rt: HostRuntime) {
    let heap = rt.alloc();
    let drops = counter(&rt, heap);
    let first = counted(&rt, heap, 0, &drops);
    // The last is tried first.
    let others = [
        cell(&rt, heap, 1),
        cell(&rt, heap, 1),
        cell(&rt, heap, 9),
        tally(&rt, heap, 2),
        cell(&rt, heap, 4),
    ];
    let mut others = row_of(&rt, heap, others);
    replaces_and_closes(&rt, heap, first, &mut others, &drops);
    let left = others.len();
    drop(others);
    assert_eq!(rt; (left, drops.load(Ordering::SeqCst)), (0, 1));
}

// The answer to each device in turn, and what the only resource then contains.
const QUEUES_REPLACED: &[(Result<(), ReplaceFault>, &[u64])] = &[
    (Ok(()), &[5, 6]),
    (Err(ReplaceFault::OtherLaw), &[5, 6]),
    (Ok(()), &[]),
];

// The last of these devices is tried first.
fn replace_each_in_turn<D: Device>(
    rt: &impl Abort,
    system: &mut System<D>,
    others: &mut Vec<D>,
    rows: &[(Result<(), ReplaceFault>, &[u64])],
) {
    for (want, numbers) in rows {
        replaces_next(rt, system, others, *want);
        contains(rt, system, numbers);
    }
}

// Checks that a queue can be replaced by one with these numbers, and then by an empty one, but not by one of another capacity.
fn replaces_queues<D: Device>(rt: &impl Abort, alloc: Global, first: D, queues: &mut Vec<D>) {
    let mut system = opened(rt, alloc, PAIR, alone(rt, alloc, first));
    replace_each_in_turn(rt, &mut system, queues, QUEUES_REPLACED);
    drop(system);
}

#[test]
fn queues_are_replaced(rt: HostRuntime) {
    let heap = rt.alloc();
    let first = queue(&rt, heap, 2, &[]);
    // The last is tried first.
    let queues = [
        queue(&rt, heap, 2, &[]),
        queue(&rt, heap, 1, &[]),
        queue(&rt, heap, 2, &[5, 6]),
    ];
    let mut queues = row_of(&rt, heap, queues);
    replaces_queues(&rt, heap, first, &mut queues);
    assert!(rt; queues.is_empty());
}

const FAILED: &[Step] = &[
    (1, Attempt::Start(OpId(0)), Reply::Started(ActId(0))),
    (
        1,
        Attempt::Apply(ActId(0), Verb::Add(2)),
        Reply::DeviceFailed,
    ),
    (1, Attempt::Finish(ActId(0)), Reply::Finished),
];

// Checks that a device counts as asked even if it failed.
fn kept_though_it_failed<D: Device>(rt: &impl Abort, alloc: Global, failing: D, other: D) {
    let mut system = opened(rt, alloc, SUM, alone(rt, alloc, failing));
    steps(rt, &mut system, FAILED);
    replaces(rt, &mut system, other, Err(ReplaceFault::Used));
    contains(rt, &system, &[3]);
    drop(system);
}

#[test]
fn failed_device_was_asked(rt: HostRuntime) {
    let failing = failing_tally(&rt, rt.alloc(), 3, 1, 0);
    let other = tally(&rt, rt.alloc(), 4);
    kept_though_it_failed(&rt, rt.alloc(), failing, other);
}
