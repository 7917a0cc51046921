//! The ledger.

use path_ledger::{EndFault, HoldFault, Ledger};
use path_model::{ActId, Activation, OpId, OutOfMemory};
use std::alloc::{Allocator, Global};
use std::process::Abort;
use test_support::{Refusing, count_refusals};

// No activation has this number: it is past 32 bits.
const NO_ACTIVATION: ActId = ActId(4294967296);

/// A ledger's answers: the number of a first activation, what is found by it, what ends twice, the number of a second activation,
/// and how many were begun.
type Answers = (ActId, [Option<Activation>; 3], ActId, u32);

const FIRST: Activation = Activation {
    act: ActId(0),
    worker: 7,
    op: OpId(0),
};

const ANSWERS: Answers = (ActId(0), [Some(FIRST), Some(FIRST), None], ActId(1), 2);

// A worked example: numbers are never given twice, and a number ends once.
fn answers<A: Allocator + Copy>(rt: &impl Abort, alloc: A) -> Result<Answers, OutOfMemory> {
    let mut ledger = Ledger::with_room(alloc, 1)?;
    let first = ledger.begin(7, OpId(0));
    let ended = [
        ledger.find(ActId(0)),
        ledger.end(ActId(0)),
        ledger.end(ActId(0)),
    ];
    assert!(rt; ledger.live().len() == 0);
    let second = ledger.begin(7, OpId(0));
    let begun = ledger.begun();
    drop(ledger);
    Ok((first, ended, second, begun))
}

#[test]
fn ledger(rt: HostRuntime) {
    assert_eq!(rt; answers(&rt, rt.alloc()), Ok(ANSWERS));
}

// Counts the requests of a ledger that are refused, each of which it must tell, until it gives all answers.
fn ledger_refusals(rt: &impl Abort, heap: Global) -> Result<u64, u64> {
    count_refusals(heap, OutOfMemory, |refusing: &Refusing<Global>| {
        Ok(answers(rt, refusing)? == ANSWERS)
    })
}

#[test]
fn ledger_wants_memory_once(rt: HostRuntime) {
    assert_eq!(rt; ledger_refusals(&rt, rt.alloc()), Ok(1));
}

// The worker of the activation that ends.
fn ended<A: Allocator + Copy>(ledger: &mut Ledger<A>, act: ActId) -> Option<u32> {
    match ledger.end(act) {
        Some(activation) => Some(activation.worker),
        None => None,
    }
}

// The worker of the live activation of this number.
fn found<A: Allocator + Copy>(ledger: &Ledger<A>, act: ActId) -> Option<u32> {
    match ledger.find(act) {
        Some(activation) => Some(activation.worker),
        None => None,
    }
}

// A ledger with one activation each of workers 10, 11 and 12.
fn three_live(rt: &impl Abort, heap: Global) -> Ledger {
    let mut ledger = Ledger::with_room(heap, 3).expect(rt, "enough memory");
    let _ = ledger.begin(10, OpId(5));
    let _ = ledger.begin(11, OpId(6));
    let _ = ledger.begin(12, OpId(7));
    ledger
}

// The workers of what ends twice, and is then found.
fn ended_and_found(ledger: &mut Ledger) -> [Option<u32>; 5] {
    [
        ended(ledger, ActId(1)),
        ended(ledger, ActId(1)),
        found(ledger, ActId(1)),
        found(ledger, ActId(2)),
        found(ledger, NO_ACTIVATION),
    ]
}

#[test]
fn second_finish_ends_none(rt: HostRuntime) {
    let mut ledger = three_live(&rt, rt.alloc());
    let workers = ended_and_found(&mut ledger);
    let live = ledger.live().len();
    assert_eq!(rt;
        (workers, live),
        ([Some(11), None, None, Some(12), None], 2)
    );
}

// The operation of the activation that the worker ends as its own.
fn ended_own<A: Allocator + Copy>(
    ledger: &mut Ledger<A>,
    worker: u32,
    act: ActId,
) -> Result<OpId, EndFault> {
    match ledger.end_own(worker, act) {
        Ok(activation) => Ok(activation.op),
        Err(fault) => Err(fault),
    }
}

/// The answer to a worker that ends an activation as its own, and how many are live then.
type EndedOwn = (Result<OpId, EndFault>, usize);

// A worker, the number that it ends, and the answer.
const ENDED_OWN: &[(u32, ActId, EndedOwn)] = &[
    (11, ActId(0), (Err(EndFault::NotYours), 3)),
    (10, ActId(3), (Err(EndFault::Stale), 3)),
    (10, ActId(0), (Ok(OpId(5)), 2)),
    (10, ActId(0), (Err(EndFault::Stale), 2)),
];

fn check_ended_own(rt: &impl Abort, ledger: &mut Ledger, rows: &[(u32, ActId, EndedOwn)]) {
    for (worker, act, want) in rows {
        let answer = ended_own(ledger, *worker, *act);
        assert_eq!(rt; (answer, ledger.live().len()), *want);
    }
}

#[test]
fn only_its_own_worker_ends_it(rt: HostRuntime) {
    let mut ledger = three_live(&rt, rt.alloc());
    check_ended_own(&rt, &mut ledger, ENDED_OWN);
}

const LOW: Activation = Activation {
    act: ActId(2),
    worker: 4,
    op: OpId(1),
};

const HIGH: Activation = Activation {
    act: ActId(4294967299),
    worker: 5,
    op: OpId(0),
};

/// What a ledger that holds what others began answers: what is found of the high number, the number of what it begins itself, the next one,
/// and how many it began.
type Held = (Option<Activation>, ActId, u64, u32);

const HELD: Held = (Some(HIGH), ActId(4294967300), 4294967301, 1);

fn held<A: Allocator + Copy>(
    rt: &impl Abort,
    alloc: A,
    room: u32,
    live: &[Activation],
    next: u64,
) -> Result<Held, HoldFault> {
    assert!(rt; live.len() < room as usize);
    assert!(rt; next < 4294967400);
    let mut ledger = Ledger::holding(alloc, room, live, next)?;
    let found = ledger.find(HIGH.act);
    let act = ledger.begin(7, OpId(0));
    let answers = (found, act, ledger.next(), ledger.begun());
    drop(ledger);
    Ok(answers)
}

#[test]
fn numbers_go_on_behind_those_of_others(rt: HostRuntime) {
    assert_eq!(rt;
        held(&rt, rt.alloc(), 3, &[LOW, HIGH], 4294967300),
        Ok(HELD)
    );
}

// Counts the requests of such a ledger that are refused, each of which it must tell, until it gives all answers.
fn held_refusals(rt: &impl Abort, heap: Global) -> Result<u64, u64> {
    count_refusals(
        heap,
        HoldFault::OutOfMemory,
        |refusing: &Refusing<Global>| {
            Ok(held(rt, refusing, 3, &[LOW, HIGH], 4294967300)? == HELD)
        },
    )
}

#[test]
fn holding_wants_memory_once(rt: HostRuntime) {
    assert_eq!(rt; held_refusals(&rt, rt.alloc()), Ok(1));
}

// The room, what was begun, the next number, and what is wrong.
const REFUSED: &[(u32, &[Activation], u64, HoldFault)] = &[
    (1, &[LOW, HIGH], 4294967300, HoldFault::TooMany),
    (2, &[HIGH, LOW], 4294967300, HoldFault::NotAscending(1)),
    (2, &[LOW, LOW], 4294967300, HoldFault::NotAscending(1)),
    (2, &[LOW, HIGH], 4294967299, HoldFault::NotGiven(1)),
    (2, &[LOW, HIGH], 2, HoldFault::NotGiven(0)),
];

fn check_refused(rt: &impl Abort, heap: Global, rows: &[(u32, &[Activation], u64, HoldFault)]) {
    for (room, live, next, want) in rows {
        match Ledger::holding(heap, *room, *live, *next) {
            Ok(ledger) => {
                drop(ledger);
                assert!(rt; false);
            }
            Err(fault) => assert_eq!(rt; fault, *want),
        }
    }
}

#[test]
fn what_a_ledger_cannot_hold_is_named(rt: HostRuntime) {
    check_refused(&rt, rt.alloc(), REFUSED);
}
