//! Desks that are settled, and those that aren't.

ghost use Rattle.std.specs.Prelude.{◌≡◌};

use crate::tests::workers::own::{FIRST, ROOM, Row, SECOND, SLOT, makes, makes_all, open_system};
use path_model::{ActId, Attempt, PathId, Reply, Verb};
use path_shelf::Cell;
use path_system::System;
use path_workers::{Desk, DeskName, Pass, Receipt, SettleFault, Steps};
use std::alloc::Global;
use std::marker::Brand;
use std::process::Abort;
use std::sync::Wait;
use std::sync::ledger::{Blank, Ledger};

const DEPOSIT: &[Row] = &[
    (FIRST, Some(0), Reply::Started(ActId(0))),
    (
        Attempt::Apply(ActId(0), Verb::Put(7)),
        Some(1),
        Reply::Used(0),
    ),
    (Attempt::Finish(ActId(0)), Some(2), Reply::Finished),
];

const REMOVE: &[Row] = &[
    (SECOND, Some(3), Reply::Started(ActId(1))),
    (Attempt::Finish(ActId(1)), Some(4), Reply::Finished),
];

/// The receipts of worker 2 in the end.
const REMOVED: [Receipt; 2] = [
    Receipt {
        place: 3,
        attempt: SECOND,
        reply: Reply::Started(ActId(1)),
    },
    Receipt {
        place: 4,
        attempt: Attempt::Finish(ActId(1)),
        reply: Reply::Finished,
    },
];

/// Which passes of the two a desk is settled with.
#[derive(Clone, Copy)]
enum Given {
    Both,
    Turned,
    FirstAlone,
}

/// How many lines the journal has, and how many receipts each pass has; or why the desk isn't settled.
type Outcome = Result<(usize, usize, usize), SettleFault>;

// These passes, in order.
fn row_of<L: Ledger, const N: usize>(
    rt: &impl Abort,
    alloc: Global,
    passes: [Pass<L>; N],
) -> Vec<Pass<L>> {
    Vec::from_array(alloc, passes).expect(rt, "memory is ample")
}

// The passes that are given, in order.
fn chosen<L: Ledger>(
    rt: &impl Abort,
    alloc: Global,
    one: Pass<L>,
    two: Pass<L>,
    given: Given,
) -> Vec<Pass<L>> {
    match given {
        Given::Both => row_of(rt, alloc, [one, two]),
        Given::Turned => row_of(rt, alloc, [two, one]),
        Given::FirstAlone => row_of(rt, alloc, [one]),
    }
}

fn receipts<L: Ledger>(pass: Option<&Pass<L>>) -> usize {
    match pass {
        Some(pass) => pass.receipts().len(),
        None => 0,
    }
}

// The outcome of settling the desk with these passes.
fn outcome<L: DeskName, M: Ledger, S: Steps>(desk: Desk<L, S>, passes: Vec<Pass<M>>) -> Outcome {
    match desk.settle(passes) {
        Ok(settled) => Ok((
            settled.system.journal().len(),
            receipts(settled.passes.get(0)),
            receipts(settled.passes.get(1)),
        )),
        Err((fault, _system)) => Err(fault),
    }
}

// Checks that the pass is worker 2's and has the receipts of the removal.
fn has_removed<L: Ledger>(rt: &impl Abort, pass: &Pass<L>) {
    assert!(rt; pass.worker() == 2);
    assert!(rt; pass.receipts() == REMOVED.as_slice());
}

// A deposit by worker 1 and its removal by worker 2, settled with the passes that are given.
fn exchanged<L: DeskName, S: Steps, R: Wait + Abort>(
    rt: &R,
    alloc: Global,
    system: S,
    blank: Blank,
    given: Given,
) -> Outcome
    requires name { blank.name ≡ L.name }
    requires parts { (blank.parts ≡ L.parts) × (blank.parts ≡ 18446744073709551615) }
    requires opened { S.account system ≡ L.opened }
{
    let desk = Desk::<L, S>::open(system, blank);
    let mut one = desk.pass(alloc, 1);
    let mut two = desk.pass(alloc, 2);
    makes_all(rt, &desk, &mut one, DEPOSIT);
    makes_all(rt, &desk, &mut two, REMOVE);
    has_removed(rt, &two);
    outcome(desk, chosen(rt, alloc, one, two, given))
}

fn slot_settled<R: Wait + Abort>(rt: &R, alloc: Global, given: Given) -> Outcome {
    let system = open_system(rt, alloc, SLOT, ROOM, Cell::new(0));
    exchanged::<Brand, System<Cell>, R>(rt, alloc, system, Blank::new(u64::MAX), given)
}

// Also finds a desk that makes another attempt than the one it was given, which no clause can see.
#[test]
fn settle(rt: HostRuntime) {
    let outcome = slot_settled(&rt, rt.alloc(), Given::Both);
    assert!(rt; outcome == Ok((5, 3, 2)));
}

#[test]
fn passes_in_any_order(rt: HostRuntime) {
    let outcome = slot_settled(&rt, rt.alloc(), Given::Turned);
    assert!(rt; outcome == Ok((5, 2, 3)));
}

#[test]
fn missing_pass(rt: HostRuntime) {
    let outcome = slot_settled(&rt, rt.alloc(), Given::FirstAlone);
    let fault = SettleFault::MissingPass {
        lines: 5,
        receipts: 3,
    };
    assert!(rt; outcome == Err(fault));
}

// How settling a desk ends with the pass of a desk over another system.
fn crossed<L: DeskName, M: DeskName, S: Steps, R: Wait + Abort>(
    rt: &R,
    alloc: Global,
    here: S,
    blank_here: Blank,
    there: S,
    blank_there: Blank,
) -> Outcome
    requires name { (blank_here.name ≡ L.name) × (blank_there.name ≡ M.name) }
    requires parts { (blank_here.parts ≡ L.parts) × (blank_here.parts ≡ 18446744073709551615) }
    requires parts_there { (blank_there.parts ≡ M.parts) × (blank_there.parts ≡ 18446744073709551615) }
    requires opened { (S.account here ≡ L.opened) × (S.account there ≡ M.opened) }
{
    let desk = Desk::<L, S>::open(here, blank_here);
    let other = Desk::<M, S>::open(there, blank_there);
    let mut own = desk.pass(alloc, 1);
    let mut foreign = other.pass(alloc, 1);
    makes(
        rt,
        &desk,
        &mut own,
        (FIRST, Some(0), Reply::Started(ActId(0))),
    );
    makes(
        rt,
        &other,
        &mut foreign,
        (SECOND, Some(0), Reply::Blocked(PathId(0))),
    );
    outcome(desk, row_of(rt, alloc, [foreign]))
}

fn slots_crossed<R: Wait + Abort>(rt: &R, alloc: Global) -> Outcome {
    let here = open_system(rt, alloc, SLOT, ROOM, Cell::new(0));
    let there = open_system(rt, alloc, SLOT, ROOM, Cell::new(0));
    let blank_here = Blank::new(u64::MAX);
    let blank_there = Blank::new(u64::MAX);
    crossed::<Brand, Brand, System<Cell>, R>(rt, alloc, here, blank_here, there, blank_there)
}

#[test]
fn foreign_pass(rt: HostRuntime) {
    let outcome = slots_crossed(&rt, rt.alloc());
    assert!(rt; outcome == Err(SettleFault::Mismatch { place: 0 }));
}

// A desk with one pass, which makes the attempts of these rows.
fn alone<L: DeskName, S: Steps, R: Wait + Abort>(
    rt: &R,
    alloc: Global,
    system: S,
    blank: Blank,
    rows: &[Row],
) -> Outcome
    requires name { blank.name ≡ L.name }
    requires parts { (blank.parts ≡ L.parts) × (blank.parts ≡ 18446744073709551615) }
    requires opened { S.account system ≡ L.opened }
{
    let desk = Desk::<L, S>::open(system, blank);
    let mut pass = desk.pass(alloc, 1);
    makes_all(rt, &desk, &mut pass, rows);
    outcome(desk, row_of(rt, alloc, [pass]))
}

const ROOM_OF_TWO: &[Row] = &[
    (FIRST, Some(0), Reply::Started(ActId(0))),
    (Attempt::Apply(ActId(0), Verb::Put(7)), None, Reply::NoRoom),
    (Attempt::Finish(ActId(0)), Some(1), Reply::Finished),
];

fn room_of_two<R: Wait + Abort>(rt: &R, alloc: Global) -> Outcome {
    let system = open_system(rt, alloc, SLOT, 2, Cell::new(0));
    alone::<Brand, System<Cell>, R>(rt, alloc, system, Blank::new(u64::MAX), ROOM_OF_TWO)
}

#[test]
fn receipts_and_room(rt: HostRuntime) {
    let outcome = room_of_two(&rt, rt.alloc());
    assert!(rt; outcome == Ok((2, 2, 0)));
}

// The desk is opened once a deposit is in the journal already.
fn deposited_before<R: Wait + Abort>(rt: &R, alloc: Global) -> Outcome {
    let mut system = open_system(rt, alloc, SLOT, ROOM, Cell::new(0));
    for (attempt, _place, reply) in DEPOSIT {
        assert!(rt; system.step(1, *attempt) == *reply);
    }
    alone::<Brand, System<Cell>, R>(rt, alloc, system, Blank::new(u64::MAX), REMOVE)
}

#[test]
fn lines_before_the_desk(rt: HostRuntime) {
    let outcome = deposited_before(&rt, rt.alloc());
    assert!(rt; outcome == Ok((5, 2, 0)));
}

fn check_spelling<R: Abort>(rt: &R, alloc: Global, fault: SettleFault, text: &str) {
    let told = format!(in alloc; "{fault}").expect(rt, "memory is ample");
    assert!(rt; told.as_str() == text);
}

#[test]
fn fault_texts(rt: HostRuntime) {
    let missing = SettleFault::MissingPass {
        lines: 5,
        receipts: 3,
    };
    check_spelling(&rt, rt.alloc(), missing, "5 lines and 3 receipts");
    check_spelling(
        &rt,
        rt.alloc(),
        SettleFault::Mismatch { place: 7 },
        "line 7 is not one receipt",
    );
}
