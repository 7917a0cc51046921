//! Each request for memory refused in turn.

ghost use Rattle.std.specs.Prelude.{◌≡◌};

use crate::tests::workers::own::{FIRST, ROOM, SECOND, SLOT, open_system};
use path_model::{ActId, Attempt, OutOfMemory, Reply, Verb};
use path_shelf::Cell;
use path_system::System;
use path_workers::{Answer, Desk, DeskName, Pass, SettleFault, Steps};
use std::alloc::{Allocator, Global};
use std::marker::Brand;
use std::process::Abort;
use std::sync::Wait;
use std::sync::ledger::Blank;
use test_support::Refusing;

// Makes an attempt that gets this reply. If allocation fails, it isn't a finish, the pass stays as it was, and the same attempt gets the
// reply when it is made again.
fn makes<L: DeskName, S: Steps, A: Allocator + Copy, R: Wait + Abort>(
    rt: &R,
    desk: &Desk<L, S>,
    pass: &mut Pass<L, A>,
    attempt: Attempt,
    reply: Reply,
) {
    let receipts = pass.receipts().len();
    let answer = Answer {
        place: Some(receipts as u64),
        reply,
    };
    match desk.attempt(rt, pass, attempt) {
        Ok(first) => assert!(rt; first == answer),
        Err(OutOfMemory) => {
            assert!(rt; reply != Reply::Finished && pass.receipts().len() == receipts);
            assert!(rt; desk.attempt(rt, pass, attempt) == Ok(answer));
        }
    }
}

// This many rounds of a deposit and its removal.
fn rounds<L: DeskName, S: Steps, A: Allocator + Copy, R: Wait + Abort>(
    rt: &R,
    desk: &Desk<L, S>,
    pass: &mut Pass<L, A>,
    number: u32,
) {
    for round in 0..number {
        let (deposit, remove) = (ActId(2 * u64::from(round)), ActId(2 * u64::from(round) + 1));
        let held = if round == 0 { 0 } else { 7 };
        makes(rt, desk, pass, FIRST, Reply::Started(deposit));
        makes(
            rt,
            desk,
            pass,
            Attempt::Apply(deposit, Verb::Put(7)),
            Reply::Used(held),
        );
        makes(rt, desk, pass, Attempt::Finish(deposit), Reply::Finished);
        makes(rt, desk, pass, SECOND, Reply::Started(remove));
        makes(rt, desk, pass, Attempt::Finish(remove), Reply::Finished);
    }
}

// How many lines a desk has when it is settled with these passes, or why it isn't settled.
fn settled_lines<L: DeskName, S: Steps, A: Allocator + Copy>(
    desk: Desk<L, S>,
    passes: Vec<Pass<L, A>, A>,
) -> Result<usize, SettleFault> {
    match desk.settle(passes) {
        Ok(settled) => Ok(settled.system.journal().len()),
        Err((fault, _system)) => Err(fault),
    }
}

const ROUNDS: u32 = 8;

// How many lines a desk has when it is settled with its only pass, which allocates from `alloc`, or why it isn't settled.
fn lines<L: DeskName, S: Steps, A: Allocator + Copy, R: Wait + Abort>(
    rt: &R,
    alloc: A,
    system: S,
    blank: Blank,
) -> Result<Result<usize, SettleFault>, OutOfMemory>
    requires name { blank.name ≡ L.name }
    requires parts { (blank.parts ≡ L.parts) × (blank.parts ≡ 18446744073709551615) }
    requires opened { S.account system ≡ L.opened }
{
    let mut passes = Vec::with_capacity(alloc, 1)?;
    let desk = Desk::<L, S>::open(system, blank);
    let mut pass = desk.pass(alloc, 1);
    rounds(rt, &desk, &mut pass, ROUNDS);
    passes.push_reserved(pass);
    Ok(settled_lines(desk, passes))
}

// Whether the request of this number was made, and so refused.
fn refuses<R: Wait + Abort>(rt: &R, heap: Global, number: u64) -> bool {
    let refusing = Refusing::new(heap, number);
    let system = open_system(rt, heap, SLOT, ROOM, Cell::new(0));
    let lines = lines::<Brand, System<Cell>, &Refusing<Global>, R>(
        rt,
        &refusing,
        system,
        Blank::new(u64::MAX),
    );
    let is_first = number == 1;
    let want = if is_first {
        Err(OutOfMemory)
    } else {
        Ok(Ok(5 * ROUNDS as usize))
    };
    assert!(rt; lines == want, "{lines:?} at request {number}");
    refusing.has_refused()
}

#[test]
fn each_request_is_refused(rt: HostRuntime) {
    for number in 1..1000u64 {
        if !refuses(&rt, rt.alloc(), number) {
            assert!(rt; number > 4);
            return;
        }
    }
    panic!(rt; "never passed");
}
