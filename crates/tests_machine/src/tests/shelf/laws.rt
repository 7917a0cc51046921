//! How each device serves verbs, and what it then contains.

use crate::tests::shelf::remembering::Remembering;
use path_model::{Law, OutOfMemory, Verb};
use path_shelf::{ActFault, Cell, Device, Queue, Tally};
use std::alloc::{Allocator, Global};
use std::process::Abort;
use test_support::{FailingTally, Refusing, count_refusals};

/// A verb, the answer to it, and the contents afterwards.
type Row<'a> = (Verb, Result<u64, ActFault>, &'a [u64]);

const NOT_OFFERED: Result<u64, ActFault> = Err(ActFault::NotOffered);

// Checks that the device contains these numbers and no more.
fn check_contents<D: Device>(rt: &impl Abort, device: &D, numbers: &[u64]) {
    assert!(rt; numbers.len() < 10);
    for (place, number) in numbers.iter().enumerate() {
        assert!(rt; device.at(place as u32) == Some(*number));
    }
    let end = numbers.len() as u32;
    assert!(rt; device.at(end).is_none() && device.at(u32::MAX).is_none());
}

// Checks that the device answers row by row.
fn check_answers<D: Device>(rt: &impl Abort, device: &mut D, rows: &[Row<'_>]) {
    for (verb, answer, contents) in rows {
        assert_eq!(rt; device.act(*verb), *answer);
        check_contents(rt, device, contents);
    }
}

// Checks that the device has this law and this count of failures, and answers row by row without failing again.
fn check_law<D: Device>(
    rt: &impl Abort,
    device: &mut D,
    law: Law,
    failures: u64,
    rows: &[Row<'_>],
) {
    for row in rows {
        check_answers(rt, device, &[*row]);
        assert_eq!(rt; (device.law(), device.failures()), (law, failures));
    }
}

const CELL: &[Row<'static>] = &[
    (Verb::Look, Ok(3), &[3]),
    (Verb::Put(u64::MAX), Ok(3), &[u64::MAX]),
    (Verb::Take, NOT_OFFERED, &[u64::MAX]),
    (Verb::Add(0), NOT_OFFERED, &[u64::MAX]),
    (Verb::Look, Ok(u64::MAX), &[u64::MAX]),
    (Verb::Put(0), Ok(u64::MAX), &[0]),
];

#[test]
fn cell(rt: HostRuntime) {
    check_law(&rt, &mut Cell::new(3), Law::Cell, 0, CELL);
}

const TALLY: &[Row<'static>] = &[
    (Verb::Look, Ok(3), &[3]),
    (Verb::Add(4), Ok(7), &[7]),
    (Verb::Put(1), NOT_OFFERED, &[7]),
    (Verb::Take, NOT_OFFERED, &[7]),
    (Verb::Add(u64::MAX), Err(ActFault::Overflow), &[7]),
    (Verb::Add(u64::MAX - 7), Ok(u64::MAX), &[u64::MAX]),
];

#[test]
fn tally(rt: HostRuntime) {
    check_law(&rt, &mut Tally::new(3), Law::Tally, 0, TALLY);
}

const FULL_TALLY: &[Row<'static>] = &[
    (Verb::Add(1), Err(ActFault::Overflow), &[u64::MAX]),
    (Verb::Add(0), Ok(u64::MAX), &[u64::MAX]),
    (Verb::Put(5), NOT_OFFERED, &[u64::MAX]),
];

#[test]
fn tally_at_the_end(rt: HostRuntime) {
    check_law(&rt, &mut Tally::new(u64::MAX), Law::Tally, 0, FULL_TALLY);
}

// Checks that an empty queue of this capacity answers row by row.
fn check_queue(rt: &impl Abort, heap: Global, capacity: u32, rows: &[Row<'_>]) {
    assert!(rt; 1 <= capacity && capacity <= 1024);
    let mut queue = Queue::new(heap, capacity).expect(rt, "enough memory");
    check_law(rt, &mut queue, Law::Queue(capacity), 0, rows);
    drop(queue);
}

const ONE_PLACE: &[Row<'static>] = &[
    (Verb::Put(9), Ok(1), &[9]),
    (Verb::Put(9), Err(ActFault::Full), &[9]),
    (Verb::Take, Ok(9), &[]),
    (Verb::Take, Err(ActFault::Empty), &[]),
    (Verb::Look, Err(ActFault::Empty), &[]),
    (Verb::Add(1), NOT_OFFERED, &[]),
];

#[test]
fn queue_of_one(rt: HostRuntime) {
    check_queue(&rt, rt.alloc(), 1, ONE_PLACE);
}

const THREE_PLACES: &[Row<'static>] = &[
    (Verb::Put(4), Ok(1), &[4]),
    (Verb::Put(5), Ok(2), &[4, 5]),
    (Verb::Put(6), Ok(3), &[4, 5, 6]),
    (Verb::Put(7), Err(ActFault::Full), &[4, 5, 6]),
    (Verb::Look, Ok(4), &[4, 5, 6]),
    (Verb::Take, Ok(4), &[5, 6]),
    (Verb::Put(7), Ok(3), &[5, 6, 7]),
    (Verb::Take, Ok(5), &[6, 7]),
    (Verb::Take, Ok(6), &[7]),
];

#[test]
fn first_in_first_out(rt: HostRuntime) {
    check_queue(&rt, rt.alloc(), 3, THREE_PLACES);
}

// Checks that the device takes `count` numbers and no more.
fn fill_to_the_end<D: Device>(rt: &impl Abort, device: &mut D, count: u64) {
    for number in 0..count {
        assert!(rt; device.act(Verb::Put(number)) == Ok(number.saturating_add(1)));
    }
    assert!(rt; device.act(Verb::Put(0)) == Err(ActFault::Full));
}

// Makes a queue of this capacity, and fills it.
fn fill_queue<A: Allocator + Copy>(
    rt: &impl Abort,
    alloc: A,
    capacity: u32,
) -> Result<bool, OutOfMemory> {
    assert!(rt; 1 <= capacity && capacity <= 1024);
    let mut queue = Queue::new(alloc, capacity)?;
    fill_to_the_end(rt, &mut queue, u64::from(capacity));
    drop(queue);
    Ok(true)
}

// Checks that a queue of this capacity makes one request, and says so if that is refused.
fn wants_memory_once(rt: &impl Abort, heap: Global, capacity: u32) {
    let refusals = count_refusals(heap, OutOfMemory, |refusing: &Refusing<Global>| {
        fill_queue(rt, refusing, capacity)
    });
    assert_eq!(rt; refusals, Ok(1));
}

#[test]
fn queue_wants_memory_once(rt: HostRuntime) {
    for capacity in [1, 1024] {
        wants_memory_once(&rt, rt.alloc(), capacity);
    }
}

// Checks a tally that fails at this one of four uses.
fn check_one_failure(rt: &impl Abort, fails_at: u64) {
    let mut tally = FailingTally::new(0, fails_at, 0);
    let mut total = 0u64;
    for number in 1..5u64 {
        let is_failure = number == fails_at;
        total = total.saturating_add(if is_failure { 0 } else { 2 });
        let want = if is_failure {
            Err(ActFault::Failed)
        } else {
            Ok(total)
        };
        check_answers(rt, &mut tally, &[(Verb::Add(2), want, &[total])]);
    }
    assert_eq!(rt; (total, tally.failures()), (6, 1));
}

#[test]
fn tally_fails_at_one_use(rt: HostRuntime) {
    for fails_at in 1..5u64 {
        check_one_failure(&rt, fails_at);
    }
}

const AT_THE_LAST_FAILURE: &[Row<'static>] = &[
    (Verb::Add(u64::MAX), Err(ActFault::Overflow), &[5]),
    (Verb::Look, Ok(5), &[5]),
    (Verb::Add(1), Err(ActFault::Failed), &[5]),
    (Verb::Add(1), Ok(6), &[6]),
];

#[test]
fn failures_stand_at_their_end(rt: HostRuntime) {
    let mut tally = FailingTally::new(5, 2, u64::MAX);
    check_law(&rt, &mut tally, Law::Tally, u64::MAX, AT_THE_LAST_FAILURE);
}

const REMEMBERED: &[Row<'static>] = &[
    (Verb::Put(2), Ok(1), &[2]),
    (Verb::Put(3), Ok(2), &[3]),
    (Verb::Put(4), Err(ActFault::Failed), &[3]),
    (Verb::Take, NOT_OFFERED, &[3]),
    (Verb::Look, Ok(3), &[3]),
];

#[test]
fn remembering(rt: HostRuntime) {
    let mut device = Remembering::new(rt.alloc(), 1, 2).expect(&rt, "enough memory");
    check_answers(&rt, &mut device, REMEMBERED);
    let remembered = (device.failures(), device.history());
    assert_eq!(rt; remembered, (1, [1, 2].as_slice()));
    drop(device);
}
