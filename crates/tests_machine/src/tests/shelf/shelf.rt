//! Shelves.

ghost use Rattle.std.specs.Prelude.{◌≡◌, length};

use crate::tests::shelf::remembering::Remembering;
use path_decl::Decl;
use path_model::{Law, ResId, Verb};
use path_read::read;
use path_shelf::{ActFault, Cell, Device, Queue, Shelf, ShelfFault, Tally};
use std::alloc::Global;
use std::process::Abort;
use std::sync::Arc;
use std::sync::atomic::{AtomicU32, Ordering};
use test_support::{Counted, FailingTally};

/// Two resources, both cells.
const TWO: &[u8] = b"resource r cell operation a end resource t cell operation b end";

/// A device of any kind.
type AnyDevice = Box<dyn Device + Send>;

const FIRST: ResId = ResId(0);

const SECOND: ResId = ResId(1);

fn declared(rt: &impl Abort, alloc: Global, text: &[u8]) -> Decl {
    read(alloc, text).expect(rt, "it is a declaration")
}

fn two(rt: &impl Abort, alloc: Global) -> Decl {
    declared(rt, alloc, TWO)
}

fn cell(rt: &impl Abort, alloc: Global, number: u64) -> AnyDevice {
    Box::new(alloc, Cell::new(number)).expect(rt, "enough memory")
}

fn tally(rt: &impl Abort, alloc: Global, total: u64) -> AnyDevice {
    Box::new(alloc, Tally::new(total)).expect(rt, "enough memory")
}

fn queue(rt: &impl Abort, alloc: Global) -> AnyDevice {
    let queue = Queue::new(alloc, 1).expect(rt, "enough memory");
    Box::new(alloc, queue).expect(rt, "enough memory")
}

fn remembering(rt: &impl Abort, alloc: Global, number: u64) -> AnyDevice {
    let cell = Remembering::new(alloc, number, 1).expect(rt, "enough memory");
    Box::new(alloc, cell).expect(rt, "enough memory")
}

fn failing_tally(rt: &impl Abort, alloc: Global) -> AnyDevice {
    Box::new(alloc, FailingTally::new(0, 0, 0)).expect(rt, "enough memory")
}

// A cell that counts its drops.
fn counted(rt: &impl Abort, alloc: Global, number: u64, drops: &Arc<AtomicU32>) -> AnyDevice {
    let drops = drops.clone().expect(rt, "clones are few");
    Box::new(alloc, Counted::new(number, drops)).expect(rt, "enough memory")
}

// Two devices, in order.
fn both<D: Device>(rt: &impl Abort, alloc: Global, first: D, second: D) -> Vec<D> {
    let mut devices = Vec::new(alloc);
    assert!(rt; devices.push(first).is_ok());
    assert!(rt; devices.push(second).is_ok());
    devices
}

// A shelf of two devices.
fn opened<D: Device>(rt: &impl Abort, devices: Vec<D>, decl: &Decl) -> Shelf<D>
    ensures { length result ≡ 2 }
{
    assert_eq!(rt; devices.len(), 2);
    match Shelf::open(devices, decl) {
        Ok(shelf) => shelf,
        Err(_) => panic!(rt; "it was refused"),
    }
}

// Checks that the devices contain these numbers, in order.
fn show<D: Device>(rt: &impl Abort, devices: &[D], numbers: &[Option<u64>]) {
    assert!(rt; devices.len() == numbers.len());
    for (device, number) in devices.iter().zip(numbers) {
        assert!(rt; device.at(0) == *number);
    }
}

// Checks that the devices were refused for this and came back in order.
fn come_back<D: Device>(
    rt: &impl Abort,
    answer: &Result<Shelf<D>, (ShelfFault, Vec<D>)>,
    want: ShelfFault,
    numbers: &[Option<u64>],
) {
    match answer {
        Ok(_) => panic!(rt; "they were taken"),
        Err((fault, back)) => {
            assert_eq!(rt; *fault, want);
            show(rt, back, numbers);
        }
    }
}

// Checks that the devices are refused for this and come back in order, each with its number.
fn refused<D: Device>(
    rt: &impl Abort,
    devices: Vec<D>,
    decl: &Decl,
    want: ShelfFault,
    numbers: &[Option<u64>],
) {
    let answer = Shelf::open(devices, decl);
    come_back(rt, &answer, want, numbers);
    drop(answer);
}

// `count` cells that contain 0, 1 and so on.
fn cells(rt: &impl Abort, heap: Global, count: u64) -> Vec<AnyDevice> {
    let mut cells = Vec::new(heap);
    for number in 0..count {
        assert!(rt; cells.push(cell(rt, heap, number)).is_ok());
    }
    cells
}

#[test]
fn one_device_for_each_resource(rt: HostRuntime) {
    let decl = two(&rt, rt.alloc());
    let numbers = [Some(0), Some(1), Some(2)];
    for count in [0, 1, 3] {
        let devices = cells(&rt, rt.alloc(), count as u64);
        let fault = ShelfFault::WrongCount;
        refused(&rt, devices, &decl, fault, &numbers[..count]);
    }
    drop(decl);
}

#[test]
fn second_of_another_law(rt: HostRuntime) {
    let cell = cell(&rt, rt.alloc(), 4);
    let devices = both(&rt, rt.alloc(), cell, queue(&rt, rt.alloc()));
    let decl = two(&rt, rt.alloc());
    let fault = ShelfFault::WrongDevice(SECOND);
    refused(&rt, devices, &decl, fault, &[Some(4), None]);
    drop(decl);
}

#[test]
fn first_of_another_law(rt: HostRuntime) {
    let tally = tally(&rt, rt.alloc(), 5);
    let devices = both(&rt, rt.alloc(), tally, queue(&rt, rt.alloc()));
    let decl = two(&rt, rt.alloc());
    let fault = ShelfFault::WrongDevice(FIRST);
    refused(&rt, devices, &decl, fault, &[Some(5), None]);
    drop(decl);
}

// The answers to one use of each device, what they then contain, and the answers to two more uses of the second.
fn answers<D: Device>(
    shelf: &mut Shelf<D>,
) -> (
    [Result<u64, ActFault>; 2],
    [Option<u64>; 3],
    [Result<u64, ActFault>; 2],
)
    requires { length shelf.old ≡ 2 }
    ensures { length shelf.new ≡ 2 }
{
    let first = [
        shelf.act(SECOND, Verb::Put(7)),
        shelf.act(FIRST, Verb::Take),
    ];
    let shown = [shelf.at(FIRST, 0), shelf.at(SECOND, 0), shelf.at(SECOND, 1)];
    let later = [
        shelf.act(SECOND, Verb::Put(8)),
        shelf.act(SECOND, Verb::Look),
    ];
    (first, shown, later)
}

// Checks that a device acts and the other stays as it was.
fn acts<D: Device>(rt: &impl Abort, devices: Vec<D>, decl: &Decl) {
    let mut shelf = opened(rt, devices, decl);
    let answers = answers(&mut shelf);
    let failures = [shelf.failures(FIRST), shelf.failures(SECOND)];
    let law = shelf.law(SECOND);
    drop(shelf);
    let first = [Ok(2), Err(ActFault::NotOffered)];
    let later = [Err(ActFault::Failed), Ok(7)];
    assert_eq!(rt; answers, (first, [Some(1), Some(7), None], later));
    assert_eq!(rt; (failures, law), ([0, 1], Law::Cell));
}

#[test]
fn one_acts_and_the_other_stays(rt: HostRuntime) {
    let cell = cell(&rt, rt.alloc(), 1);
    let devices = both(&rt, rt.alloc(), cell, remembering(&rt, rt.alloc(), 2));
    let decl = two(&rt, rt.alloc());
    acts(&rt, devices, &decl);
    drop(decl);
}

// Checks that a device of this law came back.
fn is_back<D: Device>(rt: &impl Abort, answer: &Result<(), D>, law: Law) {
    match answer {
        Ok(()) => panic!(rt; "it was taken"),
        Err(back) => assert_eq!(rt; back.law(), law),
    }
}

// Checks that another cell takes the first place, and that a tally doesn't.
fn replaces<D: Device>(rt: &impl Abort, shelf: &mut Shelf<D>, cell: D, tally: D)
    requires { length shelf.old ≡ 2 }
{
    let answer = shelf.replace(FIRST, tally);
    is_back(rt, &answer, Law::Tally);
    drop(answer);
    let before = shelf.at(FIRST, 0);
    let is_replaced = shelf.replace(FIRST, cell).is_ok();
    let after = [before, shelf.at(FIRST, 0), shelf.at(SECOND, 0)];
    assert_eq!(rt; (is_replaced, after), (true, [Some(1), Some(9), Some(2)]));
}

// Checks what a shelf of these counts when a device is replaced.
fn counts_drops<D: Device>(
    rt: &impl Abort,
    devices: Vec<D>,
    decl: &Decl,
    cell: D,
    tally: D,
    drops: &AtomicU32,
) {
    let mut shelf = opened(rt, devices, decl);
    assert_eq!(rt; drops.load(Ordering::SeqCst), 0);
    replaces(rt, &mut shelf, cell, tally);
    assert_eq!(rt; drops.load(Ordering::SeqCst), 1);
    drop(shelf);
}

#[test]
fn each_device_is_dropped_once(rt: HostRuntime) {
    let Ok(drops) = Arc::new(rt.alloc(), AtomicU32::new(0)) else {
        panic!(rt; "out of memory");
    };
    let first = counted(&rt, rt.alloc(), 1, &drops);
    let second = counted(&rt, rt.alloc(), 2, &drops);
    let devices = both(&rt, rt.alloc(), first, second);
    let cell = cell(&rt, rt.alloc(), 9);
    let tally = failing_tally(&rt, rt.alloc());
    let decl = two(&rt, rt.alloc());
    counts_drops(&rt, devices, &decl, cell, tally, &drops);
    drop(decl);
    assert_eq!(rt; drops.load(Ordering::SeqCst), 2);
}
