//! Systems that can't be opened: the boxes come back in order, with the same contents.

use crate::tests::systems::boxes::{AnyDevice, cell, queue, tally};
use crate::tests::systems::stepping::{Opening, ROOM, SLOT, declared, lines, row_of, tried};
use path_decl::Decl;
use path_model::{MOST_LINES, OutOfMemory, ResId};
use path_shelf::Device;
use path_system::OpenFault;
use std::alloc::{Allocator, Global};
use std::process::Abort;
use test_support::{Refusing, count_refusals};

/// A cell, a tally and a queue.
const THREE: &[u8] =
    b"resource r cell operation a end resource s tally operation b end resource t queue 3 operation c end";

// Checks that the device contains these numbers and no more.
fn shows<D: Device>(rt: &impl Abort, device: &D, numbers: &[u64]) {
    let mut place = 0u32;
    for number in numbers {
        assert!(rt; device.at(place) == Some(*number));
        place = place.saturating_add(1);
    }
    assert!(rt; device.at(place).is_none());
}

// Checks that the devices contain these numbers, one device after the other.
fn show<D: Device>(rt: &impl Abort, devices: &[D], contents: &[&[u64]]) {
    assert!(rt; devices.len() == contents.len());
    for (device, numbers) in devices.iter().zip(contents) {
        shows(rt, device, numbers);
    }
}

// Checks that the devices are refused for this, and come back with these contents.
fn come_back<D: Device, A: Allocator + Copy>(
    rt: &impl Abort,
    answer: &Opening<D, A>,
    want: OpenFault,
    contents: &[&[u64]],
) {
    match answer {
        Ok(_) => panic!(rt; "it was opened"),
        Err((fault, back)) => {
            assert_eq!(rt; *fault, want);
            show(rt, back, contents);
        }
    }
}

// Checks that these devices make no system of the text in this room, and come back.
fn refused<D: Device>(
    rt: &impl Abort,
    heap: Global,
    text: &[u8],
    devices: Vec<D>,
    room: u32,
    want: OpenFault,
    contents: &[&[u64]],
) {
    let decl = declared(rt, heap, text).expect(rt, "enough memory");
    let answer = tried(heap, decl, devices, room);
    come_back(rt, &answer, want, contents);
    drop(answer);
}

// Checks that a cell behind the slot is refused in this room.
fn bad_room(rt: &impl Abort, heap: Global, room: u32) {
    let devices = row_of(rt, heap, [cell(rt, heap, 7)]);
    refused(rt, heap, SLOT, devices, room, OpenFault::BadRoom, &[&[7]]);
}

#[test]
fn bad_rooms(rt: HostRuntime) {
    bad_room(&rt, rt.alloc(), 0);
    bad_room(&rt, rt.alloc(), MOST_LINES + 1);
    bad_room(&rt, rt.alloc(), u32::MAX);
}

// Checks that two tallies behind the slot are refused for this in this room.
fn two_tallies(rt: &impl Abort, heap: Global, room: u32, want: OpenFault) {
    let devices = row_of(rt, heap, [tally(rt, heap, 7), tally(rt, heap, 8)]);
    refused(rt, heap, SLOT, devices, room, want, &[&[7], &[8]]);
}

#[test]
fn wrong_counts(rt: HostRuntime) {
    let none: [AnyDevice; 0] = [];
    let devices = row_of(&rt, rt.alloc(), none);
    refused(
        &rt,
        rt.alloc(),
        SLOT,
        devices,
        ROOM,
        OpenFault::WrongCount,
        &[],
    );
    two_tallies(&rt, rt.alloc(), ROOM, OpenFault::WrongCount);
    // A bad room counts first.
    two_tallies(&rt, rt.alloc(), 0, OpenFault::BadRoom);
}

#[test]
fn another_law(rt: HostRuntime) {
    let devices = row_of(&rt, rt.alloc(), [tally(&rt, rt.alloc(), 7)]);
    let want = OpenFault::WrongDevice(ResId(0));
    refused(&rt, rt.alloc(), SLOT, devices, ROOM, want, &[&[7]]);
}

// Checks three devices; the one of this resource has another law.
fn one_of_another_law<D: Device>(rt: &impl Abort, heap: Global, devices: [D; 3], resource: ResId) {
    let devices = row_of(rt, heap, devices);
    let want = OpenFault::WrongDevice(resource);
    refused(rt, heap, THREE, devices, ROOM, want, &[&[4], &[8], &[5, 6]]);
}

#[test]
fn second_of_another_law(rt: HostRuntime) {
    let heap = rt.alloc();
    let devices = [
        cell(&rt, heap, 4),
        cell(&rt, heap, 8),
        queue(&rt, heap, 3, &[5, 6]),
    ];
    one_of_another_law(&rt, heap, devices, ResId(1));
}

#[test]
fn queue_of_another_capacity(rt: HostRuntime) {
    let heap = rt.alloc();
    let devices = [
        cell(&rt, heap, 4),
        tally(&rt, heap, 8),
        queue(&rt, heap, 2, &[5, 6]),
    ];
    one_of_another_law(&rt, heap, devices, ResId(2));
}

// Whether a system without lines was opened. If memory ran out, checks that the devices came back with these contents.
fn is_open<D: Device, A: Allocator + Copy>(
    rt: &impl Abort,
    answer: &Opening<D, A>,
    contents: &[&[u64]],
) -> Result<bool, OutOfMemory> {
    if let Ok(system) = answer {
        return Ok(lines(system) == 0);
    }
    come_back(rt, answer, OpenFault::OutOfMemory, contents);
    Err(OutOfMemory)
}

// Whether a system of the devices can be opened. If memory runs out, checks that they come back.
fn opens<D: Device, A: Allocator + Copy>(
    rt: &impl Abort,
    alloc: A,
    decl: Decl<A>,
    devices: Vec<D, A>,
    contents: &[&[u64]],
) -> Result<bool, OutOfMemory> {
    let answer = tried(alloc, decl, devices, ROOM);
    let is_open = is_open(rt, &answer, contents);
    drop(answer);
    is_open
}

// Whether a system of three devices can be opened if this allocator gives the memory for it alone.
fn opens_with(
    rt: &impl Abort,
    heap: Global,
    refusing: &Refusing<Global>,
    contents: &[&[u64]],
) -> Result<bool, OutOfMemory> {
    let ample = Refusing::new(heap, 0);
    let decl = declared(rt, &ample, THREE).expect(rt, "enough memory");
    let devices = [
        cell(rt, heap, 4),
        tally(rt, heap, 5),
        queue(rt, heap, 3, &[6, 7]),
    ];
    let devices = row_of(rt, &ample, devices);
    opens(rt, refusing, decl, devices, contents)
}

// Counts the requests of an opening that are refused, each of which hands back devices with these contents.
fn opening_refusals(rt: &impl Abort, heap: Global, contents: &[&[u64]]) -> Result<u64, u64> {
    count_refusals(heap, OutOfMemory, |refusing: &Refusing<Global>| {
        opens_with(rt, heap, refusing, contents)
    })
}

#[test]
fn each_request_of_open_is_refused(rt: HostRuntime) {
    let refusals = opening_refusals(&rt, rt.alloc(), &[&[4], &[5], &[6, 7]]);
    assert!(rt; matches!(refusals, Ok(count) if count >= 5), "{refusals:?}");
}
