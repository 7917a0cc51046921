//! Systems over a text and its devices, and attempts that get the wanted replies.

use path_decl::{Decl, counts};
use path_lex::DeclFault;
use path_model::{Attempt, OutOfMemory, Reply, ResId};
use path_read::read;
use path_shelf::Device;
use path_system::{OpenFault, System};
use std::alloc::{Allocator, Global};
use std::process::Abort;

/// An attempt of a worker, and the reply to it.
pub(crate) type Step = (u32, Attempt, Reply);

/// Attempts with their replies, and the contents of the only resource afterwards.
pub(crate) type Stage<'a> = (&'a [Step], &'a [u64]);

/// One resource, in which every deposit is followed by a remove.
pub(crate) const SLOT: &[u8] =
    b"resource slot cell operation deposit, remove path deposit ; remove end end";

/// The resource of a declaration that has only one.
pub(crate) const ONLY: ResId = ResId(0);

/// The number of lines that the program has room for by default.
pub(crate) const ROOM: u32 = 4096;

/// The declaration in a text.
pub(crate) fn declared<A: Allocator + Copy>(
    rt: &impl Abort,
    alloc: A,
    text: &[u8],
) -> Result<Decl<A>, OutOfMemory> {
    match read(alloc, text) {
        Ok(decl) => Ok(decl),
        Err(fault) => {
            assert_eq!(rt; fault, DeclFault::OutOfMemory);
            Err(OutOfMemory)
        }
    }
}

/// These devices, in order.
pub(crate) fn row_of<D: Device, A: Allocator + Copy, const N: usize>(
    rt: &impl Abort,
    alloc: A,
    devices: [D; N],
) -> Vec<D, A> {
    Vec::from_array(alloc, devices).expect(rt, "enough memory")
}

/// This device alone.
pub(crate) fn alone<D: Device>(rt: &impl Abort, alloc: Global, device: D) -> Vec<D> {
    let mut devices = Vec::new(alloc);
    assert!(rt; devices.push(device).is_ok());
    devices
}

/// A system, or why there is none, with the devices that come back.
pub(crate) type Opening<D, A> = Result<System<D, A>, (OpenFault, Vec<D, A>)>;

/// Opens a system.
pub(crate) fn tried<D: Device, A: Allocator + Copy>(
    alloc: A,
    decl: Decl<A>,
    devices: Vec<D, A>,
    room: u32,
) -> Opening<D, A> {
    System::open(alloc, decl, devices, room)
}

/// A system of these devices.
pub(crate) fn opened<D: Device, A: Allocator + Copy>(
    rt: &impl Abort,
    alloc: A,
    text: &[u8],
    devices: Vec<D, A>,
) -> System<D, A> {
    let decl = declared(rt, alloc, text).expect(rt, "enough memory");
    match tried(alloc, decl, devices, ROOM) {
        Ok(system) => system,
        Err(_) => panic!(rt; "it was refused"),
    }
}

/// Checks that each attempt gets its reply.
pub(crate) fn steps<D: Device, A: Allocator + Copy>(
    rt: &impl Abort,
    system: &mut System<D, A>,
    rows: &[Step],
) {
    for (worker, attempt, reply) in rows {
        assert_eq!(rt; system.step(*worker, *attempt), *reply);
    }
}

/// How many lines the journal has.
pub(crate) fn lines<D: Device, A: Allocator + Copy>(system: &System<D, A>) -> usize {
    system.journal().len()
}

/// The number at a place of the only resource.
pub(crate) fn held<D: Device, A: Allocator + Copy>(
    rt: &impl Abort,
    system: &System<D, A>,
    place: u32,
) -> Option<u64> {
    assert_eq!(rt; counts(system.decl()).resources, 1);
    system.contents(ONLY, place)
}

/// Checks that the only resource contains these numbers and no more.
pub(crate) fn contains<D: Device, A: Allocator + Copy>(
    rt: &impl Abort,
    system: &System<D, A>,
    numbers: &[u64],
) {
    let mut place = 0u32;
    for number in numbers {
        assert!(rt; held(rt, system, place) == Some(*number));
        place = place.saturating_add(1);
    }
    assert!(rt; held(rt, system, place).is_none() && held(rt, system, u32::MAX).is_none());
}

// Checks the replies and the contents of the system, stage by stage.
fn pass<D: Device>(rt: &impl Abort, system: &mut System<D>, stages: &[Stage<'_>]) {
    for (rows, numbers) in stages {
        steps(rt, system, rows);
        contains(rt, system, numbers);
    }
}

/// Checks the replies and the contents of a system of the text over this device, stage by stage.
pub(crate) fn answers<D: Device>(
    rt: &impl Abort,
    alloc: Global,
    text: &[u8],
    device: D,
    stages: &[Stage<'_>],
) {
    let mut system = opened(rt, alloc, text, alone(rt, alloc, device));
    pass(rt, &mut system, stages);
    drop(system);
}
