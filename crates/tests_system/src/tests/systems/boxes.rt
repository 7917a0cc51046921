//! Devices in boxes.

use path_model::Verb;
use path_shelf::{Cell, Device, Queue, Tally};
use std::alloc::Global;
use std::process::Abort;
use std::sync::Arc;
use std::sync::atomic::AtomicU32;
use test_support::{Counted, FailingTally};

/// A device of any kind.
pub(crate) type AnyDevice = Box<dyn Device + Send>;

pub(crate) fn cell(rt: &impl Abort, alloc: Global, number: u64) -> AnyDevice {
    Box::new(alloc, Cell::new(number)).expect(rt, "enough memory")
}

pub(crate) fn tally(rt: &impl Abort, alloc: Global, total: u64) -> AnyDevice {
    Box::new(alloc, Tally::new(total)).expect(rt, "enough memory")
}

// Puts these numbers into the device.
fn fill<D: Device>(rt: &impl Abort, device: &mut D, numbers: &[u64]) {
    for number in numbers {
        assert!(rt; device.act(Verb::Put(*number)).is_ok());
    }
}

/// A queue of this capacity, which contains these numbers.
pub(crate) fn queue(rt: &impl Abort, alloc: Global, places: u32, numbers: &[u64]) -> AnyDevice {
    assert!(rt; 1 <= places && places <= 1024);
    let mut queue = Queue::new(alloc, places).expect(rt, "enough memory");
    fill(rt, &mut queue, numbers);
    Box::new(alloc, queue).expect(rt, "enough memory")
}

/// A tally that fails at the use of this number, and has failed this often before.
pub(crate) fn failing_tally(
    rt: &impl Abort,
    alloc: Global,
    total: u64,
    fails_at: u64,
    failures: u64,
) -> AnyDevice {
    Box::new(alloc, FailingTally::new(total, fails_at, failures)).expect(rt, "enough memory")
}

/// A cell that counts its drops.
pub(crate) fn counted(
    rt: &impl Abort,
    alloc: Global,
    number: u64,
    drops: &Arc<AtomicU32>,
) -> AnyDevice {
    let drops = drops.clone().expect(rt, "clones are few");
    Box::new(alloc, Counted::new(number, drops)).expect(rt, "enough memory")
}

/// A counter at 0.
pub(crate) fn counter(rt: &impl Abort, alloc: Global) -> Arc<AtomicU32> {
    Arc::new(alloc, AtomicU32::new(0)).expect(rt, "enough memory")
}
