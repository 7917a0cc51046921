//! A device that goes through a run is dropped once, when the system is closed.

use crate::tests::running::own::{Case, ROOM, SLOT, end_so, ran};
use path_model::OutOfMemory;
use path_run::End;
use path_shelf::Device;
use std::alloc::Global;
use std::process::Abort;
use std::sync::atomic::{AtomicU32, Ordering};
use std::sync::{Arc, Wait};
use std::thread::Threads;
use test_support::Counted;

/// How many lines a run over the device wrote. Checks that the device isn't dropped before the system is closed.
fn closed<D: Device + Send, R: Threads + Wait + Abort + Sync>(
    rt: &R,
    alloc: Global,
    device: D,
    drops: &AtomicU32,
) -> usize {
    let case = Case {
        declaration: SLOT,
        room: ROOM,
        script: b"process p\nenter deposit\nleave\nend\nprocess q\nenter remove\nleave\nend\n",
    };
    let outcome = ran(rt, alloc, case, device);
    assert!(rt; end_so(outcome.ends.as_slice(), &[End::Done, End::Done]));
    assert_eq!(rt; drops.load(Ordering::SeqCst), 0);
    match outcome.system.close() {
        Ok(journal) => journal.len(),
        Err(_) => panic!(rt; "something is live"),
    }
}

#[test]
fn each_device_is_dropped_once(rt: HostRuntime) -> Result<(), OutOfMemory> {
    let alloc = rt.alloc();
    let drops = Arc::new(alloc, AtomicU32::new(0))?;
    let device = Counted::new(0, drops.clone().expect(&rt, "clones are few"));
    let lines = closed(&rt, alloc, device, &drops);
    assert!(&rt; lines >= 4);
    assert_eq!(&rt; drops.load(Ordering::SeqCst), 1);
    Ok(())
}
