//! Devices that fail while a line is taken over.

use crate::tests::resuming::going::{ROOM, TALLY, declared, front, lines_in, same};
use path_model::{Attempt, Line, Reply};
use path_shelf::Device;
use path_system::{ResumeFault, System, TakeFault};
use std::alloc::Global;
use std::process::Abort;
use test_support::FailingTally;

// A tally that fails at the use of this number which it serves, alone.
fn failing(rt: &impl Abort, heap: Global, fails_at: u64) -> Vec<FailingTally> {
    let mut devices = Vec::new(heap);
    assert!(rt; devices.push(FailingTally::new(0, fails_at, 0)).is_ok());
    devices
}

// Checks that a system goes on behind these lines over a tally that fails at this use, and stops at this line; `None` if it doesn't stop.
// The tally comes back with this total, and has failed once.
fn stops(rt: &impl Abort, heap: Global, lines: &[Line], fails_at: u64, stop: Option<(u32, u64)>) {
    let decl = declared(rt, heap, TALLY.0);
    let answer = System::resume(heap, decl, failing(rt, heap, fails_at), ROOM, lines);
    match (answer, stop) {
        (Ok(system), None) => drop(system),
        (Err((fault, devices)), Some((line, total))) => {
            assert!(rt; fault == ResumeFault::Line(line, TakeFault::DeviceFailed));
            let tally = devices.get(0).expect(rt, "it comes back");
            assert!(rt; tally.at(0) == Some(total) && tally.failures() == 1);
            drop(devices);
        }
        (answer, _) => {
            drop(answer);
            panic!(rt; "over a tally that fails at use {fails_at}");
        }
    }
}

// The journal's uses that are served: lines 2, 4 and 6. At line 5 the journal says that the device failed, and it isn't asked.
#[test]
fn tells_the_line_at_which_a_device_fails(rt: HostRuntime) {
    let heap = rt.alloc();
    let decl = declared(&rt, heap, TALLY.0);
    let lines = lines_in(&rt, heap, &decl, TALLY.2);
    drop(decl);
    stops(&rt, heap, &lines, 1, Some((2, 0)));
    stops(&rt, heap, &lines, 2, Some((4, 4)));
    stops(&rt, heap, &lines, 3, Some((6, 4)));
    stops(&rt, heap, &lines, 4, None);
    drop(lines);
}

// A line that a device failed to take may be tried again: nothing has changed but the count of failures.
#[test]
fn tries_again(rt: HostRuntime) {
    let heap = rt.alloc();
    let decl = declared(&rt, heap, TALLY.0);
    let lines = lines_in(&rt, heap, &decl, TALLY.2);
    let mut system = match System::resume(
        heap,
        decl,
        failing(&rt, heap, 1),
        ROOM,
        front(&lines, 2),
    ) {
        Ok(system) => system,
        Err(refusal) => {
            drop(refusal);
            panic!(rt; "the starts are right");
        }
    };
    let line = *lines.get(2).expect(&rt, "the first use");
    assert!(rt; system.take_over(line) == Err(TakeFault::DeviceFailed));
    assert!(rt; same(system.journal(), front(&lines, 2)));
    assert!(rt; system.take_over(line).is_ok());
    assert!(rt; same(system.journal(), front(&lines, 3)));
    drop(system);
    drop(lines);
}
