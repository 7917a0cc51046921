//! Each request for memory of a run from bytes to bytes is refused in turn.

use crate::tests::commands::own::{over_slot, run_case};
use std::alloc::{Allocator, Global};
use std::process::Abort;
use std::sync::Wait;
use std::thread::Threads;
use tell_base::Status;
use test_support::{Refusing, refuse_in_turn};

/// One process, so that each run writes the same lines.
const ROUNDS: &str = "process p
enter deposit\nuse put 7\nleave\nenter remove\nuse look\nleave
enter deposit\nuse put 8\nleave\nenter remove\nuse look\nleave\nend";

/// What the run of it writes.
const JOURNAL: &str = "journal 2 room 100
0 start deposit: started 0\n0 use 0 put 7: used 0\n0 finish 0: finished
0 start remove: started 1\n0 use 1 look: used 7\n0 finish 1: finished
0 start deposit: started 2\n0 use 2 put 8: used 7\n0 finish 2: finished
0 start remove: started 3\n0 use 3 look: used 8\n0 finish 3: finished\n";

/// Whether the run is done and wrote the whole journal, with memory from `alloc`. `Err`: the status, if it is another. Checks that a
/// front of the journal was written.
fn runs_from<A: Allocator + Copy + Send + Sync, R: Threads + Wait + Abort + Sync>(
    rt: &R,
    alloc: A,
    heap: Global,
    journal: &[u8],
) -> Result<bool, Status> {
    let mut out = Vec::new(heap);
    let mut err = Vec::new(heap);
    let status = run_case(rt, alloc, over_slot(ROUNDS), &mut out, &mut err);
    assert!(rt; journal.starts_with(out.as_slice()));
    match status {
        Status::Done => Ok(out.as_slice() == journal),
        status => Err(status),
    }
}

fn refuse_each<R: Threads + Wait + Abort + Sync>(rt: &R, heap: Global, journal: &[u8]) {
    let refused = refuse_in_turn(heap, Status::NoMemory, |refusing: &Refusing<Global>| {
        runs_from(rt, refusing, heap, journal)
    });
    assert_eq!(rt; refused, Ok(()));
}

#[test]
fn each_request_is_refused(rt: HostRuntime) {
    refuse_each(&rt, rt.alloc(), JOURNAL.as_bytes());
}

/// Whether it was a step of the process that had no memory, in a run whose request of this number is refused; `None` if no request
/// was. Checks the status, and what is said.
fn tells_of_a_step<R: Threads + Wait + Abort + Sync>(
    rt: &R,
    heap: Global,
    number: u64,
) -> Option<bool> {
    let refusing = Refusing::new(heap, number);
    let mut out = Vec::new(heap);
    let mut err = Vec::new(heap);
    let status = run_case(rt, &refusing, over_slot(ROUNDS), &mut out, &mut err);
    let said = err.as_slice();
    if !refusing.has_refused() {
        assert_eq!(rt; (status, said), (Status::Done, b"p: done\n".as_slice()));
        return None;
    }
    let is_step = said == b"p: no memory\n".as_slice();
    assert!(rt; status == Status::NoMemory && (is_step || said == b"out of memory\n".as_slice()));
    Some(is_step)
}

/// The process is told by its name if the memory was wanting for one of its steps.
#[test]
fn a_process_without_memory(rt: HostRuntime) {
    let mut steps = 0u64;
    for number in 1..1000u64 {
        match tells_of_a_step(&rt, rt.alloc(), number) {
            Some(true) => steps = steps.saturating_add(1),
            Some(false) => {}
            None => {
                assert!(&rt; steps > 0);
                return;
            }
        }
    }
    panic!(&rt; "never passed");
}
