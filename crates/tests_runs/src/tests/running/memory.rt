//! Each request for memory of a run is refused in turn.

use crate::tests::running::own::{ROOM, SLOT, end_so, system_of};
use path_model::{Line, OutOfMemory, Reply};
use path_run::{AlwaysOpen, End, Outcome, RunFault, run};
use path_script::{Script, ScriptFault, read_script};
use path_shelf::{Cell, Device};
use path_system::System;
use std::alloc::{Allocator, Global};
use std::process::Abort;
use std::sync::Wait;
use std::thread::Threads;
use test_support::Refusing;

/// A producer and a consumer of three rounds.
const ROUNDS: &[u8] = b"process p
enter deposit\nuse put 7\nleave\nenter deposit\nuse put 7\nleave\nenter deposit\nuse put 7\nleave\nend
process q
enter remove\nuse look\nleave\nenter remove\nuse look\nleave\nenter remove\nuse look\nleave\nend";

/// Whether the system can be closed.
fn closes(system: System<Cell>) -> bool {
    match system.close() {
        Ok(_journal) => true,
        Err(_system) => false,
    }
}

/// Whether both processes are done. `OutOfMemory`: one of them ran out of memory. In each case nothing is live.
fn both_done<A: Allocator + Copy>(outcome: Outcome<System<Cell>, A>) -> Result<bool, OutOfMemory> {
    let Outcome {
        system,
        passes,
        ends,
    } = outcome;
    drop(passes);
    let short = ends.iter().filter(|end| **end == End::NoMemory).count();
    let are_done = end_so(ends.as_slice(), &[End::Done, End::Done]);
    drop(ends);
    let is_closed = closes(system);
    if is_closed && short == 1 {
        return Err(OutOfMemory);
    }
    Ok(is_closed && are_done)
}

/// No process began, so the system has no lines.
fn none_began(system: System<Cell>) -> Result<bool, OutOfMemory> {
    let has_none = system.journal().is_empty();
    drop(system);
    if has_none {
        Err(OutOfMemory)
    } else {
        Ok(false)
    }
}

/// Runs a script over this system, with memory from `alloc`.
fn run_from<
    D: Device + Send,
    B: Allocator + Copy + Send + Sync,
    A: Allocator + Copy + Send + Sync,
    R: Threads + Wait + Sync,
>(
    rt: &R,
    alloc: A,
    system: System<D, B>,
    script: &Script<A>,
) -> Result<Outcome<System<D, B>, A>, RunFault<System<D, B>>> {
    run(rt, alloc, system, script, &AlwaysOpen)
}

/// What a run comes to: whether it ended as it must, or that memory ran out.
fn answer_of<A: Allocator + Copy>(
    ran: Result<Outcome<System<Cell>, A>, RunFault<System<Cell>>>,
) -> Result<bool, OutOfMemory> {
    match ran {
        Ok(outcome) => both_done(outcome),
        Err(RunFault::OutOfMemory(system)) => none_began(system),
        Err(RunFault::Unsettled(_fault, _system)) => Ok(false),
    }
}

/// The script has no fault, so it is just memory that may be wanting.
fn unread(fault: ScriptFault) -> Result<bool, OutOfMemory> {
    match fault {
        ScriptFault::OutOfMemory => Err(OutOfMemory),
        _ => Ok(false),
    }
}

/// Runs the slot's script. This allocator serves the script and the run.
fn ran_with<R: Threads + Wait + Abort + Sync>(
    rt: &R,
    heap: Global,
    refusing: &Refusing<Global>,
) -> Result<bool, OutOfMemory> {
    let system = system_of(rt, heap, SLOT, Cell::new(0), ROOM);
    match read_script(refusing, system.decl(), ROUNDS) {
        Ok(script) => answer_of(run_from::<Cell, Global, &Refusing<Global>, R>(
            rt, refusing, system, &script,
        )),
        Err(fault) => {
            drop(system);
            unread(fault)
        }
    }
}

/// Whether the request of this number was made, and so refused. If it was, the script isn't read, or a process has no memory, unless
/// it was for the receipt of a finish, which has its place already.
fn refuses<R: Threads + Wait + Abort + Sync>(rt: &R, heap: Global, number: u64) -> bool {
    let refusing = Refusing::new(heap, number);
    let answer = ran_with(rt, heap, &refusing);
    assert!(rt; answer == Ok(true) || (answer == Err(OutOfMemory) && refusing.has_refused()));
    refusing.has_refused()
}

#[test]
fn each_request_is_refused(rt: HostRuntime) {
    for number in 1..1000u64 {
        if !refuses(&rt, rt.alloc(), number) {
            assert!(&rt; number > 4);
            return;
        }
    }
    panic!(&rt; "never passed");
}

/// One process, which uses what it has entered four times.
const USES: &[u8] = b"process p
enter deposit\nuse put 1\nuse put 2\nuse put 3\nuse put 4\nleave\nend";

/// What is seen of a run of one process.
#[derive(Clone, Copy)]
struct Seen {
    /// How many lines there are.
    lines: usize,
    /// Whether the process had no memory for a step.
    is_short: bool,
    /// Whether the last line, if there is one, is a finish, and nothing is live.
    is_finished: bool,
}

/// Whether the last line, if there is one, is a finish.
fn ends_with_finish(journal: &[Line]) -> bool {
    match journal.last() {
        Some(line) => line.reply == Reply::Finished,
        None => true,
    }
}

fn seen_in<A: Allocator + Copy>(outcome: Outcome<System<Cell>, A>) -> Seen {
    let Outcome {
        system,
        passes,
        ends,
    } = outcome;
    drop(passes);
    let is_short = end_so(ends.as_slice(), &[End::NoMemory]);
    drop(ends);
    let lines = system.journal().len();
    let is_last = ends_with_finish(system.journal());
    Seen {
        lines,
        is_short,
        is_finished: closes(system) && is_last,
    }
}

/// What is seen of a run, if its process began.
fn seen_of<A: Allocator + Copy>(
    ran: Result<Outcome<System<Cell>, A>, RunFault<System<Cell>>>,
) -> Option<Seen> {
    match ran {
        Ok(outcome) => Some(seen_in(outcome)),
        Err(_fault) => None,
    }
}

/// What is seen of a run of the uses, if its process began. This allocator serves the script and the run.
fn uses_with<R: Threads + Wait + Abort + Sync>(
    rt: &R,
    heap: Global,
    refusing: &Refusing<Global>,
) -> Option<Seen> {
    let system = system_of(rt, heap, SLOT, Cell::new(0), ROOM);
    match read_script(refusing, system.decl(), USES) {
        Ok(script) => seen_of(run_from::<Cell, Global, &Refusing<Global>, R>(
            rt, refusing, system, &script,
        )),
        Err(_fault) => None,
    }
}

/// Whether it was a use that had no memory, in a run whose request of this number is refused; `None` if no request was. Checks that
/// what was started is finished.
fn cuts_a_use<R: Threads + Wait + Abort + Sync>(rt: &R, heap: Global, number: u64) -> Option<bool> {
    let refusing = Refusing::new(heap, number);
    let seen = uses_with(rt, heap, &refusing);
    let Some(seen) = seen else {
        assert!(rt; refusing.has_refused());
        return Some(false);
    };
    assert!(rt; seen.is_finished, "request {number} is refused");
    if refusing.has_refused() {
        return Some(seen.is_short && seen.lines > 0);
    }
    assert!(rt; !seen.is_short && seen.lines == 6);
    None
}

/// Whichever request is refused, what was started is finished. Some refusal is that of a use, which comes after a start.
#[test]
fn what_was_entered_is_finished(rt: HostRuntime) {
    let mut uses = 0u64;
    for number in 1..1000u64 {
        match cuts_a_use(&rt, rt.alloc(), number) {
            Some(true) => uses = uses.saturating_add(1),
            Some(false) => {}
            None => {
                assert!(&rt; uses > 0);
                return;
            }
        }
    }
    panic!(&rt; "never passed");
}
