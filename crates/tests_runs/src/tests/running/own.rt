//! Systems and scripts of tests.

use path_decl::counts;
use path_model::{Activation, Line, OutOfMemory, Reply, ResId};
use path_read::read;
use path_run::{AlwaysOpen, End, Outcome, RunFault, Turnstile, run};
use path_script::{Script, read_script};
use path_shelf::Device;
use path_system::{Report, System};
use path_workers::Steps;
use std::alloc::{Allocator, Global};
use std::process::Abort;
use std::sync::Wait;
use std::thread::Threads;

/// One resource, in which every deposit is followed by a remove.
pub(crate) const SLOT: &[u8] =
    b"resource slot cell operation deposit, remove path deposit ; remove end end";

/// One resource, which many read at once and one writes alone.
pub(crate) const BOOK: &[u8] =
    b"resource book cell operation read, write path { read } , write end end";

/// Two locks: each operation holds its own from its start to its finish.
pub(crate) const PAIR: &[u8] = b"resource r cell operation a, b path a end path b end end";

/// Each path waits for the other.
pub(crate) const KNOT: &[u8] = b"resource r cell operation a, b path a ; b end path b ; a end end";

/// The room that the program has if none is given.
pub(crate) const ROOM: u32 = 4096;

/// A system of the text, which has one resource, over this device.
pub(crate) fn system_of<D: Device>(
    rt: &impl Abort,
    alloc: Global,
    text: &[u8],
    device: D,
    room: u32,
) -> System<D> {
    let decl = match read(alloc, text) {
        Ok(decl) => decl,
        Err(_) => panic!(rt; "no declaration"),
    };
    let mut devices = Vec::new(alloc);
    assert!(rt; devices.push(device).is_ok());
    match System::open(alloc, decl, devices, room) {
        Ok(system) => system,
        Err(_) => panic!(rt; "it was refused"),
    }
}

/// The script of the text, over the system's operations.
pub(crate) fn script_of<D: Device>(
    rt: &impl Abort,
    alloc: Global,
    system: &System<D>,
    text: &[u8],
) -> Script {
    match read_script(alloc, system.decl(), text) {
        Ok(script) => script,
        Err(_) => panic!(rt; "no script"),
    }
}

/// What is run: a script, over a new system of a declaration with this room.
#[derive(Clone, Copy)]
pub(crate) struct Case<'a> {
    pub(crate) declaration: &'a [u8],
    pub(crate) room: u32,
    pub(crate) script: &'a [u8],
}

fn outcome_of<S: Steps>(rt: &impl Abort, answer: Result<Outcome<S>, RunFault<S>>) -> Outcome<S> {
    match answer {
        Ok(outcome) => outcome,
        Err(RunFault::OutOfMemory(_system)) => panic!(rt; "out of memory"),
        Err(RunFault::Unsettled(fault, _system)) => panic!(rt; "{fault:?}"),
    }
}

/// The outcome of a run over this device, if the turnstile lets everyone through.
pub(crate) fn ran<D: Device + Send, R: Threads + Wait + Abort + Sync>(
    rt: &R,
    alloc: Global,
    case: Case<'_>,
    device: D,
) -> Outcome<System<D>> {
    ran_over(rt, alloc, case, device, &AlwaysOpen)
}

/// The system of an outcome in which these are the ends.
pub(crate) fn system_in<D: Device>(
    rt: &impl Abort,
    outcome: Outcome<System<D>>,
    wanted: &[End],
) -> System<D> {
    let Outcome {
        system,
        passes,
        ends,
    } = outcome;
    drop(passes);
    let are_these = end_so(ends.as_slice(), wanted);
    drop(ends);
    assert!(rt; are_these);
    system
}

/// The journal of a system of which nothing is live.
pub(crate) fn closed<D: Device>(rt: &impl Abort, system: System<D>) -> Vec<Line> {
    match system.close() {
        Ok(journal) => journal,
        Err(_system) => panic!(rt; "something is live"),
    }
}

/// The numbers at the first two places of the only resource.
pub(crate) fn contents_in<D: Device>(rt: &impl Abort, system: &System<D>) -> [Option<u64>; 2] {
    assert_eq!(rt; counts(system.decl()).resources, 1);
    [system.contents(ResId(0), 0), system.contents(ResId(0), 1)]
}

/// What is live in a system, in the order of the starts, and whether it is frozen.
pub(crate) fn live_in<D: Device>(
    alloc: Global,
    system: &System<D>,
) -> Result<(Vec<Activation>, bool), OutOfMemory> {
    let report = system.report(alloc)?;
    let Report {
        startable,
        blocked,
        live,
        frozen,
    } = report;
    drop(startable);
    drop(blocked);
    Ok((live, frozen))
}

/// The journal of an outcome in which these are the ends.
fn journal_in<D: Device>(
    rt: &impl Abort,
    alloc: Global,
    outcome: Outcome<System<D>>,
    ends: &[End],
) -> Vec<Line> {
    let journal = outcome.system.journal().to_vec(alloc);
    let are_these = end_so(outcome.ends.as_slice(), ends);
    drop(outcome);
    assert!(rt; are_these);
    journal.expect(rt, "enough memory")
}

/// The journal of a run over this device, if the turnstile lets everyone through and these are the ends.
pub(crate) fn journal_of<D: Device + Send, R: Threads + Wait + Abort + Sync>(
    rt: &R,
    alloc: Global,
    case: Case<'_>,
    device: D,
    ends: &[End],
) -> Vec<Line> {
    journal_in(rt, alloc, ran(rt, alloc, case, device), ends)
}

/// The journal of a run over this device, through a turnstile, if these are the ends. The device is dropped.
pub(crate) fn journal_through<D: Device + Send, T: Turnstile, R: Threads + Wait + Abort + Sync>(
    rt: &R,
    alloc: Global,
    case: Case<'_>,
    device: D,
    turnstile: &T,
    ends: &[End],
) -> Vec<Line> {
    let outcome = ran_over(rt, alloc, case, device, turnstile);
    journal_in(rt, alloc, outcome, ends)
}

/// The outcome of a run over this device, through a turnstile.
pub(crate) fn ran_over<D: Device + Send, T: Turnstile, R: Threads + Wait + Abort + Sync>(
    rt: &R,
    alloc: Global,
    case: Case<'_>,
    device: D,
    turnstile: &T,
) -> Outcome<System<D>> {
    let system = system_of(rt, alloc, case.declaration, device, case.room);
    let script = script_of(rt, alloc, &system, case.script);
    outcome_of(
        rt,
        run_of::<D, Global, T, R>(rt, alloc, system, &script, turnstile),
    )
}

/// Runs a script over this system, through a turnstile.
fn run_of<
    D: Device + Send,
    A: Allocator + Copy + Send + Sync,
    T: Turnstile,
    R: Threads + Wait + Sync,
>(
    rt: &R,
    alloc: Global,
    system: System<D, A>,
    script: &Script<Global>,
    turnstile: &T,
) -> Result<Outcome<System<D, A>>, RunFault<System<D, A>>> {
    run(rt, alloc, system, script, turnstile)
}

/// How many lines aren't blocked starts.
pub(crate) fn unblocked(journal: &[Line]) -> usize {
    journal
        .iter()
        .filter(|line| !matches!(line.reply, Reply::Blocked(_)))
        .count()
}

/// How many activations were started.
pub(crate) fn started(journal: &[Line]) -> usize {
    journal
        .iter()
        .filter(|line| matches!(line.reply, Reply::Started(_)))
        .count()
}

/// Whether these are the ends.
pub(crate) fn end_so(ends: &[End], wanted: &[End]) -> bool {
    ends == wanted
}
