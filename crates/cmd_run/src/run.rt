//! Runs, from bytes to bytes.

ghost use Rattle.std.specs.Prelude.{◌≡◌, ◌⊎◌, Some, length, map, OnOk, IfOk, IfErr};
ghost use Rattle.std.specs.String.{string_bytes};
ghost use Rattle.path_model.specs.Rooms.{IsRoom};
ghost use Rattle.path_journal.specs.JournalTexts.{journal_text};
ghost use Rattle.path_run.specs.declared.outcome.RunFault.TheVariants as faults;
ghost use Rattle.tell_base.specs.Ends.{Ends};
ghost use Rattle.tell_base.specs.Refusals.{IsUnopened};
ghost use Rattle.tell_base.specs.Statuses.{status_of};
ghost use Rattle.cmd_run.specs.Ends.{WritesRun};
ghost use Rattle.cmd_run.specs.RunTexts.{IsRunOf, IsUnrun, RunEnds, RunTextsEnd};

use crate::ends::{ends_text, status_of_ends};
use path_decl::Decl;
use path_journal::write_journal;
use path_run::{AlwaysOpen, Outcome, RunFault, run};
use path_script::{Script, read_script};
use path_shelf::Device;
use path_system::System;
use path_workers::Steps;
use std::alloc::Allocator;
use std::io::Write;
use std::sync::Wait;
use std::thread::Threads;
use tell_base::{Fault, Status, put_text, read_own, tell};

/// What is told of a run that has no outcome.
fn no_outcome<S: Steps>(fault: RunFault<S>) -> Fault<'static>
    ensures memory { (left : _) → fault ≡ faults.OutOfMemory left → status_of result ≡ Status.NoMemory }
    ensures unsettled { (why : _) (left : _) → fault ≡ faults.Unsettled why left → status_of result ≡ Status.Unsound }
{
    match fault {
        RunFault::OutOfMemory(_system) => Fault::OutOfMemory,
        RunFault::Unsettled(_fault, _system) => Fault::Unsettled,
    }
}

/// Opens a system over the devices, and runs the processes of a script under it.
fn ran<D: Device + Send, A: Allocator + Copy + Send + Sync, R: Threads + Wait + Sync>(
    rt: &R,
    alloc: A,
    decl: Decl<A>,
    devices: Vec<D, A>,
    room: u32,
    script: &Script<A>,
) -> Result<Outcome<System<D, A>, A>, Fault<'static>>
    ensures room { OnOk result (IsRoom room) }
    ensures declaration { IfOk result (λ o. o.system.declaration ≡ decl.declaration) }
    ensures run { IfOk result (λ o. IsRunOf decl.declaration (map D.state devices.items) room script.now.processes
        o.system.journal o.ends.items) }
    ensures err { IfErr result (λ fault. IsUnrun decl.declaration (map D.state devices.items) room (status_of fault)) }
{
    let system = match System::open(alloc, decl, devices, room) {
        Ok(system) => system,
        Err((fault, _devices)) => return Err(Fault::Open(fault)),
    };
    match run(rt, alloc, system, script, &AlwaysOpen) {
        Ok(outcome) => Ok(outcome),
        Err(fault) => Err(no_outcome(fault)),
    }
}

/// Writes how each process ended, which is this text, and ends with this status.
fn tell_ends<E: Write>(text: &[u8], status: Status, err: &mut E) -> Status
    ensures { (result ≡ status) ⊎ (result ≡ Status.StreamFailed) }
{
    match err.write_all(text) {
        Ok(()) => status,
        Err(_) => Status::StreamFailed,
    }
}

/// Writes the journal of a run on `out`, and how each process ended on `err`.
fn tell_outcome<D: Device, A: Allocator + Copy, O: Write, E: Write>(
    alloc: A,
    room: u32,
    script: &Script<A>,
    outcome: &Outcome<System<D, A>, A>,
    out: &mut O,
    err: &mut E,
) -> Status
    requires room { IsRoom room }
    requires ends { length outcome.now.ends.items ≡ length script.now.processes }
    ensures { Ends (WritesRun outcome.now.ends.items
        (journal_text outcome.now.system.declaration (Some room) outcome.now.system.journal))
        (O.contents out.old) (O.contents out.new) result }
{
    let decl = outcome.system.decl();
    let Ok(journal) = write_journal(alloc, decl, Some(room), outcome.system.journal()) else {
        return tell(err, Fault::OutOfMemory);
    };
    let Ok(ends) = ends_text(alloc, decl, script.processes(), &outcome.ends) else {
        return tell(err, Fault::OutOfMemory);
    };
    let status = status_of_ends(&outcome.ends);
    match put_text(out, err, journal.as_bytes()) {
        Status::Done => tell_ends(ends.as_bytes(), status, err),
        failed => failed,
    }
}

/// Runs the processes of a script under a declaration and its devices, a thread for each process. Writes the journal of the run on
/// `out`, as a text of version 2, and on `err` a line for each process: its name, `: `, and how it ended. The journal has room for
/// `room` lines, 1 to [`MOST_LINES`](path_model::MOST_LINES).
///
/// `Done`: all processes are done. `Unsound`: some aren't; or the journal didn't match what the processes did, and nothing
/// was written; no run has shown this. `TextRefused`: the script is refused. `CommandRefused`: the room or the devices are, as
/// [`System::open`](path_system::System::open) says. In these two cases no process ran and nothing was written. `StreamFailed`: a
/// writer failed. `NoMemory`: memory ran out for the run, for one of its processes or for the text, and a front of the text was
/// written. A fault is one line on `err`.
///
/// Waits for the processes, which wait for one another; nothing says that they end.
pub fn run_to<
    D: Device + Send,
    A: Allocator + Copy + Send + Sync,
    R: Threads + Wait + Sync,
    O: Write,
    E: Write,
>(
    rt: &R,
    alloc: A,
    decl: Decl<A>,
    devices: Vec<D, A>,
    room: u32,
    script: &[u8],
    out: &mut O,
    err: &mut E,
) -> Status
    // Done: all processes are done, and the journal of their run was written. Unsound: nothing was written, or the journal of a run
    // after which some process isn't done. Else the script or the system is refused.
    ensures { Ends (RunEnds decl.declaration (map D.state devices.items) room script.now
        (IsUnopened decl.declaration (map D.state devices.items) room)) (O.contents out.old) (O.contents out.new) result }
{
    let script = match read_script(alloc, &decl, script) {
        Ok(script) => script,
        Err(fault) => return tell(err, Fault::Script(fault)),
    };
    match ran(rt, alloc, decl, devices, room, &script) {
        Ok(outcome) => {
            let status = tell_outcome(alloc, room, &script, &outcome, out, err);
            drop(outcome);
            status
        }
        Err(fault) => tell(err, fault),
    }
}

/// Reads a declaration, and runs the processes of a script under it, as [`run_to`] does, over the program's own devices: a cell or a
/// tally contains 0 at first, a queue nothing.
///
/// `DeclarationRefused`: the declaration is refused, which counts first, and nothing was written. The other statuses are those of
/// [`run_to`].
pub fn run_bytes<A: Allocator + Copy + Send + Sync, R: Threads + Wait + Sync, O: Write, E: Write>(
    rt: &R,
    alloc: A,
    declaration: &[u8],
    room: u32,
    script: &[u8],
    out: &mut O,
    err: &mut E,
) -> Status
    // As the table of runs has it.
    ensures { Ends (RunTextsEnd declaration.now room script.now) (O.contents out.old) (O.contents out.new) result }
{
    match read_own(alloc, declaration) {
        Ok((decl, devices)) => run_to(rt, alloc, decl, devices, room, script, out, err),
        Err(fault) => tell(err, fault),
    }
}
