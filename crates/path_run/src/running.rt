//! Runs.

ghost use Rattle.std.specs.Prelude.{◌≡◌, ℕ, ◌<◌, ◌≤◌, length, vec_len, vec_capacity, slice_index_or, IfOk, IfErr};
ghost use Rattle.std.specs.Prelude.{◌⊎◌, Some, None, IfSome, IfNone};
ghost use Rattle.path_system.specs.Accounts.{IsSystem, all_lines};
ghost use Rattle.path_script.specs.Scripts.{LawfulScript};
ghost use Rattle.path_workers.specs.declared.settle.SettleFault.{SettleFault as Fault};
ghost use Rattle.path_workers.specs.declared.settle.SettleFault.TheVariants.{Mismatch};
ghost use Rattle.path_workers.specs.Later.{IsLater};
ghost use Rattle.path_workers.specs.Settled.{IsSettled};
ghost use Rattle.path_run.specs.declared.outcome.RunFault.TheVariants as faults;
ghost use Rattle.path_run.specs.Runs.{EachRuns};
ghost use Rattle.path_run.specs.Lines.{EachIsOrderly, EachIsBlockedNow, IsFirstDisorder};
ghost use Rattle.path_run.specs.Unsettled.{IsUnsettled, IsUnsettledRun};
ghost use Rattle.path_run.specs.Ended.{HasRun};

use crate::begun::{Worked, work_in_threads};
use crate::lines::first_disorder;
use crate::monitor::Monitor;
use crate::outcome::{End, Ended, Outcome, RunFault};
use crate::turnstile::Turnstile;
use path_model::Line;
use path_script::{Process, Script};
use path_workers::{
    Closed, ClosedPass, DeskName, Pass, SettleFault, SharedSystem, Steps, settle_own,
};
use std::alloc::{AllocError, Allocator};
use std::marker::Brand;
use std::sync::Wait;
use std::sync::ledger::{Blank, Ledger};
use std::thread::Threads;

/// Memory for the closed passes, the passes and ends of that many processes. Fails only if allocation fails.
fn places<L: Ledger, A: Allocator + Copy>(
    alloc: A,
    count: usize,
) -> Result<(Vec<ClosedPass<A>, A>, Vec<Pass<L, A>, A>, Vec<End, A>), AllocError>
    ensures empty { IfOk result (λ p. (vec_len p.0 ≡ 0) × (vec_len p.1 ≡ 0) × (vec_len p.2 ≡ 0)) }
    ensures places { IfOk result (λ p. (count ≤ vec_capacity p.0) × (count ≤ vec_capacity p.1) × (count ≤ vec_capacity p.2)) }
{
    let closed_passes = Vec::with_capacity(alloc, count)?;
    let passes = Vec::with_capacity(alloc, count)?;
    let ends = Vec::with_capacity(alloc, count)?;
    Ok((closed_passes, passes, ends))
}

/// The passes and the ends, each in order.
fn passes_of<L: Ledger, A: Allocator + Copy>(
    worked: Vec<Worked<L, A>, A>,
    mut passes: Vec<Pass<L, A>, A>,
    mut ends: Vec<End, A>,
) -> (Vec<Pass<L, A>, A>, Vec<End, A>)
    requires empty { (vec_len passes ≡ 0) × (vec_len ends ≡ 0) }
    requires places { (vec_len worked ≤ vec_capacity passes) × (vec_len worked ≤ vec_capacity ends) }
    ensures len { (vec_len result.0 ≡ vec_len worked) × (vec_len result.1 ≡ vec_len worked) }
    ensures each { (k : ℕ) (h : _) (e : _) (w : _) → k < vec_len worked
        → (slice_index_or result.0.items k h ≡ (slice_index_or worked.items k w).pass)
        × (slice_index_or result.1.items k e ≡ (slice_index_or worked.items k w).end) }
{
    for one in worked {
        let Worked { pass, end } = one;
        passes.push_reserved(pass);
        ends.push_reserved(end);
    }
    (passes, ends)
}

/// What is wrong with the receipts of processes that have ended: why the desk isn't settled, or else the first place at which they don't
/// agree with the journal.
fn fault_of<A: Allocator + Copy>(
    unsettled: Option<SettleFault>,
    journal: &[Line],
    closed_passes: &[ClosedPass<A>],
    ends: &[End],
) -> Option<SettleFault>
    requires { length closed_passes.now ≡ length ends.now }
    ensures none { IfNone result ((unsettled ≡ None) × EachIsOrderly journal.now closed_passes.now ends.now) }
    ensures some { IfSome result (λ e. (unsettled ≡ Some e) ⊎ ((unsettled ≡ None) × ((place : ℕ) × (e ≡ Mismatch place)
        × IsFirstDisorder journal.now closed_passes.now ends.now place))) }
{
    if unsettled.is_some() {
        return unsettled;
    }
    match first_disorder(journal, closed_passes, ends) {
        Some(place) => Some(SettleFault::Mismatch { place }),
        None => None,
    }
}

/// The end of a run whose processes have ended, with these passes and ends. The closed passes go into the vector `closed_passes`.
fn ended<L: DeskName, S: Steps, A: Allocator + Copy>(
    shared: SharedSystem<L, S>,
    before: u64,
    passes: Vec<Pass<L, A>, A>,
    closed_passes: Vec<ClosedPass<A>, A>,
    ends: Vec<End, A>,
) -> Ended<S, A>
    requires before { before ≡ length L.opened.journal }
    requires places { (vec_len closed_passes ≡ 0) × (vec_len passes ≤ vec_capacity closed_passes) }
    requires ends { vec_len ends ≡ vec_len passes }
    ensures ends { (result.outcome.ends.items ≡ ends.items) × (vec_len result.outcome.ends ≡ vec_len ends) }
    ensures passes { (result.outcome.passes.items ≡ passes.items) × (vec_len result.outcome.passes ≡ vec_len passes) }
    ensures later { IsLater L.opened (S.account result.outcome.system) }
    ensures system { IfNone result.fault (IsSystem (S.account result.outcome.system)) }
    ensures settled { IfNone result.fault (IsSettled before (S.account result.outcome.system).journal passes.items) }
    ensures orderly { IfNone result.fault (EachIsOrderly (S.account result.outcome.system).journal passes.items ends.items) }
    ensures unsettled { IfSome result.fault (λ e. IsUnsettled before (S.account result.outcome.system).journal passes.items ends.items e) }
{
    let Closed {
        system,
        closed_passes,
        fault,
    } = settle_own(shared, before, passes, closed_passes);
    let fault = fault_of(
        fault,
        system.journal(),
        closed_passes.as_slice(),
        ends.as_slice(),
    );
    Ended {
        outcome: Outcome {
            system,
            passes: closed_passes,
            ends,
        },
        fault,
    }
}

/// The same over a desk that the caller names.
fn run_at<
    S: Steps + Send,
    T: Turnstile,
    A: Allocator + Copy + Send + Sync,
    R: Threads + Wait + Sync,
    L: DeskName + Send + Sync,
>(
    rt: &R,
    alloc: A,
    system: S,
    blank: Blank,
    processes: &[Process<A>],
    turnstile: &T,
) -> Result<Ended<S, A>, S>
    requires name { blank.name ≡ L.name }
    requires parts { (blank.parts ≡ L.parts) × (blank.parts ≡ 18446744073709551615) }
    requires opened { S.account system ≡ L.opened }
    requires lawful { LawfulScript processes.now }
    ensures ok { IfOk result (λ e. HasRun processes.now (S.account system) (S.account e.outcome.system) e.outcome.passes.items
        e.outcome.ends.items e.fault) }
    ensures memory { IfErr result (λ left. IsLater (S.account system) (S.account left)) }
{
    let before = system.journal().len() as u64;
    let count = processes.len();
    let Ok((closed_passes, passes, ends)) = places(alloc, count) else {
        return Err(system);
    };
    let monitor = Monitor::<L, S>::new(SharedSystem::open(system, blank), count as u64);
    let worked = work_in_threads(rt, &monitor, turnstile, alloc, processes);
    let shared = monitor.into_shared();
    let Ok(worked) = worked else {
        return Err(shared.close());
    };
    let (passes, ends) = passes_of(worked, passes, ends);
    Ok(ended(shared, before, passes, closed_passes, ends))
}

/// Runs each process of the script as [`run`] does, and hands back the receipts and the ends also where they don't agree with the
/// journal. If there is no fault, the outcome is what [`run`] promises; if there is one, it is what is wrong with these receipts.
///
/// Fails only if memory runs out before any process begins, and then the system comes back.
pub fn run_with_receipts<
    S: Steps + Send,
    T: Turnstile,
    A: Allocator + Copy + Send + Sync,
    R: Threads + Wait + Sync,
>(rt: &R, alloc: A, system: S, script: &Script<A>, turnstile: &T) -> Result<Ended<S, A>, S>
    ensures ok { IfOk result (λ e. HasRun script.now.processes (S.account system) (S.account e.outcome.system) e.outcome.passes.items
        e.outcome.ends.items e.fault) }
    ensures memory { IfErr result (λ left. IsLater (S.account system) (S.account left)) }
{
    run_at::<S, T, A, R, Brand>(
        rt,
        alloc,
        system,
        Blank::new(u64::MAX),
        script.processes(),
        turnstile,
    )
}

/// Runs each process of the script in a thread of its own, over a system that they share. The number of a process is its worker's
/// number. `use` and `leave` act on the activation that the process entered last and hasn't left.
///
/// Before each step the turnstile is asked, while nobody holds the lock. An enter that a path blocks is marked as waiting before the
/// lock is let go, and is tried again only after a finish has been admitted since; each admitted finish wakes all that wait. If every
/// process that hasn't ended waits, all of them end as [`End::Stalled`] and finish nothing. A process that ends as
/// [`End::NoRoom`], [`End::Faulted`], [`End::Stopped`] or [`End::NoMemory`] first finishes what it had entered, the last first.
///
/// The outcome has one pass and one end for each process, in order. Each line that was written is one receipt of one pass; the
/// receipts of a pass are those of its script, up to its end; and what a process stalled at is blocked in the system that is left.
///
/// `OutOfMemory`: memory ran out before any process began, and the system comes back. `Unsettled`: the journal doesn't
/// match the replies that the processes got; no run has shown this. It names the first place where the desk isn't settled, where the
/// receipts of a process don't rise or are blocked again with no finish between, or where a process stalled before a later finish.
///
/// Waits for all processes. The cost is that of their steps, of a walk through the lines for each process, and of settling.
pub fn run<
    S: Steps + Send,
    T: Turnstile,
    A: Allocator + Copy + Send + Sync,
    R: Threads + Wait + Sync,
>(
    rt: &R,
    alloc: A,
    system: S,
    script: &Script<A>,
    turnstile: &T,
) -> Result<Outcome<S, A>, RunFault<S>>
    ensures len { IfOk result (λ o. (vec_len o.passes ≡ length script.now.processes)
        × (vec_len o.ends ≡ length script.now.processes)) }
    ensures settled { IfOk result (λ o. IsSettled (length (S.account system).journal) (S.account o.system).journal o.passes.items) }
    ensures runs { IfOk result (λ o. EachRuns script.now.processes o.passes.items o.ends.items) }
    // The places of a process's receipts rise, and between two refusals in a row something was finished.
    ensures orderly { IfOk result (λ o. EachIsOrderly (S.account o.system).journal o.passes.items o.ends.items) }
    // A process that stalled is blocked there still.
    ensures blocked { IfOk result (λ o. EachIsBlockedNow (S.account o.system).declaration (all_lines (S.account o.system)) o.ends.items) }
    ensures system { IfOk result (λ o. IsSystem (S.account o.system)) }
    // The system that comes back is the one that was handed in, with the lines of the run after those that it had.
    ensures later { IfOk result (λ o. IsLater (S.account system) (S.account o.system)) }
    // In each fault the system comes back, too.
    ensures memory { IfErr result (λ e. (left : _) → e ≡ faults.OutOfMemory left → IsLater (S.account system) (S.account left)) }
    ensures left { IfErr result (λ e. (fault : Fault) (left : _) → e ≡ faults.Unsettled fault left
        → IsLater (S.account system) (S.account left)) }
    ensures unsettled { IfErr result (λ e. (fault : Fault) (left : _) → e ≡ faults.Unsettled fault left
        → IsUnsettledRun script.now.processes (length (S.account system).journal) (S.account left).journal fault) }
{
    match run_with_receipts(rt, alloc, system, script, turnstile) {
        Ok(Ended { outcome, fault }) => match fault {
            None => Ok(outcome),
            Some(fault) => Err(RunFault::Unsettled(fault, outcome.into_system())),
        },
        Err(system) => Err(RunFault::OutOfMemory(system)),
    }
}
