//! The threads of a run.

ghost use Rattle.std.specs.Prelude.{◌≡◌, ℕ, ◌<◌, ◌≤◌, [], length, vec_len, vec_capacity, slice_index_or, IfOk};
ghost use Rattle.path_script.specs.Scripts.{IsBalanced, LawfulScript};
ghost use Rattle.path_run.specs.Runs.{IsRun};
ghost use Rattle.path_run.specs.Stopped.{IsStoppedBy};

use crate::monitor::Monitor;
use crate::outcome::End;
use crate::turnstile::Turnstile;
use crate::work::work;
use path_script::{Process, Step};
use path_workers::{DeskName, Pass, Steps};
use std::alloc::{AllocError, Allocator};
use std::marker::Model;
use std::sync::Wait;
use std::sync::ledger::Ledger;
use std::thread;
use std::thread::{Promise, PromisedHandle, Scope, Threads};

/// What a process hands back.
#[derive(Drop)]
pub struct Worked<L: Ledger, A: Allocator + Copy> {
    pub pass: Pass<L, A>,
    pub end: End,
}

/// The promise that the receipts are those of a process of this number with these steps.
#[derive(Clone, Copy)]
pub struct RunOf<'a> {
    worker: u32,
    steps: &'a [Step],
}

impl<'a, L: Ledger, A: Allocator + Copy> Promise<Worked<L, A>> for RunOf<'a> {
    ghost use Rattle.std.specs.Prelude.{◌≡◌, []};
    ghost use Rattle.path_run.specs.Runs.{IsRun};

    ghost kept_by = { λ p w. (w.pass.worker ≡ p.worker) × IsRun p.steps.now [] w.pass.receipts w.end };
}

/// A process for which a thread was made, or none could be. Contracts see its number and its steps.
#[derive(Drop)]
struct Begun<'a, L: Ledger, A: Allocator + Copy> {
    child: Option<PromisedHandle<Worked<L, A>, RunOf<'a>>>,
    worker: u32,
    steps: &'a [Step],
}

impl<'a, L: Ledger, A: Allocator + Copy> Model for Begun<'a, L, A> {
    ghost use Rattle.std.specs.Prelude.{◌≡◌, ℕ, List, IfSome};
    ghost use Rattle.path_script.specs.declared.script.Step.{Step};

    ghost Value = { ℕ × List Step };

    ghost view = { λ b. (b.worker, b.steps.now) };

    ghost invariant = { λ b. IfSome b.child (λ h. (h.promise.worker ≡ b.worker) × (h.promise.steps.now ≡ b.steps.now)) };
}

impl<'a, L: DeskName, A: Allocator + Copy> Begun<'a, L, A> {
    /// What the process hands back, once its thread has ended.
    fn join<R: Threads + Wait>(self, rt: &R, alloc: A) -> Worked<L, A>
        ensures worker { result.pass.worker ≡ self.entry.0 }
        ensures run { IsRun self.entry.1 [] result.pass.receipts result.end }
    {
        let Begun {
            child,
            worker,
            steps: _,
        } = self;
        match child {
            Some(child) => child.join(rt),
            None => Worked {
                pass: Pass::new(alloc, worker),
                end: End::NotStarted,
            },
        }
    }
}

/// What the thread of a process does: its steps, and then it is marked as ended.
fn work_there<L: DeskName, S: Steps, T: Turnstile, A: Allocator + Copy, R: Wait>(
    rt: &R,
    monitor: &Monitor<L, S>,
    turnstile: &T,
    alloc: A,
    worker: u32,
    steps: &[Step],
) -> Worked<L, A>
    requires balanced { IsBalanced steps.now }
    requires few { length steps.now ≤ 4096 }
    ensures worker { result.pass.worker ≡ worker }
    ensures run { IsRun steps.now [] result.pass.receipts result.end }
    ensures stopped { IsStoppedBy (T.may_stop turnstile.now) worker (length steps.now) result.end }
{
    let mut pass = Pass::new(alloc, worker);
    let end = work(rt, monitor, turnstile, &mut pass, steps);
    monitor.end_one(rt);
    Worked { pass, end }
}

/// Starts the thread of a process. If none can be made, the process is marked as ended at once, so that nobody waits for it.
fn begin<
    's,
    E,
    L: DeskName + Send + Sync + 's,
    S: Steps + Send + 's,
    T: Turnstile + 's,
    A: Allocator + Copy + Send + Sync + 's,
    R: Threads + Wait + Sync + 's,
>(
    scope: &Scope<'s, E>,
    rt: &'s R,
    monitor: &'s Monitor<L, S>,
    turnstile: &'s T,
    alloc: A,
    worker: u32,
    steps: &'s [Step],
) -> Begun<'s, L, A>
    requires balanced { IsBalanced steps.now }
    requires few { length steps.now ≤ 4096 }
    ensures { (result.0 ≡ worker) × (result.1 ≡ steps.now) }
{
    let promise = RunOf { worker, steps };
    let child = scope
        .spawn_with(
            promise,
            move || -> Worked<L, A>
                requires { IsBalanced steps.now × (length steps.now ≤ 4096) }
            { work_there(rt, monitor, turnstile, alloc, worker, steps) },
        )
        .ok();
    if child.is_none() {
        monitor.end_one(rt);
    }
    Begun {
        child,
        worker,
        steps,
    }
}

/// Starts one thread for each process, and joins them in order. Allocates memory before the first begins. If no thread can be made for a
/// process, it is marked as ended at once, so that nobody waits for it.
pub fn work_in_threads<
    L: DeskName + Send + Sync,
    S: Steps + Send,
    T: Turnstile,
    A: Allocator + Copy + Send + Sync,
    R: Threads + Wait + Sync,
>(
    rt: &R,
    monitor: &Monitor<L, S>,
    turnstile: &T,
    alloc: A,
    processes: &[Process<A>],
) -> Result<Vec<Worked<L, A>, A>, AllocError>
    requires lawful { LawfulScript processes.now }
    ensures len { IfOk result (λ v. vec_len v ≡ length processes.now) }
    ensures runs { IfOk result (λ v. (i : ℕ) (p : _) (w : _) → i < length processes.now
        → ((slice_index_or v.items i w).pass.worker ≡ i)
        × IsRun (slice_index_or processes.now i p).steps [] (slice_index_or v.items i w).pass.receipts
        (slice_index_or v.items i w).end) }
{
    thread::scope(
        thread::scope_env(),
        rt,
        move |scope| -> Result<Vec<Worked<L, A>, A>, AllocError>
            requires { LawfulScript processes.now }
            ensures { IfOk result (λ v. (vec_len v ≡ length processes.entry.now)
                × ((i : ℕ) (p : _) (w : _) → i < length processes.entry.now
                → ((slice_index_or v.items i w).pass.worker ≡ i)
                × IsRun (slice_index_or processes.entry.now i p).steps [] (slice_index_or v.items i w).pass.receipts
                (slice_index_or v.items i w).end)) }
        {
            let worked = Vec::with_capacity(alloc, processes.len())?;
            let mut begun = Vec::with_capacity(alloc, processes.len())?;
            for process in processes {
                let worker = begun.len() as u32;
                // Each thread gets copies of these.
                let (rt, monitor, turnstile) = (rt, monitor, turnstile);
                begun.push_reserved(begin(
                    scope,
                    rt,
                    monitor,
                    turnstile,
                    alloc,
                    worker,
                    process.steps(),
                ));
            }
            Ok(join_all(rt, alloc, begun, worked))
        },
    )
}

/// What the processes hand back, in order.
fn join_all<'a, L: DeskName, A: Allocator + Copy, R: Threads + Wait>(
    rt: &R,
    alloc: A,
    begun: Vec<Begun<'a, L, A>, A>,
    mut worked: Vec<Worked<L, A>, A>,
) -> Vec<Worked<L, A>, A>
    requires { (vec_len worked ≡ 0) × (vec_len begun ≤ vec_capacity worked) }
    ensures len { vec_len result ≡ vec_len begun.entry }
    ensures runs { (i : ℕ) (b : _) (w : _) → i < vec_len begun.entry
        → ((slice_index_or result.items i w).pass.worker ≡ (slice_index_or begun.entry.items i b).0)
        × IsRun (slice_index_or begun.entry.items i b).1 [] (slice_index_or result.items i w).pass.receipts
        (slice_index_or result.items i w).end }
{
    for one in begun {
        worked.push_reserved(one.join(rt, alloc));
    }
    worked
}
