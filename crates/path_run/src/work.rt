//! The work of one process.

ghost use Rattle.std.specs.Prelude.{◌≡◌, ◌≤◌, [], ◌++◌, List, true, false, length, IsTrue, IsFalse};
ghost use Rattle.path_model.specs.declared.ids.ActId.{ActId as Act};
ghost use Rattle.path_script.specs.Scripts.{IsBalanced};
ghost use Rattle.path_workers.specs.declared.answer.Receipt.{Receipt as Note};
ghost use Rattle.path_run.specs.Runs.{Finishes, IsRun};
ghost use Rattle.path_run.specs.Stopped.{IsStoppedBy};
ghost use Rattle.path_run.specs.Inner.Parts.{After};

use crate::entered::Entered;
use crate::monitor::Monitor;
use crate::outcome::End;
use crate::step::{attempt, take};
use crate::turnstile::Turnstile;
use path_model::{Attempt, Reply};
use path_script::Step;
use path_workers::{DeskName, Pass, Steps};
use std::alloc::Allocator;
use std::sync::Wait;

/// Takes the steps in order, up to the one that ends the process.
fn take_steps<L: DeskName, S: Steps, T: Turnstile, A: Allocator + Copy, R: Wait>(
    rt: &R,
    monitor: &Monitor<L, S>,
    turnstile: &T,
    pass: &mut Pass<L, A>,
    entered: &mut Entered,
    steps: &[Step],
) -> End
    requires fresh { (pass.old.receipts ≡ []) × (entered.old ≡ []) }
    requires balanced { IsBalanced steps.now }
    requires few { length steps.now ≤ 4096 }
    ensures worker { pass.new.worker ≡ pass.old.worker }
    ensures run { (rs : List Note) → After result entered.new rs → IsRun steps.now [] (pass.new.receipts ++ rs) result }
    ensures stopped { IsStoppedBy (T.may_stop turnstile.now) pass.old.worker (length steps.now) result }
{
    for place in 0..steps.len() as u32 {
        let may_step = turnstile.before(pass.worker(), place);
        if !may_step {
            return End::Stopped;
        }
        if let Err(end) = take(rt, monitor, pass, entered, steps[place as usize]) {
            return end;
        }
    }
    End::Done
}

/// Finishes what was entered and not left, the last first.
fn finish_all<L: DeskName, S: Steps, A: Allocator + Copy, R: Wait>(
    rt: &R,
    monitor: &Monitor<L, S>,
    pass: &mut Pass<L, A>,
    mut entered: Entered,
)
    ensures worker { pass.new.worker ≡ pass.old.worker }
    ensures run { (gained : List Note) × (pass.new.receipts ≡ pass.old.receipts ++ gained) × Finishes entered gained }
{
    while let Some(act) = entered.pop() {
        match attempt(rt, monitor, pass, Attempt::Finish(act)) {
            Ok(Reply::NoRoom) | Err(_) => return,
            Ok(_) => {}
        }
    }
}

/// Whether a process with this end first finishes what it had entered.
fn gives_up(end: End) -> bool
    ensures yes { IsTrue result → (held : List Act) (rs : List Note) → Finishes held rs → After end held rs }
    ensures no { IsFalse result → (held : List Act) → After end held [] }
{
    match end {
        End::NoRoom | End::Faulted(_) | End::Stopped | End::NoMemory => true,
        End::Done | End::Stalled(_) | End::NotStarted => false,
    }
}

/// Takes the steps, up to the one that ends the process; then, unless it stalled, finishes what it had entered and not left.
pub fn work<L: DeskName, S: Steps, T: Turnstile, A: Allocator + Copy, R: Wait>(
    rt: &R,
    monitor: &Monitor<L, S>,
    turnstile: &T,
    pass: &mut Pass<L, A>,
    steps: &[Step],
) -> End
    requires fresh { pass.old.receipts ≡ [] }
    requires balanced { IsBalanced steps.now }
    requires few { length steps.now ≤ 4096 }
    ensures worker { pass.new.worker ≡ pass.old.worker }
    ensures run { IsRun steps.now [] pass.new.receipts result }
    ensures stopped { IsStoppedBy (T.may_stop turnstile.now) pass.old.worker (length steps.now) result }
{
    let mut entered = Entered::none();
    let end = take_steps(rt, monitor, turnstile, pass, &mut entered, steps);
    if gives_up(end) {
        finish_all(rt, monitor, pass, entered);
    }
    end
}
