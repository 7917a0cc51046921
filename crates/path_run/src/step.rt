//! One step of a process.

ghost use Rattle.std.specs.Prelude.{◌≡◌, ◌∷◌, ◌++◌, List, length, true, IsOk, MatchResult, OnOk, OnErr, IfErr};
ghost use Rattle.path_workers.specs.Attempts.{finishes_open};
ghost use Rattle.path_model.specs.declared.ids.ActId.{ActId as Act};
ghost use Rattle.path_script.specs.declared.script.Step.TheVariants as steps;
ghost use Rattle.path_script.specs.Scripts.{MayStep, entered_after};
ghost use Rattle.path_workers.specs.declared.answer.Receipt.{Receipt as Note};
ghost use Rattle.path_run.specs.Stopped.{IsUnstopped};
ghost use Rattle.path_run.specs.Inner.Parts.{Adds, Closes, HasGained};

use crate::enter::enter;
use crate::entered::Entered;
use crate::monitor::Monitor;
use crate::outcome::End;
use path_model::{ActId, Attempt, OutOfMemory, Reply, Verb};
use path_script::Step;
use path_workers::{DeskName, Pass, Steps};
use std::alloc::Allocator;
use std::sync::Wait;

/// Makes an attempt without waiting for a finish. If it is an admitted finish, wakes all that wait.
pub fn attempt<L: DeskName, S: Steps, A: Allocator + Copy, R: Wait>(
    rt: &R,
    monitor: &Monitor<L, S>,
    pass: &mut Pass<L, A>,
    attempt: Attempt,
) -> Result<Reply, OutOfMemory>
    ensures worker { pass.new.worker ≡ pass.old.worker }
    ensures run { HasGained attempt result pass.old.receipts pass.new.receipts }
    ensures finish { finishes_open attempt pass.old.receipts ≡ true → IsOk result }
{
    let mut state = monitor.state.lock(rt);
    let reply = state.attempt(pass, attempt)?;
    if let Reply::Finished = reply {
        monitor.freed.notify_all();
    }
    Ok(reply)
}

/// Uses the device of an activation.
fn apply<L: DeskName, S: Steps, A: Allocator + Copy, R: Wait>(
    rt: &R,
    monitor: &Monitor<L, S>,
    pass: &mut Pass<L, A>,
    act: ActId,
    verb: Verb,
) -> Result<(), End>
    ensures worker { pass.new.worker ≡ pass.old.worker }
    ensures run { (gained : List Note) × (pass.new.receipts ≡ pass.old.receipts ++ gained)
        × MatchResult result (λ _. (held : List Act) → Adds (steps.Apply verb) (act ∷ held) (act ∷ held) gained)
        (λ end. (held : List Act) → Closes (steps.Apply verb) (act ∷ held) end gained) }
    ensures unstopped { IfErr result (λ end. IsUnstopped end) }
{
    let Ok(reply) = attempt(rt, monitor, pass, Attempt::Apply(act, verb)) else {
        return Err(End::NoMemory);
    };
    match reply {
        Reply::Used(_) => Ok(()),
        Reply::NoRoom => Err(End::NoRoom),
        other => Err(End::Faulted(other)),
    }
}

/// Finishes an activation.
fn leave<L: DeskName, S: Steps, A: Allocator + Copy, R: Wait>(
    rt: &R,
    monitor: &Monitor<L, S>,
    pass: &mut Pass<L, A>,
    act: ActId,
) -> Result<(), End>
    ensures worker { pass.new.worker ≡ pass.old.worker }
    ensures run { (gained : List Note) × (pass.new.receipts ≡ pass.old.receipts ++ gained)
        × MatchResult result (λ _. (held : List Act) → Adds steps.Leave (act ∷ held) held gained)
        (λ end. (held : List Act) → Closes steps.Leave (act ∷ held) end gained) }
    ensures unstopped { IfErr result (λ end. IsUnstopped end) }
{
    let Ok(reply) = attempt(rt, monitor, pass, Attempt::Finish(act)) else {
        return Err(End::NoMemory);
    };
    match reply {
        Reply::Finished => Ok(()),
        Reply::NoRoom => Err(End::NoRoom),
        other => Err(End::Faulted(other)),
    }
}

/// Takes a step; a use or a leave is of what was entered last.
pub fn take<L: DeskName, S: Steps, A: Allocator + Copy, R: Wait>(
    rt: &R,
    monitor: &Monitor<L, S>,
    pass: &mut Pass<L, A>,
    entered: &mut Entered,
    step: Step,
) -> Result<(), End>
    requires { MayStep (length entered.old) step }
    ensures worker { pass.new.worker ≡ pass.old.worker }
    ensures run { (gained : List Note) × (pass.new.receipts ≡ pass.old.receipts ++ gained)
        × MatchResult result (λ _. Adds step entered.old entered.new gained) (λ end. Closes step entered.new end gained) }
    ensures ok { OnOk result (length entered.new ≡ entered_after (length entered.old) step) }
    ensures err { OnErr result (entered.new ≡ entered.old) }
    ensures unstopped { IfErr result (λ end. IsUnstopped end) }
{
    match step {
        Step::Enter(op) => {
            let act = enter(rt, monitor, pass, op)?;
            entered.push(act);
        }
        Step::Apply(verb) => apply(rt, monitor, pass, entered.last(), verb)?,
        Step::Leave => {
            leave(rt, monitor, pass, entered.last())?;
            entered.pop();
        }
    }
    Ok(())
}
