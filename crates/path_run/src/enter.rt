//! Enters, which wait while a path blocks them.

ghost use Rattle.std.specs.Prelude.{◌≡◌, ◌∷◌, ◌++◌, List, MatchResult, IfErr};
ghost use Rattle.path_model.specs.declared.ids.ActId.{ActId as Act};
ghost use Rattle.path_script.specs.declared.script.Step.TheVariants as steps;
ghost use Rattle.path_workers.specs.declared.answer.Receipt.{Receipt as Note};
ghost use Rattle.path_run.specs.Stopped.{IsUnstopped};
ghost use Rattle.path_run.specs.Inner.Parts.{Adds, Closes, HasTried, IsUnstoppedTry};

use crate::monitor::{Admission, Monitor, Outlook};
use crate::outcome::End;
use path_model::{ActId, OpId};
use path_workers::{DeskName, Pass, Steps};
use std::alloc::Allocator;
use std::sync::Wait;

/// The result of one try to enter.
enum Tried {
    /// It was admitted.
    Entered(ActId),
    /// It was blocked, and a finish has been admitted since.
    Freed,
    /// The process ends.
    Ended(End),
}

/// Tries once. If a path blocks it, waits for a finish or for the mark that all wait.
fn try_once<L: DeskName, S: Steps, A: Allocator + Copy, R: Wait>(
    rt: &R,
    monitor: &Monitor<L, S>,
    pass: &mut Pass<L, A>,
    op: OpId,
) -> Tried
    ensures worker { pass.new.worker ≡ pass.old.worker }
    ensures run { (gained : List Note) × (pass.new.receipts ≡ pass.old.receipts ++ gained) × HasTried op gained result }
    ensures unstopped { IsUnstoppedTry result }
{
    let mut state = monitor.state.lock(rt);
    let seen = match state.start(pass, op) {
        Admission::Entered(act) => return Tried::Entered(act),
        Admission::Ended(end) => return Tried::Ended(end),
        Admission::Blocked(seen) => seen,
    };
    if state.stalled {
        monitor.freed.notify_all();
    }
    let state = monitor
        .freed
        .wait_while(rt, state, |s| s.outlook(seen) == Outlook::Waits);
    match state.outlook(seen) {
        Outlook::Freed => Tried::Freed,
        Outlook::Stalled => Tried::Ended(End::Stalled(op)),
        Outlook::Waits => unreachable!(),
    }
}

/// Tries to enter until the start is admitted or the process ends. Each further try comes after an admitted finish.
pub fn enter<L: DeskName, S: Steps, A: Allocator + Copy, R: Wait>(
    rt: &R,
    monitor: &Monitor<L, S>,
    pass: &mut Pass<L, A>,
    op: OpId,
) -> Result<ActId, End>
    ensures worker { pass.new.worker ≡ pass.old.worker }
    ensures run { (gained : List Note) × (pass.new.receipts ≡ pass.old.receipts ++ gained)
        × MatchResult result (λ act. (held : List Act) → Adds (steps.Enter op) held (act ∷ held) gained)
        (λ end. (held : List Act) → Closes (steps.Enter op) held end gained) }
    ensures unstopped { IfErr result (λ end. IsUnstopped end) }
{
    for _ in rt.forever() {
        match try_once(rt, monitor, pass, op) {
            Tried::Entered(act) => return Ok(act),
            Tried::Freed => {}
            Tried::Ended(end) => return Err(end),
        }
    }
    unreachable!()
}
