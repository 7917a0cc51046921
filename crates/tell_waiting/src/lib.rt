//! What a worker waits for: the start that its last attempt asked for, if a path refused it and nothing finished since.
#![tactic(auto)]

ghost use Rattle.std.specs.Prelude.{List, ◌∷◌, ◌++◌, [], IfNone, IfSome};
ghost use Rattle.path_model.specs.declared.ids.OpId.{OpId as Op};
ghost use Rattle.path_model.specs.declared.journal.Line.{Line as Told};
ghost use Rattle.tell_waiting.specs.Waiting.{WaitsFor, WaitsUntilAFinish};

use path_model::{Attempt, Line, OpId, Reply};

/// What a worker asked for by a line of its own, if a path refused that.
fn refused_in(line: &Line) -> Option<OpId>
    ensures some { IfSome result (λ a. (ls : List Told) → WaitsFor line.now.worker a (ls ++ line.now ∷ [])) }
    ensures none { IfNone result ((a : Op) (ls : List Told) → WaitsFor line.now.worker a (ls ++ line.now ∷ []) → ⊥) }
{
    match (line.attempt, line.reply) {
        (Attempt::Start(op), Reply::Blocked(_)) => Some(op),
        _ => None,
    }
}

/// What the worker waits for behind one more line, of what it waited for before it.
pub fn waits_behind(waits: Option<OpId>, line: &Line, worker: u32) -> Option<OpId>
    ensures some { IfSome result (λ a. (ls : List Told) → IfSome waits (λ b. WaitsFor worker b ls)
        → WaitsFor worker a (ls ++ line.now ∷ [])) }
    ensures none { IfNone result ((a : Op) (ls : List Told) → (IfNone waits ((b : Op) → WaitsFor worker b ls → ⊥))
        → WaitsFor worker a (ls ++ line.now ∷ []) → ⊥) }
{
    if line.worker == worker {
        return refused_in(line);
    }
    if let Reply::Finished = line.reply {
        return None;
    }
    waits
}

/// Before an operation for which a worker waits is started by anybody, something finishes.
pub fn waiting_lasts_until_a_finish()
    ensures lasts { WaitsUntilAFinish }
{}

/// The operation for whose start the worker waits after these lines; `None` if it waits for none. Before it can start, something has to
/// finish ([`waiting_lasts_until_a_finish`]). One pass over the lines.
pub fn waits_for(lines: &[Line], worker: u32) -> Option<OpId>
    ensures some { IfSome result (λ a. WaitsFor worker a lines.now) }
    ensures none { IfNone result ((a : Op) → WaitsFor worker a lines.now → ⊥) }
{
    let mut waits = None;
    for line in lines {
        waits = waits_behind(waits, line, worker);
    }
    waits
}
