//! Whether a resource is stuck for ever.

ghost use Rattle.std.specs.Prelude.{◌≡◌, ◌≢◌, ◌<◌, ◌↔◌, List, All, length, IsTrue, IsFalse};
ghost use Rattle.path_model.specs.declared.history.Event.{Event};
ghost use Rattle.path_model.specs.declared.journal.Line.{Line};
ghost use Rattle.path_model.specs.Declarations as declarations;
ghost use Rattle.path_model.specs.Declarations.{paths_of};
ghost use Rattle.path_model.specs.Journals as journals;
ghost use Rattle.path_model.specs.Journals.{admitted_history};
ghost use Rattle.path_model.specs.Legal.{Legal};
ghost use Rattle.path_model.specs.Stuck.{IsStuckAt};
ghost use Rattle.path_gate.specs.Standings.{IsAt};
ghost use Rattle.cmd_explain.specs.Standing.{CanStart, NoneStarts, Starts};

use path_decl::{Decl, counts, resource_of};
use path_gate::Gate;
use path_model::{Activation, OpId, ResId};
use std::alloc::Allocator;

/// Whether the operation belongs to the resource. One that isn't declared counts to the first resource.
fn belongs<A: Allocator + Copy>(decl: &Decl<A>, op: OpId, resource: ResId) -> bool
    ensures { IsTrue result ↔ (declarations.resource_of decl.now.declaration op.0 ≡ resource.0) }
{
    match resource_of(decl, op) {
        Some(own) => own.0 == resource.0,
        None => resource.0 == 0,
    }
}

/// Whether one of the activations is of the resource.
fn has_live<A: Allocator + Copy>(decl: &Decl<A>, live: &[Activation], resource: ResId) -> bool
    ensures some { IsTrue result → All (λ x. declarations.resource_of decl.now.declaration x.op.0 ≢ resource.0) live.now → ⊥ }
    ensures none { IsFalse result → All (λ x. declarations.resource_of decl.now.declaration x.op.0 ≢ resource.0) live.now }
{
    for activation in live {
        if belongs(decl, activation.op, resource) {
            return true;
        }
    }
    false
}

/// Whether the operation is of the resource, and a start of it would be admitted now.
fn starts<A: Allocator + Copy>(decl: &Decl<A>, gate: &Gate<A>, op: OpId, resource: ResId) -> bool
    requires declared { op.0 < length decl.now.declaration.operations }
    requires paths { gate.now.paths ≡ paths_of decl.now.declaration }
    ensures { (h : List Event) → Legal (paths_of decl.now.declaration) h → IsAt gate.now h
        → IsTrue result ↔ Starts decl.now.declaration h resource.0 op }
{
    let own = belongs(decl, op, resource);
    let free = match gate.would_admit(op) {
        Ok(()) => true,
        Err(_) => false,
    };
    own && free
}

/// Whether an operation of the resource would be admitted now.
fn has_startable<A: Allocator + Copy>(decl: &Decl<A>, gate: &Gate<A>, resource: ResId) -> bool
    requires { gate.now.paths ≡ paths_of decl.now.declaration }
    ensures some { (h : List Event) → Legal (paths_of decl.now.declaration) h → IsAt gate.now h
        → IsTrue result → CanStart decl.now.declaration h resource.0 }
    ensures none { (h : List Event) → Legal (paths_of decl.now.declaration) h → IsAt gate.now h
        → IsFalse result → NoneStarts decl.now.declaration h resource.0 }
{
    let total = counts(decl).operations;
    for number in 0..total {
        if starts(decl, gate, OpId(number), resource) {
            return true;
        }
    }
    false
}

/// Whether nothing of the resource can ever be admitted again: none of these activations is of it, and no start of its operations would be
/// admitted now. The gate is that of the declaration; it is at the admitted history of some lines, whose live activations these are.
///
/// Allocates nothing. The cost is a look at each activation, and at each path that names an operation of the resource.
pub fn is_stuck<A: Allocator + Copy>(
    decl: &Decl<A>,
    gate: &Gate<A>,
    live: &[Activation],
    resource: ResId,
) -> bool
    requires { gate.now.paths ≡ paths_of decl.now.declaration }
    ensures { (ls : List Line) → Legal (paths_of decl.now.declaration) (admitted_history ls) → IsAt gate.now (admitted_history ls)
        → live.now ≡ journals.live ls → IsTrue result ↔ IsStuckAt decl.now.declaration ls resource.0 }
{
    let lives = has_live(decl, live, resource);
    let can_start = has_startable(decl, gate, resource);
    let idle = !lives;
    let barred = !can_start;
    idle && barred
}
