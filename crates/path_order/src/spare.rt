//! Spare gates: what would become of a start, if others went first.

ghost use Rattle.std.specs.Prelude.{◌≡◌, ◌++◌, ◌∷◌, [], List, OnOk, true, false};
ghost use Rattle.path_model.specs.declared.history.Event.{Event};
ghost use Rattle.path_model.specs.declared.history.Event.TheVariants.{Began};
ghost use Rattle.path_model.specs.declared.ids.OpId.{OpId};
ghost use Rattle.path_model.specs.Legal.{Legal};
ghost use Rattle.path_gate.specs.Standings.{IsAt, SamePlaces};
ghost use Rattle.path_order.specs.Waiting.{ops_of};
ghost use Rattle.path_order.specs.Ways.{one_over, all_over, Takes, TakesNothing};
ghost use Rattle.path_order.specs.Beside.{Fits};

use path_gate::Gate;
use path_model::{OpId, OutOfMemory, PathId};
use std::alloc::Allocator;

/// Two spare gates of the same paths, and what they are used with.
#[derive(Drop)]
pub struct Spares<A: Allocator + Copy> {
    /// Where the gate would be if all that is in progress for those who run were over.
    pub clear: Gate<A>,
    /// Where it would be behind a start.
    pub behind: Gate<A>,
    /// How often each operation is in progress, between one gate and another.
    pub row: Vec<u64, A>,
    /// How many operations are declared.
    pub operations: u32,
    /// How many paths are declared.
    pub paths: u32,
}

/// Whether a spare gate has as many semaphores and counters as a gate.
pub fn has_same_places<A: Allocator + Copy>(gate: &Gate<A>, spare: &Gate<A>) -> bool
    ensures { result ≡ true → SamePlaces gate.now spare.now }
{
    if spare.semaphores().len() != gate.semaphores().len() {
        return false;
    }
    if spare.counters().len() != gate.counters().len() {
        return false;
    }
    true
}

/// Brings a spare gate to where the gate is. Fails only if allocation fails.
pub fn follow<A: Allocator + Copy>(
    gate: &Gate<A>,
    spare: &mut Gate<A>,
    operations: u32,
    row: &mut Vec<u64, A>,
) -> Result<(), OutOfMemory>
    requires fits { Fits gate.now spare.old operations }
    ensures fits { Fits gate.now spare.new operations }
    ensures at { OnOk result ((h : List Event) → IsAt gate.now h → IsAt spare.new h) }
    ensures admitted { OnOk result (spare.new.admitted ≡ gate.now.admitted) }
{
    row.clear();
    gate.push_counts(operations, row)?;
    spare.restore(gate.semaphores(), gate.counters(), row, gate.admitted());
    Ok(())
}

/// Ends an execution of the operation, if one is in progress.
fn end_one<A: Allocator + Copy>(spare: &mut Gate<A>, op: OpId)
    ensures paths { spare.new.paths ≡ spare.old.paths }
    ensures places { SamePlaces spare.old spare.new }
    ensures at { (h : List Event) → IsAt spare.old h → IsAt spare.new (one_over spare.old.paths op h) }
{
    if spare.in_progress(op) > 0 {
        spare.release(op);
    }
}

/// Ends what those have in progress who run.
pub fn end_all<A: Allocator + Copy>(spare: &mut Gate<A>, running: &[u32])
    ensures paths { spare.new.paths ≡ spare.old.paths }
    ensures places { SamePlaces spare.old spare.new }
    ensures at { (h : List Event) → IsAt spare.old h → IsAt spare.new (all_over spare.old.paths (ops_of running.now) h) }
{
    for operation in running {
        end_one(spare, OpId(*operation));
    }
}

/// Whether x, behind whose start one gate is, takes what a path has free for y at the other. So many paths are looked at.
pub fn takes<A: Allocator + Copy>(gate: &Gate<A>, behind: &Gate<A>, paths: u32, y: OpId) -> bool
    requires { behind.now.paths ≡ gate.now.paths }
    ensures yes { result ≡ true → (h : List Event) (x : OpId) → Legal gate.now.paths h → IsAt gate.now h
        → Legal gate.now.paths (h ++ Began x ∷ []) → IsAt behind.now (h ++ Began x ∷ []) → Takes gate.now.paths paths h x y }
    ensures no { result ≡ false → (h : List Event) (x : OpId) → Legal gate.now.paths h → IsAt gate.now h
        → Legal gate.now.paths (h ++ Began x ∷ []) → IsAt behind.now (h ++ Began x ∷ []) → TakesNothing gate.now.paths paths h x y }
{
    for path in 0..paths {
        let now = gate.forbids(PathId(path), y);
        let then = behind.forbids(PathId(path), y);
        if then && !now {
            return true;
        }
    }
    false
}
