//! What becomes of a start, and who is next.

ghost use Rattle.std.specs.Prelude.{◌≡◌, ◌<◌, ◌++◌, ◌∷◌, [], List, ℕ, length, true, false, IfOk, OnOk, MatchOption};
ghost use Rattle.path_model.specs.declared.history.Event.{Event};
ghost use Rattle.path_model.specs.declared.history.Event.TheVariants.{Began};
ghost use Rattle.path_model.specs.declared.ids.OpId.{OpId};
ghost use Rattle.path_model.specs.Legal.{Legal};
ghost use Rattle.path_gate.specs.Standings.{Standing, IsAt};
ghost use Rattle.path_order.specs.declared.waiting.Waiter as declared;
ghost use Rattle.path_order.specs.Waiting.{asked, ops_of, NobodyShutsOut};
ghost use Rattle.path_order.specs.Ways.{IsClear, Takes, TakesNothing};
ghost use Rattle.path_order.specs.Rulings.{IsRuled, IsNext};
ghost use Rattle.path_order.specs.Beside.{AreReady};
ghost use Rattle.path_order.specs.Inner.Spares.{IsBehind, IsOver, AreAt, AreOver, AreAlike, IsOne, IsSuch, AllSuch};

use crate::spare::{Spares, end_all, follow, takes};
use crate::waiting::{Waiter, is_shut_out};
use path_gate::Gate;
use path_model::{OpId, OutOfMemory, PathId};
use std::alloc::Allocator;

/// What becomes of a start.
#[derive(Clone, Copy, Debug, PartialEq, Eq)]
pub enum Ruling {
    /// It may go to the gate, which will admit it.
    Goes,
    /// The first path in the file that forbids it.
    Refused(PathId),
    /// It is withheld for the one who has this place among those who wait.
    Withheld(usize),
}

/// Whether a start takes what a path has free for one ahead who has shut its door before this arrival and whose way is clear. So many paths
/// are looked at.
fn is_taken<A: Allocator + Copy>(
    gate: &Gate<A>,
    clear: &Gate<A>,
    behind: &Gate<A>,
    paths: u32,
    arrived: u64,
    waiter: Waiter,
) -> bool
    requires { AreAlike gate.now clear.now behind.now }
    ensures yes { result ≡ true → (run : List OpId) (h : List Event) (x : OpId) → AreAt gate.now clear.now behind.now run h x
        → IsOne gate.now.paths h run arrived (Takes gate.now.paths paths h x) waiter }
    ensures no { result ≡ false → (run : List OpId) (h : List Event) (x : OpId) → AreAt gate.now clear.now behind.now run h x
        → waiter.shut_at < arrived → IsClear gate.now.paths h run (asked waiter) → TakesNothing gate.now.paths paths h x (asked waiter) }
{
    if waiter.shut_at >= arrived {
        return false;
    }
    match clear.would_admit(OpId(waiter.operation)) {
        Err(_) => false,
        Ok(()) => takes(gate, behind, paths, OpId(waiter.operation)),
    }
}

/// The first of those ahead for whom a start takes what a path has free.
fn first_taken<A: Allocator + Copy>(
    gate: &Gate<A>,
    clear: &Gate<A>,
    behind: &Gate<A>,
    paths: u32,
    arrived: u64,
    ahead: &[Waiter],
) -> Option<usize>
    requires { AreAlike gate.now clear.now behind.now }
    ensures { (run : List OpId) (h : List Event) (x : OpId) → AreAt gate.now clear.now behind.now run h x
        → MatchOption result (AllSuch gate.now.paths h run arrived (TakesNothing gate.now.paths paths h x) ahead.now (length ahead.now))
        (IsSuch gate.now.paths h run arrived (Takes gate.now.paths paths h x) ahead.now) }
{
    for (place, waiter) in ahead.iter().enumerate() {
        if is_taken(gate, clear, behind, paths, arrived, *waiter) {
            return Some(place);
        }
    }
    None
}

/// Whether one ahead has shut its door before this arrival, and its way is clear, and would not be behind a start.
fn is_shut<A: Allocator + Copy>(
    clear: &Gate<A>,
    behind: &Gate<A>,
    arrived: u64,
    waiter: Waiter,
) -> bool
    ensures yes { result ≡ true → (g : Standing) (run : List OpId) (h : List Event) (x : OpId) → AreAlike g clear.now behind.now
        → AreOver g clear.now behind.now run h x
        → IsOne g.paths h run arrived (λ y. IsClear g.paths (h ++ Began x ∷ []) run y → ⊥) waiter }
    ensures no { result ≡ false → (g : Standing) (run : List OpId) (h : List Event) (x : OpId) → AreAlike g clear.now behind.now
        → AreOver g clear.now behind.now run h x → waiter.shut_at < arrived → IsClear g.paths h run (asked waiter)
        → IsClear g.paths (h ++ Began x ∷ []) run (asked waiter) }
{
    if waiter.shut_at >= arrived {
        return false;
    }
    match (
        clear.would_admit(OpId(waiter.operation)),
        behind.would_admit(OpId(waiter.operation)),
    ) {
        (Ok(()), Err(_)) => true,
        _ => false,
    }
}

/// The first of those ahead in whose way a start would stand when all that runs is over.
fn first_shut<A: Allocator + Copy>(
    clear: &Gate<A>,
    behind: &Gate<A>,
    arrived: u64,
    ahead: &[Waiter],
) -> Option<usize>
    ensures { (g : Standing) (run : List OpId) (h : List Event) (x : OpId) → AreAlike g clear.now behind.now
        → AreOver g clear.now behind.now run h x
        → MatchOption result (AllSuch g.paths h run arrived (IsClear g.paths (h ++ Began x ∷ []) run) ahead.now (length ahead.now))
        (IsSuch g.paths h run arrived (λ y. IsClear g.paths (h ++ Began x ∷ []) run y → ⊥) ahead.now) }
{
    for (place, waiter) in ahead.iter().enumerate() {
        if is_shut(clear, behind, arrived, *waiter) {
            return Some(place);
        }
    }
    None
}

/// What becomes of a start that nobody ahead has shut out.
pub fn rule_unopposed<A: Allocator + Copy>(gate: &Gate<A>, asking: Waiter) -> Ruling
    ensures { (paths : ℕ) (run : List OpId) (h : List Event) (ahead : List declared.Waiter) → NobodyShutsOut ahead asking.arrived
        → Legal gate.now.paths h → IsAt gate.now h → IsRuled gate.now.paths paths h run ahead asking result }
{
    match gate.would_admit(OpId(asking.operation)) {
        Ok(()) => Ruling::Goes,
        Err(path) => Ruling::Refused(path),
    }
}

/// What becomes of a start that no path forbids, behind those ahead. Fails only if allocation fails.
fn rule_behind<A: Allocator + Copy>(
    gate: &Gate<A>,
    spares: &mut Spares<A>,
    running: &[u32],
    ahead: &[Waiter],
    asking: Waiter,
) -> Result<Ruling, OutOfMemory>
    requires ready { AreReady gate.now spares.old }
    requires room { gate.now.admitted < 4294967295 }
    requires over { IsOver gate.now (ops_of running.now) spares.old.clear }
    ensures ready { AreReady gate.now spares.new }
    ensures clear { spares.new.clear ≡ spares.old.clear }
    ensures operations { spares.new.operations ≡ spares.old.operations }
    ensures paths { spares.new.paths ≡ spares.old.paths }
    ensures ruled { IfOk result (λ ruling. (h : List Event) → Legal gate.now.paths h → IsAt gate.now h
        → IsRuled gate.now.paths spares.old.paths h (ops_of running.now) ahead.now asking ruling) }
{
    follow(gate, &mut spares.behind, spares.operations, &mut spares.row)?;
    if let Err(path) = spares.behind.admit(OpId(asking.operation)) {
        return Ok(Ruling::Refused(path));
    }
    if let Some(place) = first_taken(
        gate,
        &spares.clear,
        &spares.behind,
        spares.paths,
        asking.arrived,
        ahead,
    ) {
        return Ok(Ruling::Withheld(place));
    }
    end_all(&mut spares.behind, running);
    match first_shut(&spares.clear, &spares.behind, asking.arrived, ahead) {
        Some(place) => Ok(Ruling::Withheld(place)),
        None => Ok(Ruling::Goes),
    }
}

/// What becomes of a start behind those ahead. Fails only if allocation fails.
pub fn rule<A: Allocator + Copy>(
    gate: &Gate<A>,
    spares: &mut Spares<A>,
    running: &[u32],
    ahead: &[Waiter],
    asking: Waiter,
) -> Result<Ruling, OutOfMemory>
    requires ready { AreReady gate.now spares.old }
    requires room { gate.now.admitted < 4294967295 }
    requires over { IsOver gate.now (ops_of running.now) spares.old.clear }
    ensures ready { AreReady gate.now spares.new }
    ensures clear { spares.new.clear ≡ spares.old.clear }
    ensures operations { spares.new.operations ≡ spares.old.operations }
    ensures paths { spares.new.paths ≡ spares.old.paths }
    ensures ruled { IfOk result (λ ruling. (h : List Event) → Legal gate.now.paths h → IsAt gate.now h
        → IsRuled gate.now.paths spares.old.paths h (ops_of running.now) ahead.now asking ruling) }
{
    match gate.would_admit(OpId(asking.operation)) {
        Err(path) => Ok(Ruling::Refused(path)),
        Ok(()) => rule_behind(gate, spares, running, ahead, asking),
    }
}

/// What becomes of a start of one who waits, behind those ahead. Fails only if allocation fails.
fn rule_next<A: Allocator + Copy>(
    gate: &Gate<A>,
    spares: &mut Spares<A>,
    running: &[u32],
    ahead: &[Waiter],
    asking: Waiter,
) -> Result<Ruling, OutOfMemory>
    requires ready { AreReady gate.now spares.old }
    requires room { gate.now.admitted < 4294967295 }
    requires over { IsOver gate.now (ops_of running.now) spares.old.clear }
    ensures ready { AreReady gate.now spares.new }
    ensures clear { spares.new.clear ≡ spares.old.clear }
    ensures operations { spares.new.operations ≡ spares.old.operations }
    ensures paths { spares.new.paths ≡ spares.old.paths }
    ensures ruled { IfOk result (λ ruling. (h : List Event) → Legal gate.now.paths h → IsAt gate.now h
        → IsRuled gate.now.paths spares.old.paths h (ops_of running.now) ahead.now asking ruling) }
{
    if is_shut_out(ahead, asking.arrived) {
        rule(gate, spares, running, ahead, asking)
    } else {
        Ok(rule_unopposed(gate, asking))
    }
}

/// Brings the spare gate to where the gate would be if all that is in progress for those who run were over. Fails only if allocation fails.
pub fn clear_all<A: Allocator + Copy>(
    gate: &Gate<A>,
    spares: &mut Spares<A>,
    running: &[u32],
) -> Result<(), OutOfMemory>
    requires ready { AreReady gate.now spares.old }
    ensures ready { AreReady gate.now spares.new }
    ensures operations { spares.new.operations ≡ spares.old.operations }
    ensures paths { spares.new.paths ≡ spares.old.paths }
    ensures over { OnOk result (IsOver gate.now (ops_of running.now) spares.new.clear) }
{
    follow(gate, &mut spares.clear, spares.operations, &mut spares.row)?;
    end_all(&mut spares.clear, running);
    Ok(())
}

/// Whether one at an earlier place waits for the same operation, and came earlier. Only that of the given place is looked at.
fn is_behind(waiting: &[Waiter], earlier: usize, place: usize) -> bool
    requires { place < length waiting.now }
    ensures { result ≡ true → IsBehind waiting.now place }
{
    if earlier >= place {
        return false;
    }
    let before = waiting[earlier];
    let waiter = waiting[place];
    before.operation == waiter.operation && before.arrived < waiter.arrived
}

/// The place that is kept of an operation, or any number.
fn kept_place(places: &[usize], operation: u32) -> usize {
    match places.get(operation as usize) {
        Some(place) => *place,
        None => 0,
    }
}

/// Keeps a place of an operation, if it is declared.
fn keep_place(places: &mut [usize], operation: u32, place: usize) {
    if let Some(kept) = places.get_mut(operation as usize) {
        *kept = place;
    }
}

/// The first of those who wait whose start is neither refused nor withheld. Who waits for the same as one before it, and came later, is
/// held back as that one is; so each operation is tried once. Fails only if allocation fails.
pub fn first_free<A: Allocator + Copy>(
    gate: &Gate<A>,
    spares: &mut Spares<A>,
    looked_at: &mut [usize],
    waiting: &[Waiter],
    running: &[u32],
) -> Result<Option<usize>, OutOfMemory>
    requires ready { AreReady gate.now spares.old }
    requires room { gate.now.admitted < 4294967295 }
    ensures ready { AreReady gate.now spares.new }
    ensures operations { spares.new.operations ≡ spares.old.operations }
    ensures paths { spares.new.paths ≡ spares.old.paths }
    ensures next { IfOk result (λ found. (h : List Event) → Legal gate.now.paths h → IsAt gate.now h
        → IsNext gate.now.paths spares.old.paths h (ops_of running.now) waiting.now found) }
{
    clear_all(gate, spares, running)?;
    for (place, waiter) in waiting.iter().enumerate() {
        if !is_behind(waiting, kept_place(looked_at, waiter.operation), place) {
            let ahead = &waiting[..place];
            if let Ruling::Goes = rule_next(gate, spares, running, ahead, *waiter)? {
                return Ok(Some(place));
            }
            keep_place(looked_at, waiter.operation, place);
        }
    }
    Ok(None)
}
