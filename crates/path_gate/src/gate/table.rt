//! The table of a gate: the terms of each operation, and the opening values of all semaphores and counters.

ghost use Rattle.std.specs.Prelude.{◌≡◌, ◌+◌, ◌-◌, ◌<◌, ◌++◌, length, map, All, IfOk, OnOk, replicate, []};
ghost use Rattle.path_model.specs.declared.ids.OpId.{OpId};
ghost use Rattle.path_trim.specs.Rows.{row_of};
ghost use Rattle.path_gate.specs.Inner.Soundness.{IsLaidOut, runs_of};
ghost use Rattle.path_gate.specs.Inner.Initial.{rows_of, terms_for, ops_terms, put_value, put_all, at_zero, IsBelow};

use crate::gate::Term;
use crate::gate::levels::Levels;
use path_model::{OutOfMemory, PathId};
use path_trim::{LeanOp, LeanPath};
use std::alloc::Allocator;

/// All operations have numbers below this.
const OPERATIONS: u32 = 256;

/// How much capacity to reserve for values. If it isn't enough, the lists grow.
#[derive(Clone, Copy)]
pub struct Places {
    /// For the semaphores.
    pub semaphores: usize,
    /// For the counters.
    pub counters: usize,
}

/// Capacity for as many semaphores and counters as these paths have.
pub fn places_for<A: Allocator + Copy>(paths: &[LeanPath<A>]) -> Places {
    let mut places = Places {
        semaphores: 0,
        counters: 0,
    };
    for path in paths {
        places.semaphores = places.semaphores.saturating_add(path.semaphores.len());
        places.counters = places.counters.saturating_add(path.counters.len());
    }
    places
}

/// Makes the list at least this long, with 0 in the new places.
fn reach<A: Allocator + Copy>(values: &mut Vec<u64, A>, places: usize) -> Result<(), OutOfMemory>
    ensures { OnOk result (values.new.items ≡ values.old.items ++ replicate (places - length values.old.items) 0) }
{
    if places <= values.len() {
        return Ok(());
    }
    values.resize(places, 0)?;
    Ok(())
}

/// Writes a value at its number, and 0 in any new places below it.
#[tactic(auto, using(crate::proofs::Appended::put_next))]
fn put_at<A: Allocator + Copy>(
    values: &mut Vec<u64, A>,
    number: u16,
    value: u64,
) -> Result<(), OutOfMemory>
    ensures { OnOk result (values.new.items ≡ put_value values.old.items number value) }
{
    let place = number as usize;
    if place == values.len() {
        values.push(value)?;
        return Ok(());
    }
    reach(values, place + 1)?;
    values[place] = value;
    Ok(())
}

/// Writes the opening values of semaphores at their numbers.
fn put_semaphores<A: Allocator + Copy>(
    values: &mut Vec<u64, A>,
    semaphores: &[(u16, u16)],
) -> Result<(), OutOfMemory>
    ensures { OnOk result (values.new.items ≡ put_all semaphores.now values.old.items) }
{
    for semaphore in semaphores {
        put_at(values, semaphore.0, semaphore.1 as u64)?;
    }
    Ok(())
}

/// Writes 0 at the numbers of counters.
fn put_counters<A: Allocator + Copy>(
    values: &mut Vec<u64, A>,
    counters: &[u16],
) -> Result<(), OutOfMemory>
    ensures { OnOk result (values.new.items ≡ put_all (map at_zero counters.now) values.old.items) }
{
    for counter in counters {
        put_at(values, *counter, 0)?;
    }
    Ok(())
}

/// Adds the terms of a path's operations.
fn add_terms<A: Allocator + Copy>(
    by_op: &mut Vec<Vec<Term, A>, A>,
    path: PathId,
    ops: &[LeanOp],
) -> Result<(), OutOfMemory>
    requires { All (IsBelow (length by_op.old.items)) ops.now }
    ensures kept { OnOk result (length by_op.new.items ≡ length by_op.old.items) }
    ensures added { OnOk result ((a : OpId) → terms_for by_op.new.items a ≡ terms_for by_op.old.items a ++ ops_terms path ops.now a) }
{
    for lean_op in ops {
        let terms = &mut by_op[lean_op.op.0 as usize];
        terms.push(Term {
            path,
            prologue: lean_op.prologue,
            epilogue: lean_op.epilogue,
        })?;
    }
    Ok(())
}

/// Adds a path that is kept: the opening values of its semaphores and counters, and the terms of its operations. The cost is one
/// look at each of these.
pub fn add_path<A: Allocator + Copy>(
    levels: &mut Levels<A>,
    by_op: &mut Vec<Vec<Term, A>, A>,
    path: &LeanPath<A>,
) -> Result<(), OutOfMemory>
    requires { All (IsBelow (length by_op.old.items)) (row_of path.now).ops }
    ensures semaphores { OnOk result (levels.new.semaphores.items ≡ put_all (row_of path.now).semaphores levels.old.semaphores.items) }
    ensures counters { OnOk result (levels.new.counters.items ≡
        put_all (map at_zero (row_of path.now).counters) levels.old.counters.items) }
    ensures kept { OnOk result (length by_op.new.items ≡ length by_op.old.items) }
    ensures added { OnOk result ((a : OpId) →
        terms_for by_op.new.items a ≡ terms_for by_op.old.items a ++ ops_terms path.now.path (row_of path.now).ops a) }
{
    put_semaphores(&mut levels.semaphores, &path.semaphores)?;
    put_counters(&mut levels.counters, &path.counters)?;
    add_terms(by_op, path.path, &path.ops)
}

/// How many terms there are in all lists together, at most `usize::MAX`.
fn length_of_all<A: Allocator + Copy>(by_op: &[Vec<Term, A>]) -> usize {
    let mut length: usize = 0;
    for run in by_op {
        length = length.saturating_add(run.len());
    }
    length
}

/// All terms in one list, with the places where the terms of each operation begin and end.
pub fn in_one_list<A: Allocator + Copy>(
    alloc: A,
    by_op: &[Vec<Term, A>],
) -> Result<(Vec<Term, A>, Vec<(usize, usize), A>), OutOfMemory>
    ensures runs { IfOk result (λ lists. runs_of lists.0.items lists.1.items ≡ rows_of by_op.now) }
    ensures laid_out { IfOk result (λ lists. IsLaidOut lists.0.items lists.1.items) }
{
    let mut terms = Vec::with_capacity(alloc, length_of_all(by_op))?;
    let mut ranges = Vec::with_capacity(alloc, by_op.len())?;
    for run in by_op {
        let start = terms.len();
        terms.extend_from_slice(run)?;
        ranges.push((start, terms.len()))?;
    }
    Ok((terms, ranges))
}

/// Counts each of these operations once more, up to `u32::MAX`.
fn count_ops(counts: &mut [u32], ops: &[LeanOp]) {
    for lean_op in ops {
        if let Some(count) = counts.get_mut(lean_op.op.0 as usize) {
            *count = count.saturating_add(1);
        }
    }
}

/// How many of these paths name each operation.
fn count_paths<A: Allocator + Copy>(
    alloc: A,
    paths: &[LeanPath<A>],
) -> Result<Vec<u32, A>, OutOfMemory>
    ensures { IfOk result (λ v. length v.items ≡ 256) }
{
    let mut counts = no_counts(alloc)?;
    for path in paths {
        count_ops(&mut counts, &path.ops);
    }
    Ok(counts)
}

/// An empty list of terms for each operation, with capacity for those that these paths will add.
pub fn no_terms<A: Allocator + Copy>(
    alloc: A,
    paths: &[LeanPath<A>],
) -> Result<Vec<Vec<Term, A>, A>, OutOfMemory>
    ensures { IfOk result (λ v. rows_of v.items ≡ replicate 256 []) }
{
    let counts = count_paths(alloc, paths)?;
    let mut by_op = Vec::with_capacity(alloc, counts.len())?;
    for count in &counts {
        by_op.push(Vec::with_capacity(alloc, *count as usize)?)?;
    }
    Ok(by_op)
}

/// A count of 0 for each operation.
pub fn no_counts<A: Allocator + Copy>(alloc: A) -> Result<Vec<u32, A>, OutOfMemory>
    ensures { IfOk result (λ v. v.items ≡ replicate 256 0) }
{
    let mut counts = Vec::new(alloc);
    counts.resize(OPERATIONS as usize, 0)?;
    Ok(counts)
}
