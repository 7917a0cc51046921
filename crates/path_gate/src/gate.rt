//! Admission over several paths.
//!
//! Each path is a few semaphores and counters, as Campbell and Habermann describe (1974), of which only the useful ones are left.
//! Those of all paths are in one table. A start does its prologue in each path that names its operation, and is refused if one of
//! these can't pass; a finish does its epilogues. `specs/Standings.antt` says at which histories a gate is, and what it decides there.

ghost use Rattle.std.specs.Prelude.{◌≡◌, ◌≢◌, ◌+◌, ◌++◌, ◌<◌, ◌≤◌, ℕ, List, [], length, All, slice_index, slice_index_or};
ghost use Rattle.std.specs.Prelude.{IfOk, OnOk, OnErr, MatchResult};
ghost use Rattle.path_model.specs.Trees.{Names};
ghost use Rattle.path_model.specs.Legal as legal;
ghost use Rattle.path_gate.specs.Standings.{IsNamed, IsAt, Judges, Tells, Admitted, BlocksStay, Released, SamePlaces};
ghost use Rattle.path_gate.specs.Standings.{AreCounts, HavePlaces, HavePasts, CanHave, Restored};
ghost use Rattle.path_gate.specs.Levels.{levels_in};
ghost use Rattle.path_gate.specs.Inner.Terms.{IsWithin, blocking, is_blocked_at, all_started, all_finished};
ghost use Rattle.path_gate.specs.Inner.Terms.{CanStartAll, CanFinishAll, one_more, one_less};
ghost use Rattle.path_gate.specs.Inner.Soundness.{IsLaidOut, runs_of};

mod levels;
mod table;

use crate::gate::levels::Levels;
use crate::gate::table::{add_path, in_one_list, no_counts, no_terms, places_for};
use path_code::{Epilogue, Prologue};
use path_model::{OpId, OutOfMemory, PathId};
use path_trim::{Lean, kept};
use std::alloc::{Allocator, Global};
use std::marker::Model;
use std::snapshot::Snapshot;

/// What an operation does in one path that names it.
#[derive(Clone, Copy)]
struct Term {
    /// The path.
    path: PathId,
    /// What a start waits on; `None` if it always passes.
    prologue: Option<Prologue>,
    /// What a finish gives back; `None` if it gives nothing back.
    epilogue: Option<Epilogue>,
}

/// The first path whose prologue can't pass, as the error. Writes nothing.
fn first_blocked<A: Allocator + Copy>(levels: &Levels<A>, terms: &[Term]) -> Result<(), PathId>
    requires { All (IsWithin (length levels.now.semaphores.items) (length levels.now.counters.items)) terms.now }
    ensures { MatchResult result
        (λ _. blocking terms.now (levels_in levels.now) ≡ None)
        (λ path. blocking terms.now (levels_in levels.now) ≡ Some path) }
{
    for term in terms {
        if !levels.can_pass(term.prologue) {
            return Err(term.path);
        }
    }
    Ok(())
}

/// Whether a term of the path can't pass. Writes nothing.
fn is_blocked<A: Allocator + Copy>(levels: &Levels<A>, terms: &[Term], path: PathId) -> bool
    requires { All (IsWithin (length levels.now.semaphores.items) (length levels.now.counters.items)) terms.now }
    ensures { result ≡ is_blocked_at path.0 terms.now (levels_in levels.now) }
{
    for term in terms {
        if term.path == path && !levels.can_pass(term.prologue) {
            return true;
        }
    }
    false
}

/// Does the prologues of all terms.
fn start_all<A: Allocator + Copy>(levels: &mut Levels<A>, terms: &[Term])
    requires within { All (IsWithin (length levels.old.semaphores.items) (length levels.old.counters.items)) terms.now }
    requires can { CanStartAll terms.now (levels_in levels.old) }
    ensures { levels_in levels.new ≡ all_started terms.now (levels_in levels.old) }
{
    for term in terms {
        levels.start(term.prologue);
    }
}

/// Does the epilogues of all terms.
fn finish_all<A: Allocator + Copy>(levels: &mut Levels<A>, terms: &[Term])
    requires within { All (IsWithin (length levels.old.semaphores.items) (length levels.old.counters.items)) terms.now }
    requires can { CanFinishAll terms.now (levels_in levels.old) }
    ensures { levels_in levels.new ≡ all_finished terms.now (levels_in levels.old) }
{
    for term in terms {
        levels.finish(term.epilogue);
    }
}

/// Counts one more execution of an operation that a path names.
fn count_start(in_progress: &mut [u32], terms: &[Term], op: OpId)
    requires within { terms.now ≢ [] → op.0 < length in_progress.old }
    requires small { terms.now ≢ [] → slice_index in_progress.old op.0 + 1 < 4294967296 }
    ensures { in_progress.new ≡ one_more terms.now op.0 in_progress.old }
{
    if !terms.is_empty() {
        in_progress[op.0 as usize] += 1;
    }
}

/// Counts one execution less of an operation that a path names.
fn count_finish(in_progress: &mut [u32], terms: &[Term], op: OpId)
    requires within { terms.now ≢ [] → op.0 < length in_progress.old }
    requires some { terms.now ≢ [] → 0 < slice_index in_progress.old op.0 }
    ensures { in_progress.new ≡ one_less terms.now op.0 in_progress.old }
{
    if !terms.is_empty() {
        in_progress[op.0 as usize] -= 1;
    }
}

/// Writes counts over the first ones of a list. Those past its end are left out.
fn write_counts(places: &mut [u32], counts: &[u64])
    requires { All (λ n. n < 4294967296) counts.now }
    ensures length { length places.new ≡ length places.old }
    ensures written { (i : ℕ) → i < length places.old → i < length counts.now → slice_index places.new i ≡ slice_index counts.now i }
    ensures others { (i : ℕ) → length counts.now ≤ i → slice_index places.new i ≡ slice_index places.old i }
{
    for i in 0..places.len().min(counts.len()) {
        places[i] = counts[i] as u32;
    }
}

/// The terms of an operation; none if no path names it.
fn run_of<'a>(terms: &'a [Term], ranges: &[(usize, usize)], op: OpId) -> &'a [Term]
    requires { IsLaidOut terms.now ranges.now }
    ensures { result.now ≡ slice_index_or (runs_of terms.now ranges.now) op.0 [] }
{
    match ranges.get(op.0 as usize) {
        Some((start, end)) => &terms[*start..*end],
        None => &[],
    }
}

/// Admission over all paths of a declaration. Contracts see the trees of its paths, the values of its semaphores and counters, how
/// often each operation is in progress, and how many starts were admitted.
#[derive(Drop)]
pub struct Gate<A: Allocator + Copy = Global> {
    /// What the gate was opened with. Only contracts read it, and it takes no memory.
    lean: Snapshot<Lean<A>>,
    /// The terms of all operations, those of each in the order of the paths.
    terms: Vec<Term, A>,
    /// Where the terms of each operation begin and end.
    ranges: Vec<(usize, usize), A>,
    /// The values of the semaphores and counters.
    levels: Levels<A>,
    /// How often each operation that a path names is in progress; 0 for the others.
    in_progress: Vec<u32, A>,
    admitted: u32,
}

impl<A: Allocator + Copy> Model for Gate<A> {
    ghost use Rattle.path_gate.specs.Standings.{Standing, standing_code};
    ghost use Rattle.path_gate.specs.Inner.Inside.{standing_in, IsKeeping};

    ghost Value = { Standing };

    ghost coded = { standing_code };

    ghost view = { standing_in };

    ghost invariant = { IsKeeping };
}

impl<A: Allocator + Copy> Gate<A> {
    /// Opens a gate over trimmed paths, with nothing in progress and nothing admitted.
    ///
    /// Fails only if allocation fails; nothing is kept then. All memory of the gate is allocated here. The cost is one look at each
    /// semaphore and counter of the paths that are kept, three at each of their operations, and a place for each operation.
    pub fn open(alloc: A, lean: Lean<A>) -> Result<Gate<A>, OutOfMemory>
        ensures paths { IfOk result (λ gate. gate.paths ≡ legal.numbered 0 lean.trees) }
        ensures opened { IfOk result (λ gate. IsAt gate []) }
        ensures admitted { IfOk result (λ gate. gate.admitted ≡ 0) }
    {
        let places = places_for(kept(&lean));
        let semaphores = Vec::with_capacity(alloc, places.semaphores)?;
        let counters = Vec::with_capacity(alloc, places.counters)?;
        let mut levels = Levels {
            semaphores,
            counters,
        };
        let mut by_op = no_terms(alloc, kept(&lean))?;
        for path in kept(&lean) {
            add_path(&mut levels, &mut by_op, path)?;
        }
        let opened = Snapshot::of(&lean);
        drop(lean); // so that the list of all terms takes its place
        let (terms, ranges) = in_one_list(alloc, &by_op)?;
        let in_progress = no_counts(alloc)?;
        Ok(Gate {
            lean: opened,
            terms,
            ranges,
            levels,
            in_progress,
            admitted: 0,
        })
    }

    /// Whether a start of the operation would be admitted; the error is the first path in the file that forbids it.
    ///
    /// An operation that no path names is always let through. Changes nothing and allocates nothing. The cost is one look at a
    /// prologue for each path that names the operation.
    pub fn would_admit(&self, op: OpId) -> Result<(), PathId>
        ensures { Judges self.now op result }
    {
        let terms = run_of(&self.terms, &self.ranges, op);
        first_blocked(&self.levels, terms)
    }

    /// Whether this path forbids a start of the operation now: it names the operation, and the start would leave its behaviour. The path
    /// is one whose tree no earlier path has; for any other, which the earlier one makes useless, the answer is `false`.
    ///
    /// Changes nothing and allocates nothing. The cost is one look at each path that names the operation.
    pub fn forbids(&self, path: PathId, op: OpId) -> bool
        ensures { Tells self.now path.0 op result }
    {
        let terms = run_of(&self.terms, &self.ranges, op);
        is_blocked(&self.levels, terms, path)
    }

    /// Admits a start of the operation; the error is the first path in the file that forbids it.
    ///
    /// Every path is asked before anything is written, so after an error the gate is as it was. After a start each path that forbade
    /// an operation still forbids it. Fewer than 4,294,967,295 starts may have been admitted before. Allocates nothing. The cost is
    /// two passes over the paths that name the operation.
    pub fn admit(&mut self, op: OpId) -> Result<(), PathId>
        requires { self.old.admitted < 4294967295 }
        ensures judges { Judges self.old op result }
        ensures ok { OnOk result (Admitted self.old op self.new) }
        ensures blocks { OnOk result (BlocksStay self.old op) }
        ensures err { OnErr result (self.new ≡ self.old) }
        ensures places { OnOk result (SamePlaces self.old self.new) }
    {
        let terms = run_of(&self.terms, &self.ranges, op);
        match first_blocked(&self.levels, terms) {
            Err(path) => Err(path),
            Ok(()) => {
                start_all(&mut self.levels, terms);
                count_start(&mut self.in_progress, terms, op);
                self.admitted += 1;
                Ok(())
            }
        }
    }

    /// Ends an execution of the operation, which must be in progress if a path names it. Without a path that names it, nothing changes.
    ///
    /// Allocates nothing. The cost is one pass over the paths that name the operation.
    #[inline(always)]
    pub fn release(&mut self, op: OpId)
        requires { IsNamed self.old.paths op → 0 < slice_index self.old.in_progress op.0 }
        ensures moves { Released self.old op self.new }
        ensures unnamed { legal.NoneOf (λ s. Names s op) self.old.paths → self.new ≡ self.old }
        ensures places { SamePlaces self.old self.new }
    {
        let terms = run_of(&self.terms, &self.ranges, op);
        finish_all(&mut self.levels, terms);
        count_finish(&mut self.in_progress, terms, op);
    }

    /// How many starts were admitted since the gate was opened, or since [`restore`](Gate::restore) and what that was told.
    pub fn admitted(&self) -> u32
        ensures value { result ≡ self.now.admitted }
        ensures pasts { HavePasts self.now }
    {
        self.admitted
    }

    /// How many executions of the operation began and haven't ended; 0 for an operation that no path names.
    pub fn in_progress(&self, op: OpId) -> u32
        ensures counted { result ≡ slice_index self.now.in_progress op.0 }
        ensures unnamed { legal.NoneOf (λ s. Names s op) self.now.paths → result ≡ 0 }
    {
        match self.in_progress.get(op.0 as usize) {
            Some(count) => *count,
            None => 0,
        }
    }

    /// Appends how often each of the first operations is in progress, as [`restore`](Gate::restore) takes it. Fails only if allocation
    /// fails.
    pub fn push_counts(&self, operations: u32, row: &mut Vec<u64, A>) -> Result<(), OutOfMemory>
        ensures { OnOk result ((counts : List ℕ) × (row.new.items ≡ row.old.items ++ counts) × AreCounts self.now operations counts) }
    {
        row.reserve(operations as usize)?;
        for number in 0..operations {
            row.push_reserved(u64::from(self.in_progress(OpId(number))));
        }
        Ok(())
    }

    /// The values of the semaphores, by their numbers in the file. Takes constant time.
    pub fn semaphores(&self) -> &[u64]
        ensures value { result.now ≡ self.now.levels.semaphores }
        ensures places { HavePlaces self.now }
    {
        &self.levels.semaphores
    }

    /// The values of the counters, by their numbers in the file. Takes constant time.
    pub fn counters(&self) -> &[u64]
        ensures { result.now ≡ self.now.levels.counters }
    {
        &self.levels.counters
    }

    /// Puts values into the gate that each of its paths can have, if it is looked at alone: those of the semaphores and the counters, and
    /// how often each of the first operations is in progress, with all that a path names among them. So many starts count as admitted.
    ///
    /// Allocates nothing. The cost is that of copying them.
    pub fn restore(
        &mut self,
        semaphores: &[u64],
        counters: &[u64],
        in_progress: &[u64],
        admitted: u32,
    )
        requires { CanHave self.old semaphores.now counters.now in_progress.now admitted }
        ensures { Restored self.old semaphores.now counters.now in_progress.now admitted self.new }
    {
        self.levels.semaphores.copy_from_slice(semaphores);
        self.levels.counters.copy_from_slice(counters);
        write_counts(&mut self.in_progress, in_progress);
        self.admitted = admitted;
    }
}
