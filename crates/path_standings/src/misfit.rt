//! Whether the paths can stand so, each if it is looked at alone.

ghost use Rattle.std.specs.Prelude.{◌≡◌, ◌<◌, ◌^◌, ◌↔◌, ℕ, length, All, IsTrue, IfSome, IfNone};
ghost use Rattle.path_standings.specs.declared.misfit.StandFault.TheVariants as faults;
ghost use Rattle.std.specs.Bool.{OnTrue, OnFalse};
ghost use Rattle.path_model.specs.Machine.{semicolons};
ghost use Rattle.path_state.specs.Pasts.{underway, BoundsFit};
ghost use Rattle.path_standings.specs.Told.{tree_at, progress_of, row_at, rows_of};
ghost use Rattle.path_standings.specs.Misfits.{AreFew, PathCanStand, PathsCanStand, IsWrong, IsFirstMisfit};

use crate::parts::parts_of;
use crate::trees::{row_numbered, same_before, tree_numbered};
use crate::walk::{Walked, walk};
use path_decl::{Decl, counts};
use path_model::{OutOfMemory, PathId};
use std::alloc::Allocator;
use thiserror::Error;

/// Why a path can't stand so.
#[derive(Clone, Copy, Debug, PartialEq, Eq, Error)]
pub enum Misfit {
    /// There isn't a number for each `;`.
    #[error("not a number for each `;`")]
    Length,
    /// More than 281,474,976,710,655 executions stand behind a `;`.
    #[error("too many stand behind a `;`")]
    Large,
    /// More executions are underway in braces than their bound.
    #[error("more underway in braces than their bound")]
    Bound,
    /// More than one execution of the path is underway.
    #[error("more than one execution underway")]
    Overlap,
    /// Another path with the same tree, before it, stands otherwise.
    #[error("an equal path stands otherwise")]
    Unlike,
}

/// Why there is no gate whose paths stand so.
#[derive(Clone, Copy, Debug, PartialEq, Eq, Error)]
pub enum StandFault {
    /// This path is the first that can't, for this reason.
    #[error("path {}: {}", .0.0, .1)]
    Misfits(PathId, Misfit),
    /// An allocation failed.
    #[error("out of memory")]
    OutOfMemory,
}

impl From<OutOfMemory> for StandFault {
    ghost from_gives = { λ _ e. e ≡ faults.OutOfMemory };

    fn from(_error: OutOfMemory) -> StandFault {
        StandFault::OutOfMemory
    }
}

/// The highest number that may stand behind a `;`.
const MOST: u64 = 281474976710655;

/// Whether no number of a row is too large.
fn are_few(row: &[u64]) -> bool
    ensures { IsTrue result ↔ AreFew row.now }
{
    row.iter().all(|number| *number <= MOST)
}

/// Walks over the tree of a path.
fn walk_path<A: Allocator + Copy>(
    decl: &Decl<A>,
    number: u32,
    in_progress: &[u64],
    row: &[u64],
) -> Walked
    requires declared { number < length decl.now.declaration.paths }
    requires long { length row.now ≡ semicolons (tree_at decl.now.declaration number) }
    requires counts { All (λ n. n < 2 ^ 32) in_progress.now }
    requires few { AreFew row.now }
    ensures underway { result.underway ≡ underway (tree_at decl.now.declaration number) 0 (progress_of in_progress.now) row.now }
    ensures fits { IsTrue result.fits ↔ BoundsFit (tree_at decl.now.declaration number) 0 (progress_of in_progress.now) row.now }
{
    let tree = tree_numbered(decl, number);
    walk(tree, 0, in_progress, row)
}

/// Whether two rows are equal.
fn is_same_row(left: &[u64], right: &[u64]) -> bool
    ensures { IsTrue result ↔ (left.now ≡ right.now) }
{
    left == right
}

/// Whether a path stands as each path before it that has its tree, where these stand alike.
fn is_alike<A: Allocator + Copy>(
    decl: &Decl<A>,
    in_progress: &[u64],
    rows: &[Vec<u64, A>],
    number: u32,
) -> bool
    requires declared { number < length decl.now.declaration.paths }
    requires rows { length rows.now ≡ length decl.now.declaration.paths }
    requires before { (j : ℕ) → j < number → PathCanStand decl.now.declaration in_progress.now (rows_of rows.now) j }
    ensures yes { OnTrue result ((j : ℕ) → j < number → tree_at decl.now.declaration j ≡ tree_at decl.now.declaration number
        → row_at (rows_of rows.now) j ≡ row_at (rows_of rows.now) number) }
    ensures no { OnFalse result (IsWrong decl.now.declaration in_progress.now (rows_of rows.now) number Misfit.Unlike) }
{
    match same_before(decl, tree_numbered(decl, number), number) {
        Some(earlier) => is_same_row(row_numbered(rows, earlier), row_numbered(rows, number)),
        None => true,
    }
}

/// What is wrong with a path; `None` if it can stand so. The cost is a walk over its tree, which is compared with those before it.
fn misfit_of<A: Allocator + Copy>(
    decl: &Decl<A>,
    in_progress: &[u64],
    rows: &[Vec<u64, A>],
    number: u32,
) -> Option<Misfit>
    requires declared { number < length decl.now.declaration.paths }
    requires rows { length rows.now ≡ length decl.now.declaration.paths }
    requires counts { All (λ n. n < 2 ^ 32) in_progress.now }
    requires before { (j : ℕ) → j < number → PathCanStand decl.now.declaration in_progress.now (rows_of rows.now) j }
    ensures some { IfSome result (IsWrong decl.now.declaration in_progress.now (rows_of rows.now) number) }
    ensures none { IfNone result (PathCanStand decl.now.declaration in_progress.now (rows_of rows.now) number) }
{
    let tree = tree_numbered(decl, number);
    let row = row_numbered(rows, number);
    if row.len() != parts_of(tree).semicolons as usize {
        return Some(Misfit::Length);
    }
    if !are_few(row) {
        return Some(Misfit::Large);
    }
    let walked = walk_path(decl, number, in_progress, row);
    if !walked.fits {
        return Some(Misfit::Bound);
    }
    if walked.underway > 1 {
        return Some(Misfit::Overlap);
    }
    if !is_alike(decl, in_progress, rows, number) {
        return Some(Misfit::Unlike);
    }
    None
}

/// The first path that can't stand so, and why; `None` if each can.
pub fn first_misfit<A: Allocator + Copy>(
    decl: &Decl<A>,
    in_progress: &[u64],
    rows: &[Vec<u64, A>],
) -> Option<(PathId, Misfit)>
    requires rows { length rows.now ≡ length decl.now.declaration.paths }
    requires counts { All (λ n. n < 2 ^ 32) in_progress.now }
    ensures some { IfSome result (λ m. IsFirstMisfit decl.now.declaration in_progress.now (rows_of rows.now) m.0.0 m.1) }
    ensures none { IfNone result (PathsCanStand decl.now.declaration in_progress.now (rows_of rows.now)) }
{
    for number in 0..counts(decl).paths {
        if let Some(misfit) = misfit_of(decl, in_progress, rows, number) {
            return Some((PathId(number), misfit));
        }
    }
    None
}
