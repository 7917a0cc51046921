//! The values of a gate whose paths stand so.

ghost use Rattle.std.specs.Prelude.{◌≡◌, ◌+◌, ◌^◌, ◌<◌, ◌≤◌, length, All, OnOk};
ghost use Rattle.path_model.specs.Trees.{shape};
ghost use Rattle.path_model.specs.Trimmed.{is_burst};
ghost use Rattle.path_decl.specs.Lawful.{names_count};
ghost use Rattle.path_state.specs.Pasts.{CanStand};
ghost use Rattle.path_gate.specs.Levels.{levels};
ghost use Rattle.path_standings.specs.Told.{rows_of, progress_of};
ghost use Rattle.path_standings.specs.Misfits.{AreFew, PathsCanStand};
ghost use Rattle.path_standings.specs.Written.{WritesFrom, WritesPath, WritesPaths};

use crate::numbers::push_numbers;
use crate::parts::parts_of;
use crate::trees::{row_numbered, same_before, tree_numbered};
use crate::walk::walk;
use path_decl::{Decl, counts};
use path_model::{Expr, OutOfMemory};
use std::alloc::Allocator;

/// Writes numbers over those from this place on. Those past the end of the list are left out.
fn write_from(values: &mut [u64], first: usize, numbers: &[u64])
    requires { first + length numbers.now < 2 ^ 64 }
    ensures { WritesFrom values.old values.new first numbers.now }
{
    for k in 0..numbers.len() {
        if first + k < values.len() {
            values[first + k] = numbers[k];
        }
    }
}

/// Whether the whole tree is one pair of braces.
fn is_whole<A: Allocator + Copy>(tree: &Expr<A>) -> bool
    ensures { result ≡ is_burst (shape tree.now) }
{
    match tree {
        Expr::Op(_) | Expr::Seq(_, _) | Expr::Alt(_, _) => false,
        Expr::Burst(_) | Expr::Counted(_, _) => true,
    }
}

/// Writes the values of a path that stands so, whose own semaphore and first braces have these numbers. Fails only if allocation fails.
fn write_path<A: Allocator + Copy>(
    alloc: A,
    tree: &Expr<A>,
    in_progress: &[u64],
    row: &[u64],
    own: usize,
    first: usize,
    semaphores: &mut [u64],
    counters: &mut [u64],
) -> Result<(), OutOfMemory>
    requires small { own + first < 2 ^ 32 }
    requires names { names_count (shape tree.now) ≤ 64 }
    requires counts { All (λ n. n < 2 ^ 32) in_progress.now }
    requires few { AreFew row.now }
    requires can { CanStand (shape tree.now) (progress_of in_progress.now) row.now }
    ensures { OnOk result (WritesPath (levels semaphores.old counters.old) (levels semaphores.new counters.new)
        (progress_of in_progress.now) row.now (record { tree = shape tree.now; own = own; first = first })) }
{
    let walked = walk(tree, 0, in_progress, row);
    let mut left = Vec::new(alloc);
    let mut inside = Vec::new(alloc);
    push_numbers(tree, 0, in_progress, row, &mut left, &mut inside)?;
    write_from(semaphores, own + 1, row);
    write_from(semaphores, own + 1 + row.len(), &left);
    if !is_whole(tree) {
        write_from(semaphores, own, &[1 - walked.underway]);
        write_from(counters, first, &inside);
    }
    Ok(())
}

/// Writes the values of all paths, which can stand so, over those of a gate that was opened. Fails only if allocation fails.
pub fn write_paths<A: Allocator + Copy>(
    alloc: A,
    decl: &Decl<A>,
    in_progress: &[u64],
    rows: &[Vec<u64, A>],
    semaphores: &mut [u64],
    counters: &mut [u64],
) -> Result<(), OutOfMemory>
    requires rows { length rows.now ≡ length decl.now.declaration.paths }
    requires counts { All (λ n. n < 2 ^ 32) in_progress.now }
    requires can { PathsCanStand decl.now.declaration in_progress.now (rows_of rows.now) }
    ensures { OnOk result (WritesPaths decl.now.declaration in_progress.now (rows_of rows.now) (length decl.now.declaration.paths)
        (levels semaphores.old counters.old) (levels semaphores.new counters.new)) }
{
    let mut own = 0;
    let mut first = 0;
    for number in 0..counts(decl).paths {
        let tree = tree_numbered(decl, number);
        let parts = parts_of(tree);
        match same_before(decl, tree, number) {
            Some(_) => {}
            None => {
                let row = row_numbered(rows, number);
                write_path(
                    alloc,
                    tree,
                    in_progress,
                    row,
                    own,
                    first,
                    semaphores,
                    counters,
                )?;
            }
        }
        own += parts.semicolons as usize + parts.bounds as usize + 1;
        first += parts.braces as usize;
    }
    Ok(())
}
