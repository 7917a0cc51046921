//! What is left of the bounds of a tree, and how much is underway in its braces.

ghost use Rattle.std.specs.Prelude.{◌≡◌, ◌+◌, ◌++◌, ◌^◌, ◌<◌, ◌≤◌, length, All, OnOk, IfOk};
ghost use Rattle.path_model.specs.Trees.{shape};
ghost use Rattle.path_model.specs.Machine.{semicolons};
ghost use Rattle.path_decl.specs.Lawful.{names_count};
ghost use Rattle.path_standings.specs.Told.{progress_of};
ghost use Rattle.path_standings.specs.Numbers.{spares, tallies};
ghost use Rattle.path_standings.specs.Misfits.{AreFew};

use crate::walk::walk;
use path_model::{Expr, OutOfMemory};
use std::alloc::Allocator;

/// Appends what is left of each bound, and how many executions are underway in each pair of braces, and gives the place of the first `;`
/// behind the tree, whose own first `;` has this place. Fails only if allocation fails. The cost is one look at each part.
pub fn push_numbers<A: Allocator + Copy>(
    tree: &Expr<A>,
    place: usize,
    in_progress: &[u64],
    row: &[u64],
    left: &mut Vec<u64, A>,
    inside: &mut Vec<u64, A>,
) -> Result<usize, OutOfMemory>
    requires within { place + semicolons (shape tree.now) ≤ length row.now }
    requires names { names_count (shape tree.now) ≤ 64 }
    requires counts { All (λ n. n < 2 ^ 32) in_progress.now }
    requires few { AreFew row.now }
    ensures place { IfOk result (λ behind. behind ≡ place + semicolons (shape tree.now)) }
    ensures left { OnOk result (left.new.items ≡
        left.old.items ++ spares (shape tree.now) place (progress_of in_progress.now) row.now) }
    ensures inside { OnOk result (inside.new.items ≡
        inside.old.items ++ tallies (shape tree.now) place (progress_of in_progress.now) row.now) }
{
    match tree {
        Expr::Op(_) => Ok(place),
        Expr::Seq(first, second) => {
            let behind = push_numbers(first, place, in_progress, row, left, inside)?;
            push_numbers(second, behind + 1, in_progress, row, left, inside)
        }
        Expr::Alt(first, second) => {
            let behind = push_numbers(first, place, in_progress, row, left, inside)?;
            push_numbers(second, behind, in_progress, row, left, inside)
        }
        Expr::Burst(inner) => {
            let within = walk(inner, place, in_progress, row);
            inside.push(within.underway)?;
            push_numbers(inner, place, in_progress, row, left, inside)
        }
        Expr::Counted(inner, most) => {
            let within = walk(inner, place, in_progress, row);
            inside.push(within.underway)?;
            left.push(u64::from(*most).saturating_sub(within.underway))?;
            push_numbers(inner, place, in_progress, row, left, inside)
        }
    }
}
