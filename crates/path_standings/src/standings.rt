//! How many executions stand behind each `;` of the paths.

ghost use Rattle.std.specs.Prelude.{◌≡◌, ◌+◌, ◌<◌, ◌≤◌, List, length, map, take, drop, IfOk};
ghost use Rattle.path_model.specs.declared.history.Event.{Event};
ghost use Rattle.path_model.specs.Legal.{Legal};
ghost use Rattle.path_model.specs.Declarations.{trees, paths_of};
ghost use Rattle.path_gate.specs.Standings.{IsAt};
ghost use Rattle.path_state.specs.Standings.{stands_after};

use crate::parts::parts_of;
use crate::trees::{same_before, tree_numbered};
use path_decl::{Decl, counts};
use path_gate::Gate;
use path_model::OutOfMemory;
use std::alloc::Allocator;

/// So many values of a list, from this place on. Fails only if allocation fails.
fn values_from<A: Allocator + Copy>(
    alloc: A,
    values: &[u64],
    first: usize,
    count: usize,
) -> Result<Vec<u64, A>, OutOfMemory>
    requires { 0 < count → first + count ≤ length values.now }
    ensures { IfOk result (λ row. row.items ≡ take count (drop first values.now)) }
{
    let mut row = Vec::new(alloc);
    if count > 0 {
        row.extend_from_slice(&values[first..first + count])?;
    }
    Ok(row)
}

/// How many executions stand behind each `;` of each path: their left operand is over, and the right one hasn't begun. A row for each path,
/// in the order of the file, with a number for each `;` in the order of the text.
///
/// Fails only if allocation fails. The cost is a walk over the trees, of which each is compared with those before it.
pub fn stands<A: Allocator + Copy>(
    alloc: A,
    decl: &Decl<A>,
    gate: &Gate<A>,
) -> Result<Vec<Vec<u64, A>, A>, OutOfMemory>
    requires { gate.now.paths ≡ paths_of decl.now.declaration }
    ensures { IfOk result (λ rows. (h : List Event) → Legal gate.now.paths h → IsAt gate.now h
        → map (λ row. row.items) rows.items ≡ map (λ s. stands_after s h) (trees decl.now.declaration)) }
{
    let semaphores = gate.semaphores();
    let mut rows: Vec<Vec<u64, A>, A> = Vec::new(alloc);
    let mut own = 0;
    for number in 0..counts(decl).paths {
        let tree = tree_numbered(decl, number);
        let parts = parts_of(tree);
        let row = match same_before(decl, tree, number) {
            Some(earlier) => {
                let same = rows[earlier as usize].as_slice();
                values_from(alloc, same, 0, same.len())?
            }
            None => values_from(alloc, semaphores, own + 1, parts.semicolons as usize)?,
        };
        rows.push(row)?;
        own += parts.semicolons as usize + parts.bounds as usize + 1;
    }
    Ok(rows)
}
