//! Which paths name an operation.

ghost use Rattle.std.specs.Prelude.{◌≡◌, ℕ, ◌<◌, ◌≤◌, ◌++◌, [], ◌∷◌, All, length, map, Some, OnOk, IfOk, slice_get, option_map, replicate};
ghost use Rattle.path_model.specs.Trees.{NoRepeats, shape};
ghost use Rattle.path_decl.specs.Table.{noted, naming_from, times};

use crate::decl::PathEntry;
use path_model::{Expr, OutOfMemory, PathId};
use std::alloc::Allocator;

/// Adds the path to the list of each operation that the tree names, once for each time. Fails only if allocation fails.
fn note<A: Allocator + Copy>(
    naming: &mut Vec<Vec<PathId, A>, A>,
    tree: &Expr<A>,
    path: PathId,
) -> Result<(), OutOfMemory>
    ensures len { length naming.new.items ≡ length naming.old.items }
    ensures noted { OnOk result ((a : ℕ) → noted naming.new.items a
        ≡ option_map (λ ps. ps ++ replicate (times (shape tree.now) (record { 0 = a })) path) (noted naming.old.items a)) }
{
    match tree {
        Expr::Op(op) => {
            if let Some(paths) = naming.get_mut(op.0 as usize) {
                paths.push(path)?;
            }
        }
        Expr::Seq(left, right) | Expr::Alt(left, right) => {
            note(naming, left, path)?;
            note(naming, right, path)?;
        }
        Expr::Burst(inner) | Expr::Counted(inner, _) => note(naming, inner, path)?,
    }
    Ok(())
}

/// An empty list for each operation. Fails only if allocation fails.
fn unnamed<A: Allocator + Copy>(
    alloc: A,
    operations: usize,
) -> Result<Vec<Vec<PathId, A>, A>, OutOfMemory>
    ensures len { IfOk result (λ v. length v.items ≡ operations) }
    ensures empty { IfOk result (λ v. (a : ℕ) → a < operations → noted v.items a ≡ Some []) }
{
    let mut naming = Vec::new(alloc);
    for _made in 0..operations {
        naming.push(Vec::new(alloc))?;
    }
    Ok(naming)
}

/// The paths that name each operation, in order. Fails only if allocation fails.
pub(crate) fn naming_paths<A: Allocator + Copy>(
    alloc: A,
    paths: &[PathEntry<A>],
    operations: usize,
) -> Result<Vec<Vec<PathId, A>, A>, OutOfMemory>
    requires few { length paths.now ≤ 256 }
    requires distinct { All (λ p. NoRepeats (shape p.tree)) paths.now }
    ensures len { IfOk result (λ v. length v.items ≡ operations) }
    ensures named { IfOk result (λ v.
        (a : ℕ) → a < operations → noted v.items a ≡ Some (naming_from 0 (map (λ p. shape p.tree) paths.now) (record { 0 = a }))) }
{
    let mut naming = unnamed(alloc, operations)?;
    for (number, entry) in paths.iter().enumerate() {
        note(&mut naming, &entry.tree, PathId(number as u32))?;
    }
    Ok(naming)
}
