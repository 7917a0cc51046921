//! What trimming leaves of one path, and what it removes.

ghost use Rattle.std.specs.Prelude.{◌≡◌, ◌++◌, ◌∷◌, [], true, length, map, drop, if◌then◌else◌, IfOk, OnOk};
ghost use Rattle.path_model.specs.Trees.{shape};
ghost use Rattle.path_model.specs.Flat.{Sited};
ghost use Rattle.path_model.specs.Trimmed as trimmed;
ghost use Rattle.path_code.specs.PathCodes.{IsPathCode};
ghost use Rattle.path_trim.specs.declared.table.Removed.TheVariants.{Semaphore, Counter, Mutex};
ghost use Rattle.path_trim.specs.LeanTable.{lean_row};
ghost use Rattle.path_trim.specs.RemovedList.{values_removed};
ghost use Rattle.path_trim.specs.Rows.{row_of};
ghost use Rattle.path_trim.specs.Inner.Steps.{prologue_kept, epilogue_kept, op_kept};

use crate::table::{LeanOp, LeanPath, Removed};
use path_code::{Epilogue, OpCode, PathCode, Prologue};
use path_model::{Expr, OutOfMemory, PathId};
use std::alloc::Allocator;

/// Whether the whole tree is one pair of braces.
fn is_burst<A: Allocator + Copy>(tree: &Expr<A>) -> bool
    ensures { result ≡ trimmed.is_burst (shape tree.now) }
{
    match tree {
        Expr::Op(_) | Expr::Seq(_, _) | Expr::Alt(_, _) => false,
        Expr::Burst(_) | Expr::Counted(_, _) => true,
    }
}

/// What is left of a prologue; `whole` says whether one pair of braces is the whole path.
fn lean_prologue(whole: bool, prologue: Prologue) -> Option<Prologue>
    ensures { result ≡ prologue_kept whole prologue }
{
    match prologue {
        Prologue::PP { .. } if whole => None,
        Prologue::PPN { bound, .. } if whole => Some(Prologue::P(bound)),
        _ => Some(prologue),
    }
}

/// What is left of an epilogue; `whole` says whether one pair of braces is the whole path.
fn lean_epilogue(whole: bool, epilogue: Epilogue) -> Option<Epilogue>
    ensures { result ≡ epilogue_kept whole epilogue }
{
    match epilogue {
        Epilogue::VV { .. } if whole => None,
        Epilogue::VVN { bound, .. } if whole => Some(Epilogue::V(bound)),
        _ => Some(epilogue),
    }
}

/// What is left of the operations of a path.
fn lean_ops<A: Allocator + Copy>(
    alloc: A,
    whole: bool,
    ops: &[OpCode],
) -> Result<Vec<LeanOp, A>, OutOfMemory>
    ensures { IfOk result (λ v. v.items ≡ map (op_kept whole) ops.now) }
{
    let mut lean = Vec::with_capacity(alloc, ops.len())?;
    for op in ops {
        lean.push(LeanOp {
            op: op.op,
            prologue: lean_prologue(whole, op.prologue),
            epilogue: lean_epilogue(whole, op.epilogue),
        })?;
    }
    Ok(lean)
}

/// A copy of these values.
fn copied<T: Copy, A: Allocator + Copy>(alloc: A, values: &[T]) -> Result<Vec<T, A>, OutOfMemory>
    ensures { IfOk result (λ v. v.items ≡ values.now) }
{
    let mut copies = Vec::with_capacity(alloc, values.len())?;
    copies.extend_from_slice(values)?;
    Ok(copies)
}

/// The semaphores that are left: all but the first if one pair of braces is the whole path, else all.
fn semaphores_left(whole: bool, semaphores: &[(u16, u16)]) -> &[(u16, u16)]
    ensures { let left = if whole then drop 1 semaphores.now else semaphores.now in result.now ≡ left }
{
    match semaphores.split_first() {
        Some((_, others)) if whole => others,
        _ => semaphores,
    }
}

/// The counters that are left: none if one pair of braces is the whole path, else all.
fn counters_left(whole: bool, braces: &[u16]) -> &[u16]
    ensures { let left = if whole then [] else braces.now in result.now ≡ left }
{
    if whole { &[] } else { braces }
}

/// What is left of a path that is kept. One pass over its code.
pub(crate) fn lean_path<A: Allocator + Copy>(
    alloc: A,
    path: PathId,
    code: &PathCode<'_, A>,
) -> Result<LeanPath<A>, OutOfMemory>
    ensures { IfOk result (λ lean. (x : Sited) → IsPathCode x code.now → row_of lean ≡ lean_row (path.0, x)) }
{
    let whole = is_burst(code.tree);
    Ok(LeanPath {
        path,
        semaphores: copied(alloc, semaphores_left(whole, &code.semaphores))?,
        counters: copied(alloc, counters_left(whole, &code.braces))?,
        ops: lean_ops(alloc, whole, &code.ops)?,
    })
}

/// For a path that is one pair of braces: notes that its own semaphore and the counter are removed.
fn note_whole<A: Allocator + Copy>(
    removed: &mut Vec<Removed, A>,
    code: &PathCode<'_, A>,
) -> Result<(), OutOfMemory>
    requires code { (x : Sited) × IsPathCode x code.now }
    requires whole { trimmed.is_burst (shape code.now.tree.now) ≡ true }
    ensures { (x : Sited) → IsPathCode x code.now →
        OnOk result (removed.new.items ≡ removed.old.items ++ Semaphore x.own ∷ Counter x.first ∷ []) }
{
    let (own, _) = code.semaphores[0];
    removed.push(Removed::Semaphore(own))?;
    removed.push(Removed::Counter(code.braces[0]))?;
    Ok(())
}

/// Notes that the mutexes of these pairs of braces are removed.
fn note_mutexes<A: Allocator + Copy>(
    removed: &mut Vec<Removed, A>,
    braces: &[u16],
) -> Result<(), OutOfMemory>
    ensures { OnOk result (removed.new.items ≡ removed.old.items ++ map (λ m. Mutex m) braces.now) }
{
    for pair in braces {
        removed.push(Removed::Mutex(*pair))?;
    }
    Ok(())
}

/// Notes what is removed of a path that is kept, and returns how many things that is. One pass over its braces.
pub(crate) fn note_removed<A: Allocator + Copy>(
    removed: &mut Vec<Removed, A>,
    code: &PathCode<'_, A>,
) -> Result<usize, OutOfMemory>
    requires { (x : Sited) × IsPathCode x code.now }
    ensures noted { (x : Sited) → IsPathCode x code.now → OnOk result (removed.new.items ≡ removed.old.items ++ values_removed x) }
    ensures counted { (x : Sited) → IsPathCode x code.now → IfOk result (λ n. n ≡ length (values_removed x)) }
{
    let before = removed.len();
    if is_burst(code.tree) {
        note_whole(removed, code)?;
    }
    note_mutexes(removed, &code.braces)?;
    Ok(removed.len() - before)
}
