//! The substitution into one tree, from its root downwards: from left to right the prologue of each name, and on the way back the
//! epilogues.

ghost use Rattle.std.specs.Prelude.{◌≡◌, ◌≤◌, ◌++◌, length, OnOk};
ghost use Rattle.path_model.specs.Trees.{shape, FewAtOnce};
ghost use Rattle.path_code.specs.Inner.Walks.{FitsFrom, NumbersAfter, FitsBelow, IsFlat};
ghost use Rattle.path_code.specs.Inner.Walks.{start_within, end_within, starts_in, bounds_from, ended};

use crate::terms::{Epilogue, OpCode, Prologue};
use path_model::{Expr, OutOfMemory};
use std::alloc::Allocator;

/// How many names, semicolons, pairs of braces and bounds there are, or the numbers of the next ones.
#[derive(Clone, Copy)]
pub(crate) struct Numbers {
    /// The place of a name among all names.
    pub(crate) place: u16,
    /// The semaphore of a `;`.
    pub(crate) semicolon: u16,
    /// A pair of braces.
    pub(crate) brace: u16,
    /// The semaphore of a bound.
    pub(crate) bound: u16,
}

/// Adds the parts of a tree to a count. The cost is one walk over it.
pub(crate) fn count_parts<A: Allocator + Copy>(tree: &Expr<A>, count: &mut Numbers)
    requires few { FitsFrom (shape tree.now) count.old }
    ensures { NumbersAfter (shape tree.now) count.old count.new }
{
    match tree {
        Expr::Op(_) => count.place += 1,
        Expr::Seq(left, right) => {
            count_parts(left, count);
            count_parts(right, count);
            count.semicolon += 1;
        }
        Expr::Alt(left, right) => {
            count_parts(left, count);
            count_parts(right, count);
        }
        Expr::Burst(inner) => {
            count_parts(inner, count);
            count.brace += 1;
        }
        Expr::Counted(inner, _) => {
            count_parts(inner, count);
            count.brace += 1;
            count.bound += 1;
        }
    }
}

/// The prologue of the names inside a pair of braces, if this one is before the braces.
fn starting_within(prologue: Prologue, pair: u16, bound: Option<u16>) -> Prologue
    ensures { result ≡ start_within pair bound prologue }
{
    match (prologue, bound) {
        (Prologue::P(semaphore), None) => Prologue::PP { pair, semaphore },
        (Prologue::P(semaphore), Some(bound)) => Prologue::PPN {
            pair,
            semaphore,
            bound,
        },
        (nested, _) => nested,
    }
}

/// The epilogue of the names inside a pair of braces, if this one is after the braces.
fn ending_within(epilogue: Epilogue, pair: u16, bound: Option<u16>) -> Epilogue
    ensures { result ≡ end_within pair bound epilogue }
{
    match (epilogue, bound) {
        (Epilogue::V(semaphore), None) => Epilogue::VV { pair, semaphore },
        (Epilogue::V(semaphore), Some(bound)) => Epilogue::VVN {
            pair,
            semaphore,
            bound,
        },
        (nested, _) => nested,
    }
}

/// Adds each name of a tree, from left to right, with its prologue: `prologue`, or at the right of a `;` the P on its semaphore. The
/// epilogues are set on the way back. Adds the semaphore of each bound too. The tree's parts are numbered from `next` on, which
/// becomes the numbers after them; after an error the numbers in `next` mean nothing. Fails only if allocation fails.
pub(crate) fn add_starts<A: Allocator + Copy, B: Allocator + Copy>(
    ops: &mut Vec<OpCode, B>,
    semaphores: &mut Vec<(u16, u16), B>,
    tree: &Expr<A>,
    next: &mut Numbers,
    prologue: Prologue,
) -> Result<(), OutOfMemory>
    requires few { FitsFrom (shape tree.now) next.old }
    requires bounded { FewAtOnce (shape tree.now) }
    ensures numbers { OnOk result (NumbersAfter (shape tree.now) next.old next.new) }
    ensures starts { OnOk result (ops.new.items ≡
        ops.old.items ++ starts_in (shape tree.now) next.old.semicolon next.old.brace next.old.bound prologue) }
    ensures bounds { OnOk result (semaphores.new.items ≡ semaphores.old.items ++ bounds_from (shape tree.now) next.old.bound) }
{
    match tree {
        Expr::Op(op) => {
            ops.push(OpCode {
                op: *op,
                prologue,
                epilogue: Epilogue::V(0),
            })?;
            next.place += 1;
            Ok(())
        }
        Expr::Seq(left, right) => {
            add_starts(ops, semaphores, left, next, prologue)?;
            let semicolon = next.semicolon;
            next.semicolon += 1;
            add_starts(ops, semaphores, right, next, Prologue::P(semicolon))
        }
        Expr::Alt(left, right) => {
            add_starts(ops, semaphores, left, next, prologue)?;
            add_starts(ops, semaphores, right, next, prologue)
        }
        Expr::Burst(inner) => {
            let start = starting_within(prologue, next.brace, None);
            next.brace += 1;
            add_starts(ops, semaphores, inner, next, start)
        }
        Expr::Counted(inner, most) => {
            semaphores.push((next.bound, *most as u16))?;
            let start = starting_within(prologue, next.brace, Some(next.bound));
            next.brace += 1;
            next.bound += 1;
            add_starts(ops, semaphores, inner, next, start)
        }
    }
}

/// Sets the epilogue of each name of a tree, from right to left: `epilogue`, or at the left of a `;` the V on its semaphore. `end` has
/// the numbers after those of the tree's parts, and becomes their first numbers.
pub(crate) fn set_ends<A: Allocator + Copy>(
    ops: &mut [OpCode],
    tree: &Expr<A>,
    end: &mut Numbers,
    epilogue: Epilogue,
)
    requires flat { IsFlat (shape tree.now) }
    requires fits { FitsBelow (shape tree.now) end.old }
    requires within { end.old.place ≤ length ops.old }
    ensures numbers { NumbersAfter (shape tree.now) end.new end.old }
    ensures kept { length ops.new ≡ length ops.old }
    ensures set { ops.new ≡ ended (shape tree.now) end.new.place end.new.semicolon end.new.brace end.new.bound epilogue ops.old }
{
    match tree {
        Expr::Op(_) => {
            end.place -= 1;
            ops[end.place as usize].epilogue = epilogue;
        }
        Expr::Seq(left, right) => {
            set_ends(ops, right, end, epilogue);
            end.semicolon -= 1;
            let semicolon = end.semicolon;
            set_ends(ops, left, end, Epilogue::V(semicolon));
        }
        Expr::Alt(left, right) => {
            set_ends(ops, right, end, epilogue);
            set_ends(ops, left, end, epilogue);
        }
        Expr::Burst(inner) => {
            let brace = end.brace - 1;
            set_ends(ops, inner, end, ending_within(epilogue, brace, None));
            end.brace = brace;
        }
        Expr::Counted(inner, _) => {
            let brace = end.brace - 1;
            let bound = end.bound - 1;
            set_ends(ops, inner, end, ending_within(epilogue, brace, Some(bound)));
            end.brace = brace;
            end.bound = bound;
        }
    }
}
