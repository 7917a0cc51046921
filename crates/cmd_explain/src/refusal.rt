//! What forbids a start, and what a path lets begin.

ghost use Rattle.std.specs.Prelude.{◌≡◌, ◌<◌, ◌↔◌, List, [], ◌∷◌, ◌++◌, if◌then◌else◌, filter, length, All, IsTrue, IfOk, OnOk};
ghost use Rattle.path_model.specs.declared.history.Event.{Event};
ghost use Rattle.path_model.specs.Declarations.{paths_of};
ghost use Rattle.path_model.specs.Legal.{Legal};
ghost use Rattle.path_model.specs.Trees.{has};
ghost use Rattle.path_gate.specs.Standings.{IsAt};
ghost use Rattle.cmd_explain.specs.Standing.{tree_at, AreForbidding, AreNext, ForbidsAt, LetsAt};

use crate::alike::first_alike;
use crate::names::names;
use path_decl::{Decl, counts};
use path_gate::Gate;
use path_model::{Activation, OpId, OutOfMemory, PathId};
use std::alloc::Allocator;

/// Appends the item if it is wanted. Fails only if allocation fails.
fn push_if<T: Copy, A: Allocator + Copy>(
    list: &mut Vec<T, A>,
    item: T,
    wanted: bool,
) -> Result<(), OutOfMemory>
    ensures { let more = if wanted then (item ∷ []) else [] in OnOk result (list.new.items ≡ list.old.items ++ more) }
{
    if wanted {
        list.push(item)?;
    }
    Ok(())
}

/// Whether a declared path forbids a start of the operation now: it names the operation, and the start would leave its behaviour. The
/// gate is that of the declaration.
///
/// Allocates nothing. The cost is a look at each earlier path, of which the gate keeps one for each tree, and at each path that
/// names the operation.
pub fn is_forbidding<A: Allocator + Copy>(
    decl: &Decl<A>,
    gate: &Gate<A>,
    path: PathId,
    op: OpId,
) -> bool
    requires declared { path.0 < length decl.now.declaration.paths }
    requires paths { gate.now.paths ≡ paths_of decl.now.declaration }
    ensures { (h : List Event) → Legal (paths_of decl.now.declaration) h → IsAt gate.now h
        → IsTrue result ↔ ForbidsAt decl.now.declaration h op path }
{
    gate.forbids(first_alike(decl, path), op)
}

/// All paths that forbid a start of the operation now, in the order of the file; none if the start would be admitted. The gate is
/// that of the declaration.
///
/// Fails only if allocation fails. The cost is that of [`is_forbidding`] for each path.
pub fn forbidding<A: Allocator + Copy>(
    alloc: A,
    decl: &Decl<A>,
    gate: &Gate<A>,
    op: OpId,
) -> Result<Vec<PathId, A>, OutOfMemory>
    requires { gate.now.paths ≡ paths_of decl.now.declaration }
    ensures forbidding { IfOk result (λ paths. (h : List Event) → Legal (paths_of decl.now.declaration) h → IsAt gate.now h
        → AreForbidding decl.now.declaration h op (length decl.now.declaration.paths) paths.items) }
    ensures declared { IfOk result (λ paths. All (λ p. p.0 < length decl.now.declaration.paths) paths.items) }
{
    let mut paths = Vec::new(alloc);
    let total = counts(decl).paths;
    for number in 0..total {
        let path = PathId(number);
        let wanted = is_forbidding(decl, gate, path, op);
        push_if(&mut paths, path, wanted)?;
    }
    Ok(paths)
}

/// Whether a declared path names the operation and lets it begin now.
fn lets_begin<A: Allocator + Copy>(decl: &Decl<A>, gate: &Gate<A>, path: PathId, op: OpId) -> bool
    requires declared { path.0 < length decl.now.declaration.paths }
    requires paths { gate.now.paths ≡ paths_of decl.now.declaration }
    ensures { (h : List Event) → Legal (paths_of decl.now.declaration) h → IsAt gate.now h
        → IsTrue result ↔ LetsAt decl.now.declaration h path op }
{
    let named = names(decl, path, op);
    let forbidden = is_forbidding(decl, gate, path, op);
    named && !forbidden
}

/// The operations that a declared path names and lets begin now, in the order of the file. Other paths may forbid them. The gate is
/// that of the declaration.
///
/// Fails only if allocation fails. The cost is that of [`is_forbidding`] for each declared operation.
pub fn may_begin<A: Allocator + Copy>(
    alloc: A,
    decl: &Decl<A>,
    gate: &Gate<A>,
    path: PathId,
) -> Result<Vec<OpId, A>, OutOfMemory>
    requires declared { path.0 < length decl.now.declaration.paths }
    requires paths { gate.now.paths ≡ paths_of decl.now.declaration }
    ensures { IfOk result (λ ops. (h : List Event) → Legal (paths_of decl.now.declaration) h → IsAt gate.now h
        → AreNext decl.now.declaration h path (length decl.now.declaration.operations) ops.items) }
{
    let mut ops = Vec::new(alloc);
    let total = counts(decl).operations;
    for number in 0..total {
        let op = OpId(number);
        let wanted = lets_begin(decl, gate, path, op);
        push_if(&mut ops, op, wanted)?;
    }
    Ok(ops)
}

/// What of a declared path is in progress: those of these activations whose operation the path names, in their order. Fails only if
/// allocation fails. The cost is a walk over the path's tree for each activation.
pub fn underway<A: Allocator + Copy>(
    alloc: A,
    decl: &Decl<A>,
    live: &[Activation],
    path: PathId,
) -> Result<Vec<Activation, A>, OutOfMemory>
    requires { path.0 < length decl.now.declaration.paths }
    ensures { IfOk result (λ found. found.items ≡ filter (λ x. has (tree_at decl.now.declaration path) x.op) live.now) }
{
    let mut found = Vec::new(alloc);
    for activation in live {
        let wanted = names(decl, path, activation.op);
        push_if(&mut found, *activation, wanted)?;
    }
    Ok(found)
}
