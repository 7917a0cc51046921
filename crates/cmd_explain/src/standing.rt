//! How each resource stands, in words. The functions fail only if allocation fails.

ghost use Rattle.std.specs.Prelude.{◌≡◌};
ghost use Rattle.path_model.specs.Declarations.{paths_of};

use crate::stuck::is_stuck;
use crate::words::{push_activations, push_blocked, push_operations};
use path_decl::{Decl, counts, resource_name, resource_of};
use path_gate::Gate;
use path_model::{Activation, OpId, OutOfMemory, PathId, ResId};
use std::alloc::Allocator;

/// A declaration as it stands after some lines of a journal.
#[derive(Drop)]
pub struct Moment<'a, A: Allocator + Copy> {
    pub decl: &'a Decl<A>,
    /// Its gate.
    pub gate: &'a Gate<A>,
    pub live: &'a [Activation],
    /// How many lines there are that take room.
    pub lines: u32,
    /// How many attempts before had no room.
    pub roomless: u64,
    /// Whether the first lines are those of files, which may name their room.
    pub is_behind: bool,
}

/// Whether the operation is of this resource.
fn is_of<A: Allocator + Copy>(decl: &Decl<A>, op: OpId, resource: ResId) -> bool {
    match resource_of(decl, op) {
        Some(own) => own.0 == resource.0,
        None => false,
    }
}

/// The operations of this resource that can be started.
fn startable_of<A: Allocator + Copy>(
    alloc: A,
    decl: &Decl<A>,
    gate: &Gate<A>,
    resource: ResId,
) -> Result<Vec<OpId, A>, OutOfMemory> {
    let mut found = Vec::new(alloc);
    for number in 0..counts(decl).operations {
        let op = OpId(number);
        if is_of(decl, op, resource) && gate.would_admit(op).is_ok() {
            found.push(op)?;
        }
    }
    Ok(found)
}

/// The other operations of this resource, each with the first path that forbids it.
fn blocked_of<A: Allocator + Copy>(
    alloc: A,
    decl: &Decl<A>,
    gate: &Gate<A>,
    resource: ResId,
) -> Result<Vec<(OpId, PathId), A>, OutOfMemory> {
    let mut found = Vec::new(alloc);
    for number in 0..counts(decl).operations {
        let op = OpId(number);
        match gate.would_admit(op) {
            Err(path) if is_of(decl, op, resource) => found.push((op, path))?,
            _ => {}
        }
    }
    Ok(found)
}

/// Those of the activations that are of this resource.
fn live_of<A: Allocator + Copy>(
    alloc: A,
    decl: &Decl<A>,
    live: &[Activation],
    resource: ResId,
) -> Result<Vec<Activation, A>, OutOfMemory> {
    let mut found = Vec::new(alloc);
    for activation in live {
        if is_of(decl, activation.op, resource) {
            found.push(*activation)?;
        }
    }
    Ok(found)
}

/// Appends how a declared resource stands: a blank line, its name, and four lines.
fn push_resource<A: Allocator + Copy>(
    alloc: A,
    text: &mut String<A>,
    moment: &Moment<'_, A>,
    resource: ResId,
) -> Result<(), OutOfMemory>
    requires { moment.now.gate.now.paths ≡ paths_of moment.now.decl.now.declaration }
{
    let (decl, gate, live) = (moment.decl, moment.gate, moment.live);
    let Some(name) = resource_name(decl, resource) else {
        return Ok(());
    };
    let startable = startable_of(alloc, decl, gate, resource)?;
    let blocked = blocked_of(alloc, decl, gate, resource)?;
    let own = live_of(alloc, decl, live, resource)?;
    write!(text, "\n{name}\n   can start: ")?;
    push_operations(text, decl, &startable)?;
    text.push_str("\n   blocked: ")?;
    push_blocked(text, decl, &blocked)?;
    text.push_str("\n   live: ")?;
    push_activations(text, decl, &own)?;
    let stuck = is_stuck(decl, gate, live, resource);
    let answer = if stuck { "yes" } else { "no" };
    write!(text, "\n   stuck for ever: {answer}\n")?;
    Ok(())
}

/// Appends, for each resource, what can start, what is blocked by which path and what is live, and whether nothing of it can ever be
/// admitted again. The moment's gate is that of the declaration. Fails only if allocation fails. The cost is, for each resource, a look
/// at each operation, at each path that names one of its own, and at each live activation.
pub fn push_standing<A: Allocator + Copy>(
    alloc: A,
    text: &mut String<A>,
    moment: &Moment<'_, A>,
) -> Result<(), OutOfMemory>
    requires { moment.now.gate.now.paths ≡ paths_of moment.now.decl.now.declaration }
{
    let total = counts(moment.decl).resources;
    for number in 0..total {
        push_resource(alloc, text, moment, ResId(number))?;
    }
    Ok(())
}
