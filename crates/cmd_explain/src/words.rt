//! Lists in words. The functions fail only if allocation fails.

use path_decl::Decl;
use path_lines::push_operation;
use path_model::{Activation, OpId, OutOfMemory, PathId};
use std::alloc::Allocator;

/// How many activations a list names; it counts the others.
const MOST_NAMED: usize = 4;

/// Appends a comma and a space before each item but the first.
fn push_comma<A: Allocator + Copy>(text: &mut String<A>, place: usize) -> Result<(), OutOfMemory> {
    if place > 0 {
        text.push_str(", ")?;
    }
    Ok(())
}

/// Appends the names of operations, or `nothing`.
pub fn push_operations<A: Allocator + Copy>(
    text: &mut String<A>,
    decl: &Decl<A>,
    operations: &[OpId],
) -> Result<(), OutOfMemory> {
    if operations.is_empty() {
        text.push_str("nothing")?;
    }
    for (i, op) in operations.iter().enumerate() {
        push_comma(text, i)?;
        push_operation(text, decl, *op)?;
    }
    Ok(())
}

/// Appends paths by their numbers, or `no path`.
pub fn push_paths<A: Allocator + Copy>(
    text: &mut String<A>,
    paths: &[PathId],
) -> Result<(), OutOfMemory> {
    if paths.is_empty() {
        text.push_str("no path")?;
    }
    for (i, path) in paths.iter().enumerate() {
        push_comma(text, i)?;
        let number = path.0;
        write!(text, "path {number}")?;
    }
    Ok(())
}

/// Appends blocked operations, each with the first path that forbids it, or `nothing`.
pub fn push_blocked<A: Allocator + Copy>(
    text: &mut String<A>,
    decl: &Decl<A>,
    blocked: &[(OpId, PathId)],
) -> Result<(), OutOfMemory> {
    if blocked.is_empty() {
        text.push_str("nothing")?;
    }
    for (i, (op, path)) in blocked.iter().enumerate() {
        push_comma(text, i)?;
        push_operation(text, decl, *op)?;
        let number = path.0;
        write!(text, " by path {number}")?;
    }
    Ok(())
}

/// Appends the operation, the number and the worker of an activation.
fn push_activation<A: Allocator + Copy>(
    text: &mut String<A>,
    decl: &Decl<A>,
    activation: Activation,
) -> Result<(), OutOfMemory> {
    push_operation(text, decl, activation.op)?;
    let (number, worker) = (activation.act.0, activation.worker);
    write!(text, " (activation {number}, worker {worker})")?;
    Ok(())
}

/// Appends activations, or `nothing`: the first four of them, and how many more there are.
pub fn push_activations<A: Allocator + Copy>(
    text: &mut String<A>,
    decl: &Decl<A>,
    activations: &[Activation],
) -> Result<(), OutOfMemory> {
    if activations.is_empty() {
        text.push_str("nothing")?;
    }
    let named = activations.len().min(MOST_NAMED);
    for (i, activation) in activations[..named].iter().enumerate() {
        push_comma(text, i)?;
        push_activation(text, decl, *activation)?;
    }
    let more = activations.len() - named;
    if more > 0 {
        write!(text, " and {more} more")?;
    }
    Ok(())
}
