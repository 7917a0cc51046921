//! Workers that wait for each other, in words. The functions fail only if allocation fails.

use crate::words::push_operations;
use path_decl::Decl;
use path_lines::push_operation;
use path_model::{Activation, Line, OpId, OutOfMemory};
use std::alloc::Allocator;
use tell_waiting::{waits_behind, waits_for};

/// The most activations that are looked at: each takes a pass over the lines.
const MOST: usize = 64;

/// The lines of a journal.
#[derive(Clone, Copy)]
pub struct Lines<'a> {
    /// All but the last, or all.
    pub front: &'a [Line],
    /// The last, if it isn't in front.
    pub last: Option<Line>,
}

/// What a worker waits for behind these lines.
fn waits_of(lines: Lines<'_>, worker: u32) -> Option<OpId> {
    let waits = waits_for(lines.front, worker);
    match lines.last {
        Some(line) => waits_behind(waits, &line, worker),
        None => waits,
    }
}

/// What the worker of each activation waits for, in their order; `None` if one of them waits for nothing.
fn all_waits<A: Allocator + Copy>(
    alloc: A,
    lines: Lines<'_>,
    live: &[Activation],
) -> Result<Option<Vec<OpId, A>>, OutOfMemory> {
    let mut waits = Vec::new(alloc);
    for activation in live {
        match waits_of(lines, activation.worker) {
            Some(op) => waits.push(op)?,
            None => return Ok(None),
        }
    }
    Ok(Some(waits))
}

/// The operations of the activations that this worker has.
fn held_by<A: Allocator + Copy>(
    alloc: A,
    live: &[Activation],
    worker: u32,
) -> Result<Vec<OpId, A>, OutOfMemory> {
    let mut held = Vec::new(alloc);
    for activation in live {
        if activation.worker == worker {
            held.push(activation.op)?;
        }
    }
    Ok(held)
}

/// Appends what the worker of this activation holds, and what it was refused.
fn push_waiter<A: Allocator + Copy>(
    alloc: A,
    text: &mut String<A>,
    decl: &Decl<A>,
    live: &[Activation],
    worker: u32,
    refused: OpId,
) -> Result<(), OutOfMemory> {
    let held = held_by(alloc, live, worker)?;
    write!(text, "   worker {worker} holds ")?;
    push_operations(text, decl, &held)?;
    text.push_str(" and was refused ")?;
    push_operation(text, decl, refused)?;
    text.push_str("\n")?;
    Ok(())
}

/// Whether this worker has one of the activations.
fn has_one(live: &[Activation], worker: u32) -> bool {
    live.iter().any(|activation| activation.worker == worker)
}

/// Appends a line for each worker that has an activation, in the order of their first ones.
fn push_waiters<A: Allocator + Copy>(
    alloc: A,
    text: &mut String<A>,
    decl: &Decl<A>,
    live: &[Activation],
    waits: &[OpId],
) -> Result<(), OutOfMemory> {
    for (i, (activation, op)) in live.iter().zip(waits.iter()).enumerate() {
        let before = live.get(..i).unwrap_or(&[]);
        if !has_one(before, activation.worker) {
            push_waiter(alloc, text, decl, live, activation.worker, *op)?;
        }
    }
    Ok(())
}

/// Appends who holds what and was refused what, if something is live after these lines, and all of it belongs to workers that wait: their
/// last attempt was a start that a path refused, and nothing finished since. Then none of these starts is admitted before something
/// finishes ([`waiting_lasts_until_a_finish`](tell_waiting::waiting_lasts_until_a_finish)). Appends nothing otherwise, nor if more than
/// 64 activations are live. The cost is a pass over the lines for each of these.
pub fn push_held<A: Allocator + Copy>(
    alloc: A,
    text: &mut String<A>,
    decl: &Decl<A>,
    lines: Lines<'_>,
    live: &[Activation],
) -> Result<(), OutOfMemory> {
    if live.is_empty() || live.len() > MOST {
        return Ok(());
    }
    if let Some(waits) = all_waits(alloc, lines, live)? {
        text.push_str("\nall that is live waits\n")?;
        push_waiters(alloc, text, decl, live, &waits)?;
        text.push_str("   none of these starts before something finishes\n")?;
    }
    Ok(())
}
