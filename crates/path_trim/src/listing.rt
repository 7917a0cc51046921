//! The listing of trimmed paths.

ghost use Rattle.std.specs.Prelude.{◌≡◌, ◌++◌, ◌∷◌, flat_map, IfOk, OnOk};
ghost use Rattle.std.specs.String.{string_bytes};
ghost use Rattle.path_trim.specs.LeanListing.{op_line, value_text, removed_line, row_lines, header, same_rest, lean_text};
ghost use Rattle.path_trim.specs.Rows.{row_of};

use crate::lean::Lean;
use crate::table::{Fate, LeanOp, LeanPath, Removed};
use path_code::lister::{
    Mutexes, push_counters, push_header, push_operation, push_semaphores, push_terms,
};
use path_decl::{Decl, path_resource};
use path_model::{OutOfMemory, PathId};
use std::alloc::{AllocError, Allocator};

/// Writes the first words of a path's lines: its number and resource.
fn put_header<A: Allocator + Copy, C: Allocator + Copy>(
    out: &mut String<C>,
    decl: &Decl<A>,
    path: PathId,
) -> Result<(), OutOfMemory>
    ensures { OnOk result (string_bytes out.new ≡ string_bytes out.old ++ header decl.now.declaration path.0) }
{
    let number = path.0;
    match path_resource(decl, path) {
        Some(resource) => push_header(out, decl, number, resource),
        None => {
            write!(out, "path {number} of #{number}")?;
            Ok(())
        }
    }
}

/// Writes the line of an operation.
fn put_op<A: Allocator + Copy, C: Allocator + Copy>(
    out: &mut String<C>,
    decl: &Decl<A>,
    op: LeanOp,
) -> Result<(), OutOfMemory>
    ensures { OnOk result (string_bytes out.new ≡ string_bytes out.old ++ op_line decl.now.declaration op) }
{
    push_operation(out, decl, op.op)?;
    push_terms(out, Mutexes::Trimmed, op.prologue, op.epilogue)
}

/// Writes the lines of operations.
fn put_ops<A: Allocator + Copy, C: Allocator + Copy>(
    out: &mut String<C>,
    decl: &Decl<A>,
    ops: &[LeanOp],
) -> Result<(), OutOfMemory>
    ensures { OnOk result (string_bytes out.new ≡ string_bytes out.old ++ flat_map (op_line decl.now.declaration) ops.now) }
{
    for op in ops {
        put_op(out, decl, *op)?;
    }
    Ok(())
}

/// Writes a removed value after a space.
fn put_value<C: Allocator + Copy>(out: &mut String<C>, removed: Removed) -> Result<(), AllocError>
    ensures { OnOk result (string_bytes out.new ≡ string_bytes out.old ++ value_text removed) }
{
    match removed {
        Removed::Semaphore(number) => write!(out, " s{number}"),
        Removed::Counter(number) => write!(out, " c{number}"),
        Removed::Mutex(number) => write!(out, " m{number}"),
        Removed::SamePath(_, _) => Ok(()),
    }
}

/// Writes removed values, each after a space.
fn put_values<C: Allocator + Copy>(
    out: &mut String<C>,
    removed: &[Removed],
) -> Result<(), AllocError>
    ensures { OnOk result (string_bytes out.new ≡ string_bytes out.old ++ flat_map value_text removed.now) }
{
    for value in removed {
        put_value(out, *value)?;
    }
    Ok(())
}

/// Writes the line of the removed values, if there are any.
fn put_removed<C: Allocator + Copy>(
    out: &mut String<C>,
    removed: &[Removed],
) -> Result<(), AllocError>
    ensures { OnOk result (string_bytes out.new ≡ string_bytes out.old ++ removed_line removed.now) }
{
    if removed.is_empty() {
        return Ok(());
    }
    out.push_str("removed")?;
    put_values(out, removed)?;
    out.push_str("\n")
}

/// Writes the lines of what is kept of a path.
fn put_row<A: Allocator + Copy, B: Allocator + Copy, C: Allocator + Copy>(
    out: &mut String<C>,
    decl: &Decl<A>,
    path: &LeanPath<B>,
) -> Result<(), OutOfMemory>
    ensures { OnOk result (string_bytes out.new ≡ string_bytes out.old ++ row_lines decl.now.declaration (row_of path.now)) }
{
    push_semaphores(out, &path.semaphores)?;
    push_counters(out, &path.counters)?;
    put_ops(out, decl, &path.ops)
}

/// Writes what follows the header of a path whose tree an earlier path has.
fn put_same<C: Allocator + Copy>(out: &mut String<C>, first: PathId) -> Result<(), AllocError>
    ensures { OnOk result (string_bytes out.new ≡ string_bytes out.old ++ same_rest first.0) }
{
    writeln!(out, " same as {}", first.0)
}

/// Writes what follows the header of a path that is kept; `removed` are the things removed from it.
fn put_kept<A: Allocator + Copy, B: Allocator + Copy, C: Allocator + Copy>(
    out: &mut String<C>,
    decl: &Decl<A>,
    path: &LeanPath<B>,
    removed: &[Removed],
) -> Result<(), OutOfMemory>
    ensures { let lines = removed_line removed.now ++ row_lines decl.now.declaration (row_of path.now) in
        OnOk result (string_bytes out.new ≡ string_bytes out.old ++ 10 ∷ lines) }
{
    out.push_str("\n")?;
    put_removed(out, removed)?;
    put_row(out, decl, path)
}

/// The listing of trimmed paths, path after path. A path whose tree an earlier one has gets the single line
/// `path N of RESOURCE same as M`, where M is the first path with that tree. Each other path gets the line `path N of RESOURCE`; the
/// line `removed` with its removed values, if there are any; a line `sK = V` for each semaphore that is kept and a line `cK = 0` for each
/// counter that is kept, ascending; and a line `NAME: PROLOGUE | EPILOGUE` for each operation, in the order of its names, with `-` for
/// none. Each line ends with a line feed.
///
/// Names are those of the declaration: the path's resource, by the path's number, and the operations. What the declaration doesn't have
/// is written `#N`, with the number of the path or of the operation. Fails only if allocation fails. One pass over what is kept and
/// what was removed: the cost is that of the text.
pub fn lean_listing<A: Allocator + Copy, B: Allocator + Copy, C: Allocator + Copy>(
    alloc: C,
    decl: &Decl<A>,
    lean: &Lean<B>,
) -> Result<String<C>, OutOfMemory>
    ensures { IfOk result (λ s. string_bytes s ≡ lean_text decl.now.declaration lean.now.trees) }
{
    let mut out = String::new(alloc);
    let mut kept = lean.kept.as_slice();
    let mut removed = lean.removed.as_slice();
    for (number, fate) in lean.fates.iter().enumerate() {
        put_header(&mut out, decl, PathId(number as u32))?;
        match *fate {
            Fate::SameAs(first) => {
                put_same(&mut out, first)?;
                removed = removed.split_at(1).1;
            }
            Fate::Stays(count) => {
                let (lost, others) = removed.split_at(count);
                let (path, later) = kept.split_first().unwrap();
                put_kept(&mut out, decl, path, lost)?;
                removed = others;
                kept = later;
            }
        }
    }
    Ok(out)
}
