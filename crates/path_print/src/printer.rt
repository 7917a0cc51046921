//! Prints declarations.

ghost use Rattle.std.specs.Prelude.{◌≡◌, ◌≤◌, ◌++◌, ◌∷◌, [], nat_lt, length, drop, if◌then◌else◌, option_map, slice_get, Some, IfOk, OnOk};
ghost use Rattle.std.specs.String.{string_bytes};
ghost use Rattle.path_model.specs.Trees.{shape};
ghost use Rattle.path_model.specs.Declarations.{Resource};
ghost use Rattle.path_decl.specs.Text.{IsDeclarationText};
ghost use Rattle.path_print.specs.Printed.{head_pieces, law_pieces, names_pieces, tree_pieces, path_pieces, paths_pieces};
ghost use Rattle.path_print.specs.Printed.{path_text, printed};
ghost use Rattle.path_print.specs.Inner.PrintedSteps.{names_here, operations_after, trees_here, paths_after, Writes, joined};

use path_decl::{
    Decl, counts, law_of, op_name, path_resource, resource_name, resource_of, tree_of,
};
use path_model::{Expr, Law, OpId, OutOfMemory, PathId, ResId};
use std::alloc::Allocator;

/// The place of an expression, which says what needs parentheses there.
#[derive(Clone, Copy, Debug, PartialEq, Eq)]
pub(crate) enum Place {
    /// At the left of a `;`, or alone: nothing needs parentheses.
    InSeq,
    /// At the right of a `;`, or at the left of a `,`: a sequence needs them.
    InAlt,
    /// At the right of a `,`: a sequence and a selection need them.
    InUnit,
}

/// Writes a token after a space.
fn put<B: Allocator + Copy>(out: &mut String<B>, token: &str) -> Result<(), OutOfMemory>
    ensures { OnOk result (string_bytes out.new ≡ string_bytes out.old ++ 32 ∷ token.now) }
{
    out.push_str(" ")?;
    out.push_str(token)?;
    Ok(())
}

/// Writes the text if it is wanted, else nothing.
fn put_if<B: Allocator + Copy>(
    out: &mut String<B>,
    wanted: bool,
    text: &str,
) -> Result<(), OutOfMemory>
    ensures { let written = if wanted then text.now else [] in
        OnOk result (string_bytes out.new ≡ string_bytes out.old ++ written) }
{
    if wanted {
        out.push_str(text)?;
    }
    Ok(())
}

/// Writes the tokens of the tree, with parentheses where it needs them at that place.
#[tactic(auto, using(crate::proofs::PrintedBytes::tree_texts))]
fn put_tree<A: Allocator + Copy, B: Allocator + Copy>(
    out: &mut String<B>,
    decl: &Decl<A>,
    tree: &Expr<A>,
    place: Place,
) -> Result<(), OutOfMemory>
    ensures { OnOk result (Writes out.old out.new (tree_pieces decl.now.declaration.operations (shape tree.now) place)) }
{
    match tree {
        Expr::Op(op) => put(out, op_name(decl, *op).unwrap_or(""))?,
        Expr::Seq(left, right) => {
            let wraps = place != Place::InSeq;
            put_if(out, wraps, " (")?;
            put_tree(out, decl, left, Place::InSeq)?;
            out.push_str(";")?;
            put_tree(out, decl, right, Place::InAlt)?;
            put_if(out, wraps, " )")?;
        }
        Expr::Alt(left, right) => {
            let wraps = place == Place::InUnit;
            put_if(out, wraps, " (")?;
            put_tree(out, decl, left, Place::InAlt)?;
            out.push_str(",")?;
            put_tree(out, decl, right, Place::InUnit)?;
            put_if(out, wraps, " )")?;
        }
        Expr::Burst(inner) => {
            out.push_str(" {")?;
            put_tree(out, decl, inner, Place::InSeq)?;
            out.push_str(" }")?;
        }
        Expr::Counted(inner, bound) => {
            out.push_str(" {")?;
            put_tree(out, decl, inner, Place::InSeq)?;
            write!(out, ": {bound} }}")?;
        }
    }
    Ok(())
}

/// The name of the operation if it belongs to that resource.
fn own_name<A: Allocator + Copy>(decl: &Decl<A>, resource: ResId, op: OpId) -> Option<&str>
    ensures { let own = names_here resource.0 (drop op.0 decl.now.declaration.operations) in
        option_map (λ s. s.now) result ≡ slice_get own 0 }
{
    if resource_of(decl, op)? == resource {
        op_name(decl, op)
    } else {
        None
    }
}

/// The tree of the path if it belongs to that resource.
fn own_tree<A: Allocator + Copy>(decl: &Decl<A>, resource: ResId, path: PathId) -> Option<&Expr<A>>
    ensures { let own = trees_here resource.0 (drop path.0 decl.now.declaration.paths) in
        option_map (λ t. shape t.now) result ≡ slice_get own 0 }
{
    if path_resource(decl, path)? == resource {
        tree_of(decl, path)
    } else {
        None
    }
}

/// Writes the names of the resource's operations; the first one is `first`. Returns the first operation of the next resource.
fn put_names<A: Allocator + Copy, B: Allocator + Copy>(
    out: &mut String<B>,
    decl: &Decl<A>,
    resource: ResId,
    first: u32,
) -> Result<u32, OutOfMemory>
    ensures text { let own = names_here resource.0 (drop first decl.now.declaration.operations) in
        OnOk result (Writes out.old out.new (names_pieces own)) }
    ensures next { let later = operations_after resource.0 (drop first decl.now.declaration.operations) in
        IfOk result (λ n. drop n decl.now.declaration.operations ≡ later) }
{
    let total = counts(decl).operations;
    for op in first..total {
        let Some(name) = own_name(decl, resource, OpId(op)) else {
            return Ok(op);
        };
        put_if(out, op > first, ",")?;
        put(out, name)?;
    }
    Ok(total)
}

/// Writes the tokens of a path with this tree, from `path` to `end`.
#[tactic(auto, using(crate::proofs::PrintedBytes::path_texts))]
fn put_path<A: Allocator + Copy, B: Allocator + Copy>(
    out: &mut String<B>,
    decl: &Decl<A>,
    tree: &Expr<A>,
) -> Result<(), OutOfMemory>
    ensures { OnOk result (Writes out.old out.new (path_pieces decl.now.declaration.operations (shape tree.now))) }
{
    out.push_str(" path")?;
    put_tree(out, decl, tree, Place::InSeq)?;
    out.push_str(" end")?;
    Ok(())
}

/// Appends the text of one declared path as it stands in the print of the declaration: its tokens from `path` to `end`, each after a
/// space but `,`, `;` and `:`. Appends nothing for a path that isn't declared. If allocation fails, what the text contains then isn't
/// specified. The cost is that of the text.
pub fn push_path<A: Allocator + Copy, B: Allocator + Copy>(
    out: &mut String<B>,
    decl: &Decl<A>,
    path: PathId,
) -> Result<(), OutOfMemory>
    ensures { OnOk result (string_bytes out.new ≡ string_bytes out.old ++ path_text decl.now.declaration path) }
{
    match tree_of(decl, path) {
        Some(tree) => put_path(out, decl, tree),
        None => Ok(()),
    }
}

/// Writes the resource's paths; the first one is `first`. Returns the first path of the next resource.
fn put_paths<A: Allocator + Copy, B: Allocator + Copy>(
    out: &mut String<B>,
    decl: &Decl<A>,
    resource: ResId,
    first: u32,
) -> Result<u32, OutOfMemory>
    ensures text { let own = trees_here resource.0 (drop first decl.now.declaration.paths) in
        OnOk result (Writes out.old out.new (paths_pieces decl.now.declaration.operations own)) }
    ensures next { let later = paths_after resource.0 (drop first decl.now.declaration.paths) in
        IfOk result (λ n. drop n decl.now.declaration.paths ≡ later) }
{
    let total = counts(decl).paths;
    for path in first..total {
        let Some(tree) = own_tree(decl, resource, PathId(path)) else {
            return Ok(path);
        };
        put_path(out, decl, tree)?;
    }
    Ok(total)
}

/// Writes a law after a space.
fn put_law<B: Allocator + Copy>(out: &mut String<B>, law: Law) -> Result<(), OutOfMemory>
    ensures { OnOk result (Writes out.old out.new (law_pieces law)) }
{
    match law {
        Law::Cell => out.push_str(" cell")?,
        Law::Tally => out.push_str(" tally")?,
        Law::Queue(capacity) => write!(out, " queue {capacity}")?,
    }
    Ok(())
}

/// Writes the tokens of the resource before the names of its operations. Writes no space before the first resource.
fn put_head<A: Allocator + Copy, B: Allocator + Copy>(
    out: &mut String<B>,
    decl: &Decl<A>,
    resource: ResId,
) -> Result<(), OutOfMemory>
    ensures { (r : Resource) → slice_get decl.now.declaration.resources resource.0 ≡ Some r →
        let head = joined (nat_lt 0 resource.0) (head_pieces r) in
        OnOk result (string_bytes out.new ≡ string_bytes out.old ++ head) }
{
    put_if(out, resource.0 > 0, " ")?;
    out.push_str("resource")?;
    put(out, resource_name(decl, resource).unwrap_or(""))?;
    put_law(out, law_of(decl, resource).unwrap_or(Law::Cell))?;
    out.push_str(" operation")?;
    Ok(())
}

/// The text of the declaration: its tokens in order, with a space between two of them but none before `,`, `;` and `:`,
/// and a line feed at the end. Has parentheses only where a tree needs them: around a sequence at the right of a `;` or
/// beside a `,`, and around a selection at the right of a `,`. If the text has at most 65,536 bytes, it is a text of the same
/// declaration.
///
/// Fails only if allocation fails. One pass over the declaration: the cost is that of the text.
pub fn print<A: Allocator + Copy, B: Allocator + Copy>(
    alloc: B,
    decl: &Decl<A>,
) -> Result<String<B>, OutOfMemory>
    ensures text { IfOk result (λ s. string_bytes s ≡ printed decl.now.declaration) }
    // If it isn't too long, it is a text of the same declaration.
    ensures again { IfOk result (λ s. length (string_bytes s) ≤ 65536 → IsDeclarationText (string_bytes s) decl.now.declaration) }
{
    let mut out = String::new(alloc);
    let mut op = 0;
    let mut path = 0;
    for number in 0..counts(decl).resources {
        let resource = ResId(number);
        put_head(&mut out, decl, resource)?;
        op = put_names(&mut out, decl, resource, op)?;
        path = put_paths(&mut out, decl, resource, path)?;
        out.push_str(" end")?;
    }
    out.push_str("\n")?;
    Ok(out)
}
