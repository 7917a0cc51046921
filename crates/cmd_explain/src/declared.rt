//! A declaration in words. The functions fail only if allocation fails.

use crate::words::push_paths;
use path_decl::{Decl, counts, path_resource, paths_of, resource_name, resource_of};
use path_lines::push_operation;
use path_model::{OpId, OutOfMemory, PathId};
use path_print::push_path;
use std::alloc::Allocator;

/// The name of the resource of a path; `None` if the path isn't declared.
fn name_of_path<A: Allocator + Copy>(decl: &Decl<A>, path: PathId) -> Option<&str> {
    resource_name(decl, path_resource(decl, path)?)
}

/// The name of the resource of an operation; `None` if the operation isn't declared.
fn name_of_operation<A: Allocator + Copy>(decl: &Decl<A>, op: OpId) -> Option<&str> {
    resource_name(decl, resource_of(decl, op)?)
}

/// Appends the line of a declared path: its number, its resource and its text.
fn push_path_line<A: Allocator + Copy>(
    text: &mut String<A>,
    decl: &Decl<A>,
    path: PathId,
) -> Result<(), OutOfMemory> {
    let Some(name) = name_of_path(decl, path) else {
        return Ok(());
    };
    let number = path.0;
    write!(text, "path {number} of {name}:")?;
    push_path(text, decl, path)?;
    text.push_str("\n")?;
    Ok(())
}

/// Appends the line of a declared operation: its name, its resource, and the paths that it obeys.
fn push_operation_line<A: Allocator + Copy>(
    text: &mut String<A>,
    decl: &Decl<A>,
    op: OpId,
) -> Result<(), OutOfMemory> {
    let Some(name) = name_of_operation(decl, op) else {
        return Ok(());
    };
    push_operation(text, decl, op)?;
    write!(text, " of {name} obeys ")?;
    if let Some(paths) = paths_of(decl, op) {
        push_paths(text, paths)?;
    }
    text.push_str("\n")?;
    Ok(())
}

/// Appends the lines of all paths.
fn push_path_lines<A: Allocator + Copy>(
    text: &mut String<A>,
    decl: &Decl<A>,
) -> Result<(), OutOfMemory> {
    let total = counts(decl).paths;
    for number in 0..total {
        push_path_line(text, decl, PathId(number))?;
    }
    Ok(())
}

/// A line for each path, with its number, its resource and its text, and a line for each operation, with the paths that it obeys; both in
/// the order of the file. Fails only if allocation fails. The cost is that of the text.
pub fn declaration_in_words<A: Allocator + Copy>(
    alloc: A,
    decl: &Decl<A>,
) -> Result<String<A>, OutOfMemory> {
    let mut text = String::new(alloc);
    push_path_lines(&mut text, decl)?;
    let total = counts(decl).operations;
    for number in 0..total {
        push_operation_line(&mut text, decl, OpId(number))?;
    }
    Ok(text)
}
