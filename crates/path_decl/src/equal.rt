//! Equal trees, and equal declarations.

ghost use Rattle.std.specs.Prelude.{◌≡◌, ◌↔◌, IsTrue, slice_get};
ghost use Rattle.path_model.specs.Trees.{shape};
ghost use Rattle.path_model.specs.Trimmed.{same_tree};

use crate::decl::{
    Decl, counts, law_of, op_name, path_resource, resource_name, resource_of, tree_of,
};
use path_model::{Expr, OpId, PathId, ResId};
use std::alloc::Allocator;

/// Whether the trees are equal. Compares right operands first, because they are the shallow ones.
fn has_shape<A: Allocator + Copy, B: Allocator + Copy>(left: &Expr<A>, right: &Expr<B>) -> bool
    ensures { result ≡ same_tree (shape left.now) (shape right.now) }
{
    match (left, right) {
        (Expr::Op(left), Expr::Op(right)) => left.0 == right.0,
        (Expr::Seq(first, second), Expr::Seq(third, fourth)) => {
            has_shape(second, fourth) && has_shape(first, third)
        }
        (Expr::Alt(first, second), Expr::Alt(third, fourth)) => {
            has_shape(second, fourth) && has_shape(first, third)
        }
        (Expr::Burst(left), Expr::Burst(right)) => has_shape(left, right),
        (Expr::Counted(left, most), Expr::Counted(right, bound)) => {
            most == bound && has_shape(left, right)
        }
        _ => false,
    }
}

/// Whether the trees are equal, with the bounds of braces. One walk over what they share.
#[tactic(auto, using(crate::proofs::SameTrees::same_trees))]
pub fn is_same_tree<A: Allocator + Copy, B: Allocator + Copy>(
    left: &Expr<A>,
    right: &Expr<B>,
) -> bool
    ensures equal { IsTrue result ↔ (shape left.now ≡ shape right.now) }
    // The same, as a test of trees.
    ensures tested { result ≡ same_tree (shape left.now) (shape right.now) }
{
    has_shape(left, right)
}

/// Whether the resources of this number are equal.
fn is_same_resource<A: Allocator + Copy, B: Allocator + Copy>(
    left: &Decl<A>,
    right: &Decl<B>,
    number: ResId,
) -> bool
    ensures { let other = slice_get right.now.declaration.resources number.0 in
        IsTrue result ↔ (slice_get left.now.declaration.resources number.0 ≡ other) }
{
    resource_name(left, number) == resource_name(right, number)
        && law_of(left, number) == law_of(right, number)
}

/// Whether the operations of this number are equal.
fn is_same_operation<A: Allocator + Copy, B: Allocator + Copy>(
    left: &Decl<A>,
    right: &Decl<B>,
    number: OpId,
) -> bool
    ensures { let other = slice_get right.now.declaration.operations number.0 in
        IsTrue result ↔ (slice_get left.now.declaration.operations number.0 ≡ other) }
{
    op_name(left, number) == op_name(right, number)
        && resource_of(left, number) == resource_of(right, number)
}

/// Whether the paths of this number are equal.
fn is_same_path<A: Allocator + Copy, B: Allocator + Copy>(
    left: &Decl<A>,
    right: &Decl<B>,
    number: PathId,
) -> bool
    ensures { let other = slice_get right.now.declaration.paths number.0 in
        IsTrue result ↔ (slice_get left.now.declaration.paths number.0 ≡ other) }
{
    if path_resource(left, number) != path_resource(right, number) {
        return false;
    }
    match (tree_of(left, number), tree_of(right, number)) {
        (Some(one), Some(other)) => is_same_tree(one, other),
        (None, None) => true,
        _ => false,
    }
}

/// Whether the resources are equal, in the same order.
fn are_same_resources<A: Allocator + Copy, B: Allocator + Copy>(
    left: &Decl<A>,
    right: &Decl<B>,
) -> bool
    ensures { IsTrue result ↔ (left.now.declaration.resources ≡ right.now.declaration.resources) }
{
    let total = counts(left).resources;
    if total != counts(right).resources {
        return false;
    }
    for number in 0..total {
        if !is_same_resource(left, right, ResId(number)) {
            return false;
        }
    }
    true
}

/// Whether the operations are equal, in the same order.
fn are_same_operations<A: Allocator + Copy, B: Allocator + Copy>(
    left: &Decl<A>,
    right: &Decl<B>,
) -> bool
    ensures { IsTrue result ↔ (left.now.declaration.operations ≡ right.now.declaration.operations) }
{
    let total = counts(left).operations;
    if total != counts(right).operations {
        return false;
    }
    for number in 0..total {
        if !is_same_operation(left, right, OpId(number)) {
            return false;
        }
    }
    true
}

/// Whether the paths are equal, in the same order.
fn are_same_paths<A: Allocator + Copy, B: Allocator + Copy>(left: &Decl<A>, right: &Decl<B>) -> bool
    ensures { IsTrue result ↔ (left.now.declaration.paths ≡ right.now.declaration.paths) }
{
    let total = counts(left).paths;
    if total != counts(right).paths {
        return false;
    }
    for number in 0..total {
        if !is_same_path(left, right, PathId(number)) {
            return false;
        }
    }
    true
}

/// Whether the declarations are equal: the same names, laws and trees in the same order. One walk over what they share.
pub fn is_same_declaration<A: Allocator + Copy, B: Allocator + Copy>(
    left: &Decl<A>,
    right: &Decl<B>,
) -> bool
    ensures { IsTrue result ↔ (left.now.declaration ≡ right.now.declaration) }
{
    are_same_resources(left, right)
        && are_same_operations(left, right)
        && are_same_paths(left, right)
}
