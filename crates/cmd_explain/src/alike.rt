//! Paths with the same tree, of which the gate keeps the first.

ghost use Rattle.std.specs.Prelude.{◌≡◌, ◌<◌, length, IsTrue, ◌↔◌};
ghost use Rattle.cmd_explain.specs.Standing.{tree_at, IsFirstAlike};

use crate::names::tree_in;
use path_decl::{Decl, is_same_tree};
use path_model::PathId;
use std::alloc::Allocator;

/// Whether two declared paths have the same tree.
fn is_alike<A: Allocator + Copy>(decl: &Decl<A>, one: PathId, other: PathId) -> bool
    requires one { one.0 < length decl.now.declaration.paths }
    requires other { other.0 < length decl.now.declaration.paths }
    ensures { IsTrue result ↔ (tree_at decl.now.declaration one ≡ tree_at decl.now.declaration other) }
{
    let left = tree_in(decl, one);
    let right = tree_in(decl, other);
    is_same_tree(left, right)
}

/// The first path of the file with the tree of this declared path. The cost is a look at each earlier path, and a walk over what
/// their trees share.
pub fn first_alike<A: Allocator + Copy>(decl: &Decl<A>, path: PathId) -> PathId
    requires { path.0 < length decl.now.declaration.paths }
    ensures { IsFirstAlike decl.now.declaration path result }
{
    for number in 0..path.0 {
        if is_alike(decl, PathId(number), path) {
            return PathId(number);
        }
    }
    path
}
