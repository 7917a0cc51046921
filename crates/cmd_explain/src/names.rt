//! The trees of paths, and the operations that they name.

ghost use Rattle.std.specs.Prelude.{◌≡◌, ◌<◌, length};
ghost use Rattle.path_model.specs.Trees.{has, shape};
ghost use Rattle.cmd_explain.specs.Standing.{tree_at};

use path_decl::{Decl, tree_of};
use path_model::{Expr, OpId, PathId};
use std::alloc::Allocator;

/// The tree of a declared path.
pub fn tree_in<A: Allocator + Copy>(decl: &Decl<A>, path: PathId) -> &Expr<A>
    requires { path.0 < length decl.now.declaration.paths }
    ensures { shape result.now ≡ tree_at decl.now.declaration path }
{
    tree_of(decl, path).unwrap()
}

/// Whether the tree names the operation. One walk over the tree.
fn tree_names<A: Allocator + Copy>(tree: &Expr<A>, op: OpId) -> bool
    ensures { result ≡ has (shape tree.now) op }
{
    match tree {
        Expr::Op(name) => op.0 == name.0,
        Expr::Seq(left, right) => tree_names(left, op) || tree_names(right, op),
        Expr::Alt(left, right) => tree_names(left, op) || tree_names(right, op),
        Expr::Burst(inner) => tree_names(inner, op),
        Expr::Counted(inner, _) => tree_names(inner, op),
    }
}

/// Whether a declared path names the operation. One walk over its tree.
pub fn names<A: Allocator + Copy>(decl: &Decl<A>, path: PathId, op: OpId) -> bool
    requires { path.0 < length decl.now.declaration.paths }
    ensures { result ≡ has (tree_at decl.now.declaration path) op }
{
    let tree = tree_in(decl, path);
    tree_names(tree, op)
}
