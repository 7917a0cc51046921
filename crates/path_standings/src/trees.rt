//! The trees of a declaration by their numbers.

ghost use Rattle.std.specs.Prelude.{◌≡◌, ◌<◌, ◌≤◌, ℕ, length, IfSome, IfNone, false};
ghost use Rattle.path_model.specs.Trees.{shape};
ghost use Rattle.path_model.specs.Trimmed.{same_tree};
ghost use Rattle.path_standings.specs.Told.{tree_at, row_at, rows_of};

use path_decl::{Decl, is_same_tree, tree_of};
use path_model::{Expr, PathId};
use std::alloc::Allocator;

/// The tree of a path.
pub fn tree_numbered<A: Allocator + Copy>(decl: &Decl<A>, number: u32) -> &Expr<A>
    requires { number < length decl.now.declaration.paths }
    ensures { shape result.now ≡ tree_at decl.now.declaration number }
{
    tree_of(decl, PathId(number)).unwrap()
}

/// A path before this one that has this tree.
pub fn same_before<A: Allocator + Copy>(decl: &Decl<A>, tree: &Expr<A>, number: u32) -> Option<u32>
    requires { number ≤ length decl.now.declaration.paths }
    ensures some { IfSome result (λ i. (i < number) × (tree_at decl.now.declaration i ≡ shape tree.now)) }
    ensures none { IfNone result ((i : ℕ) → i < number → same_tree (shape tree.now) (tree_at decl.now.declaration i) ≡ false) }
{
    for earlier in 0..number {
        if is_same_tree(tree, tree_numbered(decl, earlier)) {
            return Some(earlier);
        }
    }
    None
}

/// What stands behind each `;` of a path.
pub fn row_numbered<A: Allocator + Copy>(rows: &[Vec<u64, A>], number: u32) -> &[u64]
    requires { number < length rows.now }
    ensures { result.now ≡ row_at (rows_of rows.now) number }
{
    rows[number as usize].as_slice()
}
