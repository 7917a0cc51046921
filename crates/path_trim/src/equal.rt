//! Paths with equal trees.

ghost use Rattle.std.specs.Prelude.{All, MatchOption};
ghost use Rattle.path_model.specs.Trees.{shape};
ghost use Rattle.path_trim.specs.Inner.FirstEqual.{HasOther, IsFirstEqual};

use path_code::PathCode;
use path_decl::is_same_tree;
use path_model::Expr;
use std::alloc::Allocator;

/// The index of the first of these paths that has the tree. At most one walk over the tree for each path.
pub(crate) fn first_equal<A: Allocator + Copy>(
    paths: &[PathCode<'_, A>],
    tree: &Expr<A>,
) -> Option<usize>
    ensures { MatchOption result (All (HasOther (shape tree.now)) paths.now) (IsFirstEqual (shape tree.now) paths.now) }
{
    for (place, path) in paths.iter().enumerate() {
        if is_same_tree(tree, path.tree) {
            return Some(place);
        }
    }
    None
}
