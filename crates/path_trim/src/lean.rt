//! Trimmed paths.

ghost use Rattle.std.specs.Prelude.{◌≡◌, map};
ghost use Rattle.path_model.specs.Declarations.{trees};
ghost use Rattle.path_trim.specs.LawfulTrees.{LawfulTrees, LawfulTrees-prop};
ghost use Rattle.path_trim.specs.LeanTable.{lean_table};
ghost use Rattle.path_trim.specs.RemovedList.{removed_list};
ghost use Rattle.path_trim.specs.Rows.{row_of};

use crate::table::{Fate, LeanPath, Removed};
use path_decl::Decl;
use std::alloc::{Allocator, Global};
use std::marker::Model;
use std::snapshot::Snapshot;

/// What trimming leaves of the paths of a file. Contracts see the trees of all its paths, the removed ones too, as its `trees`, and
/// what always holds of them as `lawful`.
#[derive(Drop)]
pub struct Lean<A: Allocator + Copy = Global> {
    /// The declaration whose paths were trimmed. Only contracts read it, and it takes no memory.
    pub(crate) decl: Snapshot<Decl<A>>,
    /// The paths that are kept.
    pub(crate) kept: Vec<LeanPath<A>, A>,
    /// What was removed, path after path.
    pub(crate) removed: Vec<Removed, A>,
    /// What became of each path.
    pub(crate) fates: Vec<Fate, A>,
    ghost lawful: { LawfulTrees (trees decl.value.declaration) } by { LawfulTrees-prop _ },
}

impl<A: Allocator + Copy> Model for Lean<A> {
    ghost use Rattle.path_trim.specs.Known.{KnownTrees, known_trees};

    ghost Value = { KnownTrees };

    ghost coded = { known_trees };

    ghost use Rattle.path_trim.specs.Inner.Kept.{shown, IsKept};

    ghost view = { shown };

    ghost invariant = { IsKept };
}

/// The trimmed table: what trimming leaves of each path whose tree no earlier path has, in the order of the file. Takes constant
/// time.
pub fn kept<A: Allocator + Copy>(lean: &Lean<A>) -> &[LeanPath<A>]
    ensures { map row_of result.now ≡ lean_table lean.now.trees }
{
    lean.kept.as_slice()
}

/// What was removed, path after path. Of a path whose tree an earlier path has: only that it is the same as the first path with that
/// tree. Of any other path: its semaphore, its counter, and then its mutexes, ascending. Takes constant time.
pub fn removed<A: Allocator + Copy>(lean: &Lean<A>) -> &[Removed]
    ensures { result.now ≡ removed_list lean.now.trees }
{
    lean.removed.as_slice()
}
