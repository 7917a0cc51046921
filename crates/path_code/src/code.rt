//! Compiled paths.

ghost use Rattle.path_code.specs.PathCodes.{paths_shown};
ghost use Rattle.path_code.specs.Known.{LawfulPaths, LawfulPaths-prop};

use crate::terms::OpCode;
use path_decl::Decl;
use path_model::{Expr, ResId};
use std::alloc::{Allocator, Global};
use std::marker::Model;

/// The code of one path. Semaphores and pairs of braces are numbered from 0 through the file, path after path.
#[derive(Drop)]
pub struct PathCode<'d, A: Allocator + Copy = Global> {
    /// The resource that the path belongs to.
    pub resource: ResId,
    /// The tree of the path, which the declaration owns.
    pub tree: &'d Expr<A>,
    /// The numbers of the semaphores, ascending, each with its opening value: the path's own (1), one for each `;` from
    /// left to right (0), and one for each bound in the order of the `{` (the bound).
    pub semaphores: Vec<(u16, u16), A>,
    /// The numbers of the pairs of braces, ascending, in the order of their `{`. The counter of each opens at 0 and its mutex at 1.
    pub braces: Vec<u16, A>,
    /// The prologue and epilogue of each operation, in the order of the names in the path.
    pub ops: Vec<OpCode, A>,
}

/// The code of all paths of a declaration. Contracts see the resources and trees of the paths as its `paths`, and what always holds of
/// them as `lawful`: all else follows from these.
#[derive(Drop)]
pub struct Code<'d, A: Allocator + Copy = Global> {
    pub(crate) decl: &'d Decl<A>,
    pub(crate) paths: Vec<PathCode<'d, A>, A>,
    ghost lawful: { LawfulPaths (paths_shown paths.items) } by { LawfulPaths-prop _ },
}

impl<'d, A: Allocator + Copy> Model for Code<'d, A> {
    ghost use Rattle.path_code.specs.Known.{KnownCode, known_code};

    ghost Value = { KnownCode };

    ghost coded = { known_code };

    ghost use Rattle.path_code.specs.Inner.Kept.{shown, IsTranslated};

    ghost view = { shown };

    ghost invariant = { IsTranslated };
}

impl<'d, A: Allocator + Copy> Code<'d, A> {
    ghost use Rattle.std.specs.Prelude.{◌≡◌};
    ghost use Rattle.path_code.specs.PathCodes.{ArePathCodes, sites};

    /// The declaration that was translated. The contract says of it only which paths it has.
    pub fn decl(&self) -> &'d Decl<A>
        ensures { result.now.declaration.paths ≡ self.now.paths }
    {
        self.decl
    }

    /// The code of each path, in the order of the file. Takes constant time.
    pub fn paths(&self) -> &[PathCode<'d, A>]
        ensures shown { paths_shown result.now ≡ self.now.paths }
        ensures table { ArePathCodes (sites self.now.paths) result.now }
    {
        &self.paths
    }
}
