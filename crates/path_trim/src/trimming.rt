//! Trims compiled paths.

ghost use Rattle.std.specs.Prelude.{◌≡◌, ◌++◌, ◌∷◌, [], length, map, IfOk, IfErr, OnOk};
ghost use Rattle.path_model.specs.Flat.{Sited};
ghost use Rattle.path_code.specs.PathCodes.{IsPathCode};
ghost use Rattle.path_trim.specs.Trees.{trees_in};
ghost use Rattle.path_trim.specs.LeanTable.{lean_row};
ghost use Rattle.path_trim.specs.RemovedList.{values_removed};
ghost use Rattle.path_trim.specs.Inner.Parts.{Adds};
ghost use Rattle.path_trim.specs.declared.table.Removed.TheVariants.{SamePath};
ghost use Rattle.path_trim.specs.declared.table.Fate.TheVariants.{SameAs, Stays};

use crate::equal::first_equal;
use crate::lean::Lean;
use crate::left::{lean_path, note_removed};
use crate::table::{Fate, LeanPath, Removed};
use path_code::{Code, PathCode};
use path_model::{OutOfMemory, PathId};
use std::alloc::Allocator;
use std::snapshot::Snapshot;

/// The result for the paths so far.
#[derive(Drop)]
struct Parts<A: Allocator + Copy> {
    kept: Vec<LeanPath<A>, A>,
    removed: Vec<Removed, A>,
    fates: Vec<Fate, A>,
}

impl<A: Allocator + Copy> Parts<A> {
    /// Removes a path; `first` is the first path with its tree.
    fn remove(&mut self, path: PathId, first: PathId) -> Result<(), OutOfMemory>
        ensures { OnOk result (Adds self.old self.new [] (SamePath path first ∷ []) (SameAs first)) }
    {
        self.removed.push(Removed::SamePath(path, first))?;
        self.fates.push(Fate::SameAs(first))?;
        Ok(())
    }

    /// Keeps a path.
    fn keep(&mut self, alloc: A, path: PathId, code: &PathCode<'_, A>) -> Result<(), OutOfMemory>
        requires { (x : Sited) × IsPathCode x code.now }
        ensures { OnOk result ((x : Sited) → IsPathCode x code.now →
            Adds self.old self.new (lean_row (path.0, x) ∷ []) (values_removed x) (Stays (length (values_removed x)))) }
    {
        self.kept.push(lean_path(alloc, path, code)?)?;
        let count = note_removed(&mut self.removed, code)?;
        self.fates.push(Fate::Stays(count))?;
        Ok(())
    }
}

/// The trimmed paths of a code. Fails only if allocation fails.
fn trimmed<A: Allocator + Copy>(alloc: A, code: &Code<'_, A>) -> Result<Lean<A>, OutOfMemory>
    ensures { IfOk result (λ lean. lean.trees ≡ trees_in code.now) }
{
    let paths = code.paths();
    let mut parts = Parts {
        kept: Vec::new(alloc),
        removed: Vec::new(alloc),
        fates: Vec::new(alloc),
    };
    for (number, path) in paths.iter().enumerate() {
        let id = PathId(number as u32);
        match first_equal(&paths[..number], path.tree) {
            Some(first) => parts.remove(id, PathId(first as u32))?,
            None => parts.keep(alloc, id, path)?,
        }
    }
    Ok(Lean {
        decl: Snapshot::of(code.decl()),
        kept: parts.kept,
        removed: parts.removed,
        fates: parts.fates,
    })
}

/// Trims compiled paths. Removes each mutex; of a path that is one pair of braces, with or without a bound, its own semaphore and
/// the counter of the braces; and each path whose tree, with its bounds, an earlier path has. All else is kept, with its number.
///
/// Fails only if allocation fails; the code then comes back as it was. Compares each path with the earlier ones until one has its
/// tree: at most 256 paths of at most 64 names, so at most 32,640 comparisons, each of which ends where the trees first differ.
/// Apart from that, the cost is one pass over the code.
pub fn trim<'d, A: Allocator + Copy>(
    alloc: A,
    code: Code<'d, A>,
) -> Result<Lean<A>, (Code<'d, A>, OutOfMemory)>
    ensures trimmed { IfOk result (λ lean. lean.trees ≡ trees_in code.entry) }
    ensures back { IfErr result (λ refusal. refusal.0 ≡ code.entry) }
{
    match trimmed(alloc, &code) {
        Ok(lean) => Ok(lean),
        Err(error) => Err((code, error)),
    }
}
