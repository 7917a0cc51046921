//! Declarations, and what they contain.

ghost use Rattle.std.specs.Prelude.{◌≡◌, ◌<◌, ◌↔◌, length, map, Contains, IsSome, IfSome, IfNone, IfOk, Some, slice_get, option_map};
ghost use Rattle.path_model.specs.Trees.{shape};
ghost use Rattle.path_decl.specs.Lawful.{Lawful};
ghost use Rattle.path_decl.specs.Text.{IsDeclared};
ghost use Rattle.path_decl.specs.Table.{naming, declaration_of};
ghost use Rattle.path_decl.specs.Known.{Lawful-prop};

use crate::naming::naming_paths;
use crate::totals::Counts;
use indexmap::IndexMap;
use path_model::{Expr, Law, OpId, OutOfMemory, PathId, ResId};
use std::alloc::{Allocator, Global};
use std::hash::{BuildHasherDefault, FoldHasher};
use std::marker::Model;

/// Names in the order of the text, each with what was declared for it.
pub type Names<V, A> = IndexMap<String<A>, V, BuildHasherDefault<FoldHasher>, A>;

/// A path and its resource.
#[derive(Drop)]
pub struct PathEntry<A: Allocator + Copy> {
    /// The resource whose operations the path names.
    pub resource: ResId,
    /// The expression between `path` and `end`.
    pub tree: Expr<A>,
}

/// A declaration: resources, operations and paths, numbered in the order of the text. Contracts see these three lists as
/// its `declaration`, and what always holds of them as `lawful`.
#[derive(Drop)]
pub struct Decl<A: Allocator + Copy = Global> {
    resources: Names<Law, A>,
    operations: Names<ResId, A>,
    naming: Vec<Vec<PathId, A>, A>,
    /// Last, because the many small blocks of its trees are freed fastest when no larger block follows.
    paths: Vec<PathEntry<A>, A>,
    ghost lawful: { Lawful (declaration_of resources.entries operations.entries paths.items) } by { Lawful-prop _ },
}

impl<A: Allocator + Copy> Model for Decl<A> {
    ghost use Rattle.path_decl.specs.Known.{KnownDeclaration, known_code};

    ghost Value = { KnownDeclaration };

    ghost coded = { known_code };

    ghost use Rattle.path_decl.specs.Inner.Kept.{shown, IsKept};

    ghost view = { shown };

    ghost invariant = { IsKept };
}

impl<A: Allocator + Copy> Decl<A> {
    /// The declaration of these resources, operations and paths, which must be those of some text. Fails only if allocation fails.
    /// The cost is a walk over the trees.
    pub fn new(
        alloc: A,
        resources: Names<Law, A>,
        operations: Names<ResId, A>,
        paths: Vec<PathEntry<A>, A>,
    ) -> Result<Decl<A>, OutOfMemory>
        requires { IsDeclared (declaration_of resources.entries operations.entries paths.items) }
        ensures { IfOk result (λ d. d.declaration ≡ declaration_of resources.entries operations.entries paths.items) }
    {
        let naming = naming_paths(alloc, &paths, operations.len())?;
        Ok(Decl {
            resources,
            operations,
            paths,
            naming,
        })
    }
}

/// The operation with this name; `None` if there is none. A look-up in a hash table.
pub fn operation<A: Allocator + Copy>(decl: &Decl<A>, name: &str) -> Option<OpId>
    ensures some { IfSome result (λ a. slice_get (map (λ o. o.name) decl.now.declaration.operations) a.0 ≡ Some name.now) }
    ensures none { IfNone result (Contains (map (λ o. o.name) decl.now.declaration.operations) name.now → ⊥) }
{
    let place = decl.operations.get_index_of(name)?;
    Some(OpId(place as u32))
}

/// The resource with this name; `None` if there is none. A look-up in a hash table.
pub fn resource<A: Allocator + Copy>(decl: &Decl<A>, name: &str) -> Option<ResId>
    ensures some { IfSome result (λ r. slice_get (map (λ r. r.name) decl.now.declaration.resources) r.0 ≡ Some name.now) }
    ensures none { IfNone result (Contains (map (λ r. r.name) decl.now.declaration.resources) name.now → ⊥) }
{
    let place = decl.resources.get_index_of(name)?;
    Some(ResId(place as u32))
}

/// The numbers of the paths that name the operation, ascending; `None` if it isn't declared. A look-up by number.
pub fn paths_of<A: Allocator + Copy>(decl: &Decl<A>, op: OpId) -> Option<&[PathId]>
    ensures declared { IsSome result ↔ (op.0 < length decl.now.declaration.operations) }
    ensures paths { IfSome result (λ ps. ps.now ≡ naming decl.now.declaration op) }
{
    let paths = decl.naming.get(op.0 as usize)?;
    Some(paths.as_slice())
}

/// The law of the resource; `None` if it isn't declared. A look-up by number.
pub fn law_of<A: Allocator + Copy>(decl: &Decl<A>, resource: ResId) -> Option<Law>
    ensures { result ≡ option_map (λ r. r.law) (slice_get decl.now.declaration.resources resource.0) }
{
    let (_, law) = decl.resources.get_index(resource.0 as usize)?;
    Some(*law)
}

/// The resource of the operation; `None` if it isn't declared. A look-up by number.
pub fn resource_of<A: Allocator + Copy>(decl: &Decl<A>, op: OpId) -> Option<ResId>
    ensures { option_map (λ r. r.0) result ≡ option_map (λ o. o.resource) (slice_get decl.now.declaration.operations op.0) }
{
    let (_, resource) = decl.operations.get_index(op.0 as usize)?;
    Some(*resource)
}

/// The resource of the path; `None` if it isn't declared. A look-up by number.
pub fn path_resource<A: Allocator + Copy>(decl: &Decl<A>, path: PathId) -> Option<ResId>
    ensures { option_map (λ r. r.0) result ≡ option_map (λ p. p.resource) (slice_get decl.now.declaration.paths path.0) }
{
    let entry = decl.paths.get(path.0 as usize)?;
    Some(entry.resource)
}

/// The tree of the path; `None` if it isn't declared. A look-up by number.
pub fn tree_of<A: Allocator + Copy>(decl: &Decl<A>, path: PathId) -> Option<&Expr<A>>
    ensures { option_map (λ t. shape t.now) result ≡ option_map (λ p. p.tree) (slice_get decl.now.declaration.paths path.0) }
{
    let entry = decl.paths.get(path.0 as usize)?;
    Some(&entry.tree)
}

/// The name of the operation; `None` if it isn't declared. A look-up by number.
pub fn op_name<A: Allocator + Copy>(decl: &Decl<A>, op: OpId) -> Option<&str>
    ensures { option_map (λ s. s.now) result ≡ option_map (λ o. o.name) (slice_get decl.now.declaration.operations op.0) }
{
    let (name, _) = decl.operations.get_index(op.0 as usize)?;
    Some(name.as_str())
}

/// The name of the resource; `None` if it isn't declared. A look-up by number.
pub fn resource_name<A: Allocator + Copy>(decl: &Decl<A>, resource: ResId) -> Option<&str>
    ensures { option_map (λ s. s.now) result ≡ option_map (λ r. r.name) (slice_get decl.now.declaration.resources resource.0) }
{
    let (name, _) = decl.resources.get_index(resource.0 as usize)?;
    Some(name.as_str())
}

/// How many resources, operations and paths there are. Takes constant time.
pub fn counts<A: Allocator + Copy>(decl: &Decl<A>) -> Counts
    ensures resources { result.resources ≡ length decl.now.declaration.resources }
    ensures operations { result.operations ≡ length decl.now.declaration.operations }
    ensures paths { result.paths ≡ length decl.now.declaration.paths }
    // Some text declares it.
    ensures declared { IsDeclared decl.now.declaration }
{
    Counts {
        resources: decl.resources.len() as u32,
        operations: decl.operations.len() as u32,
        paths: decl.paths.len() as u32,
    }
}
