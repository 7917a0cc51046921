//! Declarations under construction.

ghost use Rattle.std.specs.Prelude.{◌≡◌, ◌<◌, ◌≤◌, ◌∷◌, ◌↔◌, All, length, Contains, Some, None, IsTrue, IfOk, OnOk, IfErr};
ghost use Rattle.path_model.specs.Trees.{shape};
ghost use Rattle.path_decl.specs.Lawful.{IsDistinct};
ghost use Rattle.path_decl.specs.LawfulOnce.{IsDistinct-prop};
ghost use Rattle.path_decl.specs.Table.{names_of};
ghost use Rattle.path_read.specs.Inner.Parts.{law_said, saying, a_resource, a_law, an_operation, a_path, a_name};
ghost use Rattle.path_read.specs.Inner.Parts.{a_sequence, a_selection, an_opening, a_closing, an_end};
ghost use Rattle.path_read.specs.Inner.Reading.{Fails};

use crate::law::law_at;
use crate::numeral::number_up_to;
use crate::part::{LawText, Part};
use indexmap::IndexMap;
use path_decl::{Names, PathEntry};
use path_lex::DeclFault;
use path_model::{Expr, Law, OpId, ResId};
use std::alloc::Allocator;

/// The most resources of a file.
const MOST_RESOURCES: usize = 64;

/// The most operations of a file.
const MOST_OPERATIONS: usize = 256;

/// The most paths of a file.
const MOST_PATHS: usize = 256;

/// The most names of a path.
const MOST_NAMES: usize = 64;

/// The largest bound of braces.
const MOST_AT_ONCE: u32 = 65_535;

/// What has been declared so far, and what has been read so far of the current path.
#[derive(Drop)]
pub(crate) struct Draft<A: Allocator + Copy> {
    pub(crate) resources: Names<Law, A>,
    pub(crate) operations: Names<ResId, A>,
    pub(crate) paths: Vec<PathEntry<A>, A>,
    /// The last resource. The next operations and paths belong to it.
    pub(crate) resource: ResId,
    /// The trees of the path that no operator has joined yet.
    pub(crate) open_trees: Vec<Expr<A>, A>,
    /// The operations that the path names.
    pub(crate) named: Vec<OpId, A>,
    /// Whether braces of the path are open.
    pub(crate) in_braces: bool,
    // Few enough that their numbers fit.
    ghost few: { length operations.entries ≤ 256 },
    // No two operations have one name.
    ghost distinct: { IsDistinct (names_of operations.entries) } by { IsDistinct-prop _ },
    // Each operation that the path names was declared.
    ghost known: { All (λ a. a.0 < length operations.entries) named.items },
}

/// Whether the table has the name.
fn has_name<V, A: Allocator + Copy>(names: &Names<V, A>, name: &str) -> bool
    ensures { IsTrue result ↔ Contains (names_of names.now.entries) name.now }
{
    names.contains_key(name)
}

impl<A: Allocator + Copy> Draft<A> {
    ghost use Rattle.path_read.specs.Inner.Building.{drafted, nothing, HasOne, Allowed, after};

    /// A draft in which nothing is declared.
    pub(crate) fn new(alloc: A) -> Draft<A>
        ensures { drafted result ≡ nothing }
    {
        Draft {
            resources: IndexMap::new(alloc),
            operations: IndexMap::new(alloc),
            paths: Vec::new(alloc),
            resource: ResId(0),
            open_trees: Vec::new(alloc),
            named: Vec::new(alloc),
            in_braces: false,
        }
    }

    /// Adds a resource of this name. It is a cell until its law comes.
    fn resource(&mut self, alloc: A, name: &str, at: u32) -> Result<(), DeclFault>
        ensures ok { OnOk result (Allowed (a_resource name.now) (drafted self.old)
            × (drafted self.new ≡ after (a_resource name.now) (drafted self.old))) }
        ensures err { IfErr result (λ e. Fails e (Allowed (a_resource name.now) (drafted self.old) → ⊥)) }
    {
        if has_name(&self.resources, name) {
            return Err(DeclFault::DuplicateResource(at));
        }
        if self.resources.len() >= MOST_RESOURCES {
            return Err(DeclFault::TooMany(at));
        }
        self.resource = ResId(self.resources.len() as u32);
        let key = String::from_str(alloc, name)?;
        self.resources.insert(key, Law::Cell)?;
        Ok(())
    }

    /// Gives the last resource this law.
    fn law(&mut self, text: LawText<'_>, at: u32) -> Result<(), DeclFault>
        ensures ok { OnOk result (Allowed (a_law (law_said text.entry)) (drafted self.old)
            × (drafted self.new ≡ after (a_law (law_said text.entry)) (drafted self.old))) }
        ensures err { IfErr result (λ e. Fails e (Allowed (a_law (law_said text.entry)) (drafted self.old) → ⊥)) }
    {
        let law = law_at(text, at)?;
        if let Some(last) = self.resources.last_mut() {
            *last = law;
        }
        Ok(())
    }

    /// Adds an operation of this name to the last resource.
    fn operation(&mut self, alloc: A, name: &str, at: u32) -> Result<(), DeclFault>
        ensures ok { OnOk result (Allowed (an_operation name.now) (drafted self.old)
            × (drafted self.new ≡ after (an_operation name.now) (drafted self.old))) }
        ensures err { IfErr result (λ e. Fails e (Allowed (an_operation name.now) (drafted self.old) → ⊥)) }
    {
        if has_name(&self.operations, name) {
            return Err(DeclFault::DuplicateOperation(at));
        }
        if self.operations.len() >= MOST_OPERATIONS {
            return Err(DeclFault::TooMany(at));
        }
        let key = String::from_str(alloc, name)?;
        self.operations.insert(key, self.resource)?;
        Ok(())
    }

    /// Begins a path of the last resource.
    fn path(&mut self, at: u32) -> Result<(), DeclFault>
        ensures ok { OnOk result (Allowed a_path (drafted self.old) × (drafted self.new ≡ after a_path (drafted self.old))) }
        ensures err { IfErr result (λ e. Fails e (Allowed a_path (drafted self.old) → ⊥)) }
    {
        if self.paths.len() >= MOST_PATHS {
            return Err(DeclFault::TooMany(at));
        }
        Ok(())
    }

    /// Adds the operation of this name to the path.
    fn name(&mut self, name: &str, at: u32) -> Result<(), DeclFault>
        ensures ok { OnOk result (Allowed (a_name name.now) (drafted self.old)
            × (drafted self.new ≡ after (a_name name.now) (drafted self.old))) }
        ensures err { IfErr result (λ e. Fails e (Allowed (a_name name.now) (drafted self.old) → ⊥)) }
    {
        let Some((place, _, owner)) = self.operations.get_full(name) else {
            return Err(DeclFault::Undeclared(at));
        };
        if owner.0 != self.resource.0 {
            return Err(DeclFault::Undeclared(at));
        }
        let number = OpId(place as u32);
        if self.named.contains(&number) {
            return Err(DeclFault::RepeatedName(at));
        }
        if self.named.len() >= MOST_NAMES {
            return Err(DeclFault::TooMany(at));
        }
        self.open_trees.push(Expr::Op(number))?;
        self.named.push(number)?;
        Ok(())
    }

    /// Takes the last tree off the path.
    fn operand(&mut self, alloc: A, at: u32) -> Result<Box<Expr<A>, A>, DeclFault>
        ensures ok { IfOk result (λ tree. drafted self.old
            ≡ record (drafted self.new) { open_trees = shape tree.value ∷ (drafted self.new).open_trees }) }
        ensures err { IfErr result (λ e. Fails e (HasOne (drafted self.old).open_trees → ⊥)) }
    {
        let Some(tree) = self.open_trees.pop() else {
            return Err(DeclFault::Unexpected(at));
        };
        let operand = Box::new(alloc, tree)?;
        Ok(operand)
    }

    /// Joins the last two trees of the path by `;`.
    fn sequence(&mut self, alloc: A, at: u32) -> Result<(), DeclFault>
        ensures ok { OnOk result (Allowed a_sequence (drafted self.old) × (drafted self.new ≡ after a_sequence (drafted self.old))) }
        ensures err { IfErr result (λ e. Fails e (Allowed a_sequence (drafted self.old) → ⊥)) }
    {
        let right = self.operand(alloc, at)?;
        let left = self.operand(alloc, at)?;
        self.open_trees.push(Expr::Seq(left, right))?;
        Ok(())
    }

    /// Joins the last two trees of the path by `,`.
    fn selection(&mut self, alloc: A, at: u32) -> Result<(), DeclFault>
        ensures ok { OnOk result (Allowed a_selection (drafted self.old) × (drafted self.new ≡ after a_selection (drafted self.old))) }
        ensures err { IfErr result (λ e. Fails e (Allowed a_selection (drafted self.old) → ⊥)) }
    {
        let right = self.operand(alloc, at)?;
        let left = self.operand(alloc, at)?;
        self.open_trees.push(Expr::Alt(left, right))?;
        Ok(())
    }

    /// Opens a brace.
    fn opening(&mut self, at: u32) -> Result<(), DeclFault>
        ensures ok { OnOk result (Allowed an_opening (drafted self.old) × (drafted self.new ≡ after an_opening (drafted self.old))) }
        ensures err { IfErr result (λ e. Fails e (Allowed an_opening (drafted self.old) → ⊥)) }
    {
        if self.in_braces {
            return Err(DeclFault::NestedBraces(at));
        }
        self.in_braces = true;
        Ok(())
    }

    /// Closes braces that have no bound.
    fn closing(&mut self, alloc: A, at: u32) -> Result<(), DeclFault>
        ensures ok { OnOk result (Allowed (a_closing None) (drafted self.old)
            × (drafted self.new ≡ after (a_closing None) (drafted self.old))) }
        ensures err { IfErr result (λ e. Fails e (Allowed (a_closing None) (drafted self.old) → ⊥)) }
    {
        let inner = self.operand(alloc, at)?;
        self.open_trees.push(Expr::Burst(inner))?;
        self.in_braces = false;
        Ok(())
    }

    /// Closes braces whose bound has these digits.
    fn bound(&mut self, alloc: A, digits: &[u8], at: u32) -> Result<(), DeclFault>
        ensures ok { OnOk result (Allowed (a_closing (Some digits.now)) (drafted self.old)
            × (drafted self.new ≡ after (a_closing (Some digits.now)) (drafted self.old))) }
        ensures err { IfErr result (λ e. Fails e (Allowed (a_closing (Some digits.now)) (drafted self.old) → ⊥)) }
    {
        let Some(count) = number_up_to(MOST_AT_ONCE, digits) else {
            return Err(DeclFault::BadCount(at));
        };
        let inner = self.operand(alloc, at)?;
        self.open_trees.push(Expr::Counted(inner, count))?;
        self.in_braces = false;
        Ok(())
    }

    /// Ends the path.
    fn end(&mut self, at: u32) -> Result<(), DeclFault>
        ensures ok { OnOk result (Allowed an_end (drafted self.old) × (drafted self.new ≡ after an_end (drafted self.old))) }
        ensures err { IfErr result (λ e. Fails e (Allowed an_end (drafted self.old) → ⊥)) }
    {
        let Some(tree) = self.open_trees.pop() else {
            return Err(DeclFault::Unexpected(at));
        };
        self.paths.push(PathEntry {
            resource: self.resource,
            tree,
        })?;
        self.open_trees.clear();
        self.named.clear();
        Ok(())
    }

    /// Takes the part whose token is at this offset. After an error the draft is no longer usable.
    pub(crate) fn take(&mut self, alloc: A, part: Part<'_>, at: u32) -> Result<(), DeclFault>
        ensures ok { OnOk result (Allowed (saying part.entry) (drafted self.old)
            × (drafted self.new ≡ after (saying part.entry) (drafted self.old))) }
        ensures err { IfErr result (λ e. Fails e (Allowed (saying part.entry) (drafted self.old) → ⊥)) }
    {
        match part {
            Part::Resource(name) => self.resource(alloc, name, at),
            Part::Law(text) => self.law(text, at),
            Part::Operation(name) => self.operation(alloc, name, at),
            Part::Path => self.path(at),
            Part::Name(name) => self.name(name, at),
            Part::Sequence => self.sequence(alloc, at),
            Part::Selection => self.selection(alloc, at),
            Part::Opening => self.opening(at),
            Part::Closing => self.closing(alloc, at),
            Part::Bound(digits) => self.bound(alloc, digits, at),
            Part::End => self.end(at),
        }
    }
}
