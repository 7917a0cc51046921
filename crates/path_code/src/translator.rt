//! From a declaration to prologues and epilogues.

ghost use Rattle.std.specs.Prelude.{◌≡◌, ◌+◌, ◌-◌, ◌*◌, ◌<◌, ◌≤◌, ◌∷◌, ◌^◌, replicate, IfOk};
ghost use Rattle.path_model.specs.Trees.{shape, FewAtOnce, WellFormed};
ghost use Rattle.path_model.specs.Machine.{semicolons, braces};
ghost use Rattle.path_model.specs.Flat.{semaphores_in};
ghost use Rattle.path_code.specs.PathCodes.{IsPathCode, numbered_values, numbers_from};
ghost use Rattle.path_code.specs.Inner.Walks.{parts};

use crate::code::{Code, PathCode};
use crate::substitution::{Numbers, add_starts, count_parts, set_ends};
use crate::terms::{Epilogue, Prologue};
use path_decl::{Decl, counts, path_resource, tree_of};
use path_model::{Expr, OutOfMemory, PathId, ResId};
use std::alloc::Allocator;

/// A path's own semaphore, which has the number `own` and opens at 1, and the semaphores of its `;`, which have the next numbers up to
/// but not including `end` and open at 0. Reserves capacity for `more` further ones. Fails only if allocation fails.
fn first_semaphores<A: Allocator + Copy>(
    alloc: A,
    own: u16,
    end: u16,
    more: u16,
) -> Result<Vec<(u16, u16), A>, OutOfMemory>
    requires { own < end }
    ensures { IfOk result (λ v. v.items ≡ (own, 1) ∷ numbered_values (own + 1) (replicate (end - (own + 1)) 0)) }
{
    let places = (end - own) as usize + more as usize;
    let mut semaphores = Vec::with_capacity(alloc, places)?;
    semaphores.push((own, 1))?;
    for number in own + 1..end {
        semaphores.push((number, 0))?;
    }
    Ok(semaphores)
}

/// The numbers from `first` up to but not including `end`. Fails only if allocation fails.
fn numbers<A: Allocator + Copy>(alloc: A, first: u16, end: u16) -> Result<Vec<u16, A>, OutOfMemory>
    requires { first ≤ end }
    ensures { IfOk result (λ v. v.items ≡ numbers_from first (end - first)) }
{
    let mut numbers = Vec::with_capacity(alloc, (end - first) as usize)?;
    for number in first..end {
        numbers.push(number)?;
    }
    Ok(numbers)
}

/// The code of a path whose own semaphore has the number `own` and whose first pair of braces has the number `brace`. Fails only if
/// allocation fails. The cost is three walks over its tree.
fn path_code<'d, A: Allocator + Copy>(
    alloc: A,
    resource: ResId,
    tree: &'d Expr<A>,
    own: u16,
    brace: u16,
) -> Result<PathCode<'d, A>, OutOfMemory>
    requires formed { WellFormed (shape tree.now) }
    requires bounded { FewAtOnce (shape tree.now) }
    requires few { parts (shape tree.now) + own + brace + 2 < 2 ^ 16 }
    ensures code { IfOk result (IsPathCode (record { tree = shape tree.now; own = own; first = brace })) }
    ensures resource { IfOk result (λ code. code.resource ≡ resource) }
{
    let mut count = Numbers {
        place: 0,
        semicolon: 0,
        brace: 0,
        bound: 0,
    };
    count_parts(tree, &mut count);
    let mut next = Numbers {
        place: 0,
        semicolon: own + 1,
        brace,
        bound: own + 1 + count.semicolon,
    };
    let mut semaphores = first_semaphores(alloc, own, next.bound, count.bound)?;
    let mut ops = Vec::with_capacity(alloc, count.place as usize)?;
    add_starts(&mut ops, &mut semaphores, tree, &mut next, Prologue::P(own))?;
    let braces = numbers(alloc, brace, next.brace)?;
    set_ends(&mut ops, tree, &mut next, Epilogue::V(own));
    Ok(PathCode {
        resource,
        tree,
        semaphores,
        braces,
        ops,
    })
}

/// Compiles the paths of a declaration. From the root of each tree downwards, `L S ; T R` becomes `L S V(t)` and `P(t) T R` with a
/// semaphore `t` that opens at 0, `L S , T R` becomes `L S R` and `L T R`, and `L { S } R` becomes `PP(c,m,L) S VV(c,m,R)`; with a
/// bound, `P(u)` comes before it and `V(u)` after it, and `u` opens at the bound. The root has `P(s)` and `V(s)`, and `s` opens at 1
/// (Campbell and Habermann, 1974). Semaphores and pairs of braces are numbered from 0 through the file.
///
/// Fails only if allocation fails; nothing is kept then. The cost is three walks over each tree, and memory for each semaphore,
/// pair of braces and name. No tree is copied.
pub fn translate<'d, A: Allocator + Copy>(
    alloc: A,
    decl: &'d Decl<A>,
) -> Result<Code<'d, A>, OutOfMemory>
    ensures { IfOk result (λ code. code.paths ≡ decl.now.declaration.paths) }
{
    let total = counts(decl).paths;
    let mut paths = Vec::with_capacity(alloc, total as usize)?;
    let mut semaphore = 0;
    let mut brace = 0;
    for number in 0..total {
        let path = PathId(number);
        let resource = path_resource(decl, path).unwrap();
        let tree = tree_of(decl, path).unwrap();
        let code = path_code(alloc, resource, tree, semaphore, brace)?;
        semaphore += code.semaphores.len() as u16;
        brace += code.braces.len() as u16;
        paths.push(code)?;
    }
    Ok(Code { decl, paths })
}
