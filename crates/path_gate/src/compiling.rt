//! From a declaration to its gate.

ghost use Rattle.std.specs.Prelude.{◌≡◌, [], IfOk};
ghost use Rattle.path_model.specs.Declarations as declarations;
ghost use Rattle.path_gate.specs.Standings.{IsAt};

use crate::gate::Gate;
use path_code::translate;
use path_decl::Decl;
use path_model::OutOfMemory;
use path_trim::trim;
use std::alloc::Allocator;

/// Compiles a declaration to its gate: translates its paths, removes the useless semaphores, and opens the gate over what is left,
/// with nothing in progress and nothing admitted.
///
/// Fails only if allocation fails. The cost is that of the three steps: [`translate`], [`trim`] and [`Gate::open`].
pub fn compile<A: Allocator + Copy>(alloc: A, decl: &Decl<A>) -> Result<Gate<A>, OutOfMemory>
    ensures paths { IfOk result (λ gate. gate.paths ≡ declarations.paths_of decl.now.declaration) }
    ensures opened { IfOk result (λ gate. IsAt gate []) }
    ensures admitted { IfOk result (λ gate. gate.admitted ≡ 0) }
{
    let code = translate(alloc, decl)?;
    match trim(alloc, code) {
        Ok(lean) => Gate::open(alloc, lean),
        Err((_, error)) => Err(error),
    }
}
