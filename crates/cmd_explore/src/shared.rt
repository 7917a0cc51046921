//! Operations that more than one path names.

ghost use Rattle.std.specs.Prelude.{◌<◌, ◌↔◌, IfSome, IsTrue, length};
ghost use Rattle.tell_base.specs.Refusals.{Under};
ghost use Rattle.cmd_explore.specs.Shared.{IsShared, SharesOperations};

use path_decl::{Decl, counts, paths_of};
use path_model::OpId;
use path_read::read;
use std::alloc::Allocator;

/// Whether more than one path names a declared operation.
fn is_shared<A: Allocator + Copy>(decl: &Decl<A>, op: OpId) -> bool
    requires { op.0 < length decl.now.declaration.operations }
    ensures { IsTrue result ↔ IsShared decl.now.declaration op }
{
    match paths_of(decl, op) {
        Some(paths) => paths.len() > 1,
        None => false,
    }
}

/// Whether more than one path names some operation.
fn has_shared<A: Allocator + Copy>(decl: &Decl<A>) -> bool
    ensures { IsTrue result ↔ SharesOperations decl.now.declaration }
{
    for number in 0..counts(decl).operations {
        if is_shared(decl, OpId(number)) {
            return true;
        }
    }
    false
}

/// Whether more than one path names some operation of the declaration in a text: paths that share none can't wait for one another. `None`:
/// the text is no declaration, or memory ran out. Takes the time of [`read`](path_read::read).
pub fn shares_operations<A: Allocator + Copy>(alloc: A, declaration: &[u8]) -> Option<bool>
    ensures { IfSome result (λ shares. Under declaration.now (λ d. IsTrue shares ↔ SharesOperations d)) }
{
    match read(alloc, declaration) {
        Ok(decl) => Some(has_shared(&decl)),
        Err(_) => None,
    }
}
