//! The listings of what a declaration is compiled to.

ghost use Rattle.std.specs.Prelude.{◌≡◌, IfOk};
ghost use Rattle.std.specs.String.{string_bytes};
ghost use Rattle.cmd_check.specs.Outputs.{compiled_text};

use path_code::{listing, translate};
use path_decl::Decl;
use path_model::OutOfMemory;
use path_trim::{lean_listing, trim};
use std::alloc::Allocator;

/// The listing of a declaration, the line `trimmed`, and the listing of what trimming leaves. Fails only if allocation fails.
pub fn listings<A: Allocator + Copy>(alloc: A, decl: &Decl<A>) -> Result<String<A>, OutOfMemory>
    ensures { IfOk result (λ text. string_bytes text ≡ compiled_text decl.now.declaration) }
{
    let code = translate(alloc, decl)?;
    let mut text = listing(alloc, decl, &code)?;
    match trim(alloc, code) {
        Ok(lean) => {
            let left = lean_listing(alloc, decl, &lean)?;
            text.push_str("trimmed\n")?;
            text.push_str(&left)?;
            Ok(text)
        }
        Err((_, error)) => Err(error),
    }
}
