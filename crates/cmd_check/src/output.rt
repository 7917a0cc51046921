//! From the text of a declaration to what a command writes of it.

ghost use Rattle.std.specs.Prelude.{◌≡◌, IfOk, IfErr};
ghost use Rattle.std.specs.String.{string_bytes};
ghost use Rattle.tell_base.specs.Ends.{Ends};
ghost use Rattle.tell_base.specs.Refusals.{IsUndeclared, Under};
ghost use Rattle.tell_base.specs.Statuses.{status_of};
ghost use Rattle.cmd_check.specs.Outputs.{OutputEnds, output_text};

use crate::listings::listings;
use path_decl::Decl;
use path_model::OutOfMemory;
use path_print::print;
use path_read::read;
use std::alloc::Allocator;
use std::io::Write;
use tell_base::{Fault, Status, put_text, tell};

/// What a command writes of a declaration.
#[derive(Clone, Copy)]
pub enum Output {
    /// Its print.
    Print,
    /// What it is compiled to.
    Listings,
}

/// What is written of a declaration. Fails only if allocation fails.
fn output_of<A: Allocator + Copy>(
    alloc: A,
    decl: &Decl<A>,
    output: Output,
) -> Result<String<A>, OutOfMemory>
    ensures { IfOk result (λ text. string_bytes text ≡ output_text output decl.now.declaration) }
{
    match output {
        Output::Print => Ok(print(alloc, decl)?),
        Output::Listings => listings(alloc, decl),
    }
}

/// What is written of the declaration in `text`.
fn read_output<A: Allocator + Copy>(
    alloc: A,
    text: &[u8],
    output: Output,
) -> Result<String<A>, Fault<'static>>
    ensures ok { IfOk result (λ written. Under text.now (λ d. string_bytes written ≡ output_text output d)) }
    ensures err { IfErr result (λ fault. IsUndeclared text.now (status_of fault)) }
{
    match read(alloc, text) {
        Ok(decl) => {
            let written = output_of(alloc, &decl, output);
            drop(decl);
            Ok(written?)
        }
        Err(fault) => Err(Fault::Declaration(fault)),
    }
}

/// Reads a declaration and writes this of it. The statuses are those of [`check_to`](crate::check_to).
pub fn put_output<A: Allocator + Copy, O: Write, E: Write>(
    alloc: A,
    text: &[u8],
    output: Output,
    out: &mut O,
    err: &mut E,
) -> Status
    ensures { Ends (OutputEnds (output_text output) text.now) (O.contents out.old) (O.contents out.new) result }
{
    match read_output(alloc, text, output) {
        Ok(written) => put_text(out, err, written.as_bytes()),
        Err(fault) => tell(err, fault),
    }
}
