//! From a declaration to its semaphores.

ghost use Rattle.tell_base.specs.Ends.{Ends};
ghost use Rattle.cmd_check.specs.Outputs.{OutputEnds, compiled_text};

use crate::output::{Output, put_output};
use std::alloc::Allocator;
use std::io::Write;
use tell_base::Status;

/// Reads a declaration and writes what it is compiled to (Campbell and Habermann, 1974): its semaphores, prologues and
/// epilogues, the line `trimmed`, and what trimming leaves of them. The cost is that of the texts, and of comparing each path
/// with the earlier ones.
///
/// `DeclarationRefused`: the text is refused, and nothing was written. `StreamFailed`: a writer failed, and what it took is
/// unknown. `NoMemory`: allocation failed, and a front of the listings was written. A fault is one line on `err`.
pub fn compile_to<A: Allocator + Copy, O: Write, E: Write>(
    alloc: A,
    text: &[u8],
    out: &mut O,
    err: &mut E,
) -> Status
    // The text is a declaration, and what it is compiled to was written; or it isn't, and nothing was.
    ensures { Ends (OutputEnds compiled_text text.now) (O.contents out.old) (O.contents out.new) result }
{
    put_output(alloc, text, Output::Listings, out, err)
}
