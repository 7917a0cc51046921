//! From a declaration to its print.

ghost use Rattle.path_print.specs.Printed.{printed};
ghost use Rattle.tell_base.specs.Ends.{Ends};
ghost use Rattle.cmd_check.specs.Outputs.{OutputEnds};

use crate::output::{Output, put_output};
use std::alloc::Allocator;
use std::io::Write;
use tell_base::Status;

/// Reads a declaration and writes it in one line, as `print` lays it out. The cost is that of the text.
///
/// `DeclarationRefused`: the text is refused, and nothing was written. `StreamFailed`: a writer failed, and what it took is
/// unknown. `NoMemory`: allocation failed, and a front of the print was written. A fault is one line on `err`.
pub fn check_to<A: Allocator + Copy, O: Write, E: Write>(
    alloc: A,
    text: &[u8],
    out: &mut O,
    err: &mut E,
) -> Status
    // The text is a declaration, and its print was written; or it isn't, and nothing was.
    ensures { Ends (OutputEnds printed text.now) (O.contents out.old) (O.contents out.new) result }
{
    put_output(alloc, text, Output::Print, out, err)
}
