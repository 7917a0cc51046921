//! Writing bytes, and what was written if that fails.

ghost use Rattle.std.specs.Prelude.{◌≡◌, ◌⊎◌, OnOk, OnErr, IfErr};
ghost use Rattle.std.specs.Io.KnownBytes.{Appends};
ghost use Rattle.tell_base.specs.Ends.{Ends, Writes};
ghost use Rattle.tell_base.specs.Writes.{AppendsSome, IsFrontOf};

use crate::fault::{Fault, tell};
use crate::status::Status;
use std::io::{ErrorKind, Write};

/// Writes all of the bytes, or a front of them if the writer fails. Retries an interrupted write. Fails with `Unwritable` if the
/// writer fails or takes no bytes, and with `OutOfMemory` if it says that memory ran out.
pub fn put<O: Write>(out: &mut O, bytes: &[u8]) -> Result<(), Fault<'static>>
    ensures ok { OnOk result (Appends (O.contents out.old) (O.contents out.new) bytes.now) }
    ensures err { OnErr result (AppendsSome (O.contents out.old) (O.contents out.new) (IsFrontOf (λ all. all ≡ bytes.now))) }
    ensures fault { IfErr result (λ fault. (fault ≡ Fault.Unwritable) ⊎ (fault ≡ Fault.OutOfMemory)) }
{
    let mut rest = bytes;
    for _ in 0..u64::MAX {
        if rest.is_empty() {
            return Ok(());
        }
        match out.write(rest) {
            Ok(0) => return Err(Fault::Unwritable),
            Ok(n) => rest = &rest[n..],
            Err(error) => {
                if error.kind() != ErrorKind::Interrupted {
                    return Err(Fault::of_writing(&error));
                }
            }
        }
    }
    Err(Fault::Unwritable)
}

/// Writes all of the text and flushes it, and then ends with this status. If the writer fails, what it took is unknown; if it runs out of
/// memory, it took a front. A fault is one line on `err`.
pub fn put_ending<O: Write, E: Write>(
    out: &mut O,
    err: &mut E,
    text: &[u8],
    status: Status,
) -> Status
    ensures { Ends (Writes status text.now) (O.contents out.old) (O.contents out.new) result }
{
    if let Err(fault) = put(out, text) {
        return tell(err, fault);
    }
    match out.flush() {
        Ok(()) => status,
        Err(error) => tell(err, Fault::of_writing(&error)),
    }
}

/// Writes all of the text, as [`put_ending`] does, and ends as done.
pub fn put_text<O: Write, E: Write>(out: &mut O, err: &mut E, text: &[u8]) -> Status
    ensures { Ends (Writes Status.Done text.now) (O.contents out.old) (O.contents out.new) result }
{
    put_ending(out, err, text, Status::Done)
}
