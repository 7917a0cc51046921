//! Blocks of the input.

ghost use Rattle.std.specs.Prelude.{◌≡◌, ◌<◌, ◌≤◌, length, take, IfOk, OnErr};
ghost use Rattle.std.specs.Io.KnownBytes.{Consumes, IsAtEnd, Keeps};

use crate::stop::Stop;
use std::io::{ErrorKind, Read};

/// Reads what the reader has next, at least one byte, and returns how many bytes there are in the block; 0 at the end of the input.
/// Waits for no more than the reader does. Retries an interrupted read. Fails with `Unreadable` or `OutOfMemory`, as the reader does.
pub fn read_block<R: Read>(input: &mut R, block: &mut [u8]) -> Result<usize, Stop>
    requires { 0 < length block.old }
    ensures within { IfOk result (λ count. count ≤ length block.new) }
    ensures bytes { IfOk result (λ count. Consumes (R.remaining input.old) (R.remaining input.new) (take count block.new)) }
    ensures end { IfOk result (λ count. count ≡ 0 → IsAtEnd (R.remaining input.new)) }
    ensures kept { OnErr result (Keeps (R.remaining input.old) (R.remaining input.new)) }
{
    for _ in 0..u64::MAX {
        match input.read(block) {
            Ok(count) => return Ok(count),
            Err(error) => {
                if error.kind() != ErrorKind::Interrupted {
                    return Err(Stop::of_reading(&error));
                }
            }
        }
    }
    Err(Stop::Unreadable)
}
