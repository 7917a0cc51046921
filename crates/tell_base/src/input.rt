//! Bounded input.

ghost use Rattle.std.specs.Prelude.{◌≡◌, ◌<◌, ◌≤◌, length, IfOk, IfSome, IsErrOf};

use crate::fault::Fault;
use std::alloc::Allocator;
use std::io::Read;

/// Reads all bytes of a reader, which a fault names by `name`. Fails with `TooLong` if there are more than the limit, with
/// `Unreadable` if the reader fails, and with `OutOfMemory` if allocation fails. Reads at most one byte past the limit.
/// Allocates memory for the expected number of bytes at once; a wrong expectation only costs time. Gives back the memory that the
/// bytes don't fill. That these are all bytes is proved only of readers that say what remains in them, as a `&[u8]` does.
pub fn read_all<'a, A: Allocator + Copy, R: Read + Drop>(
    alloc: A,
    reader: R,
    expected: usize,
    limit: usize,
    name: &'a str,
) -> Result<Vec<u8, A>, Fault<'a>>
    ensures ok { IfOk result (λ v. (length v.items ≤ limit) × IfSome (R.remaining reader) (λ bytes. v.items ≡ bytes)) }
    ensures too_long { IsErrOf result (Fault.TooLong name.entry) → IfSome (R.remaining reader) (λ bytes. limit < length bytes) }
{
    // One more byte of capacity shows the end without growing.
    let mut bytes = Vec::with_capacity(alloc, expected.min(limit).saturating_add(1))?;
    let most = (limit as u64).saturating_add(1);
    match reader.take(most).read_to_end(&mut bytes) {
        Ok(_) if bytes.len() > limit => Err(Fault::TooLong(name)),
        Ok(_) => {
            bytes.shrink_to_fit();
            Ok(bytes)
        }
        Err(error) => Err(Fault::of_reading(name, &error)),
    }
}
