//! How a page is told of an answer: by a number, by two lengths, and in two buffers.

ghost use Rattle.std.specs.Prelude.{◌≡◌, ◌⊎◌, length};
ghost use Rattle.path_page.specs.Told.{IsGiven, IsGivenAs, IsTooShort};

use page_answers::{Answer, TooShort};
use std::alloc::Allocator;

/// How long the two texts of an answer are, in bytes.
#[repr(C)]
#[derive(Clone, Copy, Debug, PartialEq, Eq)]
pub struct Lengths {
    pub out: usize,
    pub err: usize,
}

/// The number for a buffer that is too short. Statuses are 0 to 6.
const TOO_SHORT: u32 = 7;
/// The number for a search that came to no answer.
pub(crate) const UNDECIDED: u32 = 8;

/// Tells the lengths of both texts, copies them over the fronts of the buffers, and returns this number; or, if a buffer is too short,
/// leaves both as they are and returns 7.
pub(crate) fn tell_as<A: Allocator>(
    number: u32,
    answer: &Answer<A>,
    out: &mut [u8],
    err: &mut [u8],
    lengths: &mut Lengths,
) -> u32
    ensures out_length { lengths.new.out ≡ length answer.now.out.items }
    ensures err_length { lengths.new.err ≡ length answer.now.err.items }
    ensures told { IsGivenAs number answer.now.out.items answer.now.err.items result out.old out.new err.old err.new
        ⊎ IsTooShort answer.now.out.items answer.now.err.items result out.old out.new err.old err.new }
{
    lengths.out = answer.out.len();
    lengths.err = answer.err.len();
    match answer.fill(out, err) {
        Ok(()) => number,
        Err(TooShort) => TOO_SHORT,
    }
}

/// The same with the number of the status.
pub(crate) fn tell<A: Allocator>(
    answer: &Answer<A>,
    out: &mut [u8],
    err: &mut [u8],
    lengths: &mut Lengths,
) -> u32
    ensures out_length { lengths.new.out ≡ length answer.now.out.items }
    ensures err_length { lengths.new.err ≡ length answer.now.err.items }
    ensures told { IsGiven answer.now.status answer.now.out.items answer.now.err.items result out.old out.new err.old err.new
        ⊎ IsTooShort answer.now.out.items answer.now.err.items result out.old out.new err.old err.new }
{
    let number = u32::from(u8::from(answer.status));
    tell_as(number, answer, out, err, lengths)
}
