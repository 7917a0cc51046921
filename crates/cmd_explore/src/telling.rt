//! How a search tells what it has found.

ghost use Rattle.std.specs.Prelude.{◌≡◌, ◌⊎◌};
ghost use Rattle.tell_base.specs.Ends.{Ends, Writes as WritesBytes};

use crate::searched::Searched;
use std::io::Write;
use tell_base::{Status, put_ending};

/// Writes on `out` what a search has found wrong, and then on `err` the words that go with it.
///
/// `Unsound`: both were written. `StreamFailed`: a writer failed, and what it took is unknown. `NoMemory`: memory ran out, and a front of
/// the text was written.
pub fn tell_wrong<O: Write, E: Write>(text: &[u8], words: &[u8], out: &mut O, err: &mut E) -> Status
    ensures { Ends (WritesBytes Status.Unsound text.now) (O.contents out.old) (O.contents out.new) result }
{
    match put_ending(out, err, text, Status::Unsound) {
        Status::Unsound => match err.write_all(words) {
            Ok(()) => Status::Unsound,
            Err(_) => Status::StreamFailed,
        },
        status => status,
    }
}

/// Says on `err` that a search came to no answer, and after how many states. `StreamFailed` if that can't be written.
pub fn tell_undecided<E: Write>(states: usize, err: &mut E) -> Searched
    ensures { (result ≡ Searched.Undecided) ⊎ (result ≡ Searched.Ended Status.StreamFailed) }
{
    match writeln!(err, "undecided after {states} states") {
        Ok(()) => Searched::Undecided,
        Err(_) => Searched::Ended(Status::StreamFailed),
    }
}
