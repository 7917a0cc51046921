//! Every schedule of the script in a text.

ghost use Rattle.std.specs.Prelude.{◌≡◌, ◌<◌, ◌≤◌, ◌⊎◌, length, Contains};
ghost use Rattle.path_c.specs.Answers as answers;
ghost use Rattle.path_c.specs.Searched as searched;

use crate::answer::{CodedAnswer, unsearched, with};
use crate::codes;
use crate::texts::{give_as, put_front, put_words};
use path_script::LIMIT;
use path_service::{Found, explore_text};
use std::alloc::Global;

/// A length that no journal of a script with so many bytes passes: a step is a line of the script, and at most a line of a journal,
/// which is less than 8 times as long.
fn enough(script: usize) -> usize
    ensures { result ≡ searched.enough script }
{
    8 * script.min(LIMIT) + 64
}

/// Tells what was found, by an answer, in the buffer of the journal, and in that of the message, as far as it fits.
fn found_told(found: &Found<Global>, journal: &mut [u8], message: &mut [u8]) -> CodedAnswer
    ensures told { searched.IsToldOf found.now journal.old result journal.new }
    ensures message { 0 < length message.old → Contains message.new 0 }
{
    match found {
        Found::AllDone { states } => {
            put_front(message, b"");
            with(codes::ALL_DONE, *states as u64)
        }
        Found::Stalls(schedule) => {
            put_front(message, schedule.standings.as_bytes());
            give_as(codes::STALLS, journal, schedule.journal.as_bytes())
        }
        Found::Refused(schedule) => {
            put_front(message, schedule.standings.as_bytes());
            give_as(codes::REFUSED, journal, schedule.journal.as_bytes())
        }
        Found::Undecided { states } => {
            put_front(message, b"");
            with(codes::UNDECIDED, *states as u64)
        }
    }
}

/// Looks at every schedule of the script in a text under the declaration in another, and at most at `most` states, unless the buffer is
/// too small for some journal of a script of this length: then nothing is read. The message says in words why nothing was searched, or
/// where each process is behind the schedule that was found, as far as it fits, and ends with a zero byte.
#[unsafe(no_mangle)]
pub extern "C" fn path_c_explore(
    alloc: Global,
    declaration: &[u8],
    script: &[u8],
    most: u32,
    journal: &mut [u8],
    message: &mut [u8],
) -> CodedAnswer
    ensures small { length journal.old ≤ searched.enough (length script.now)
        → (result ≡ answers.too_small (searched.enough (length script.now))) × (journal.new ≡ journal.old) }
    ensures told { searched.enough (length script.now) < length journal.old
        → searched.IsSearched declaration.now script.now most journal.old result journal.new
        ⊎ searched.IsUnsearched declaration.now script.now journal.old result journal.new }
    ensures message { 0 < length message.old → Contains message.new 0 }
{
    let wanted = enough(script.len());
    if journal.len() <= wanted {
        put_front(message, b"too small");
        return with(codes::TOO_SMALL, wanted as u64);
    }
    match explore_text(alloc, declaration, script, most) {
        Ok(found) => found_told(&found, journal, message),
        Err(refusal) => {
            put_words(alloc, message, refusal);
            unsearched(refusal)
        }
    }
}
