//! A search of all histories, from bytes to bytes.

ghost use Rattle.std.specs.Prelude.{◌≤◌, [], length, Some};
ghost use Rattle.path_journal.specs.JournalTexts.{journal_text};
ghost use Rattle.search_histories.specs.Outcomes.{AreMore, ample};
ghost use Rattle.tell_base.specs.Ends.{Ends, UnderText, Writes as WritesBytes};
ghost use Rattle.tell_base.specs.Refusals.{Under};
ghost use Rattle.cmd_explore.specs.Searches.{HasSearched};
ghost use Rattle.cmd_explore.specs.Reaches.{FewMarks, IsOpen, OfReach, Says, Tells, never_lines};

use crate::searched::Searched;
use crate::telling::{tell_undecided, tell_wrong};
use crate::words::goes_text;
use path_decl::Decl;
use path_journal::write_journal;
use path_model::{Line, MOST_LINES};
use path_read::read;
use search_histories::{Reached, reach};
use std::alloc::Allocator;
use std::io::Write;
use tell_base::{Fault, Status, put_ending, tell};

/// Writes what is so of a declaration of which no group can freeze.
fn tell_goes<A: Allocator + Copy, O: Write, E: Write>(
    alloc: A,
    decl: &Decl<A>,
    states: usize,
    begins: &[bool],
    out: &mut O,
    err: &mut E,
) -> Status
    requires { length begins.now ≤ 256 }
    ensures { Ends (Tells states (never_lines decl.now.declaration 0 begins.now)) (O.contents out.old) (O.contents out.new) result }
{
    match goes_text(alloc, decl, states, begins) {
        Ok((status, text)) => put_ending(out, err, text.as_bytes(), status),
        Err(_) => tell(err, Fault::OutOfMemory),
    }
}

/// Writes the journal of a history that freezes a group.
fn tell_journal<A: Allocator + Copy, O: Write, E: Write>(
    alloc: A,
    decl: &Decl<A>,
    lines: &[Line],
    out: &mut O,
    err: &mut E,
) -> Status
    ensures { Ends (WritesBytes Status.Unsound (journal_text decl.now.declaration (Some ample) lines.now))
        (O.contents out.old) (O.contents out.new) result }
{
    match write_journal(alloc, decl, Some(MOST_LINES), lines) {
        Ok(journal) => tell_wrong(journal.as_bytes(), b"frozen\n", out, err),
        Err(_) => tell(err, Fault::OutOfMemory),
    }
}

/// Writes what a search came to.
fn tell_reached<A: Allocator + Copy, O: Write, E: Write>(
    alloc: A,
    decl: &Decl<A>,
    reached: &Reached<A>,
    out: &mut O,
    err: &mut E,
) -> Searched
    requires { FewMarks reached.now }
    ensures { HasSearched (Says decl.now.declaration reached.now) (IsOpen reached.now) (O.contents out.old) (O.contents out.new) result }
{
    match reached {
        Reached::Goes { states, begins } => {
            Searched::Ended(tell_goes(alloc, decl, *states, begins, out, err))
        }
        Reached::Freezes(lines) => Searched::Ended(tell_journal(alloc, decl, lines, out, err)),
        Reached::FreezesLate => Searched::Ended(tell_wrong(
            b"",
            b"frozen, behind more lines than a journal has room for\n",
            out,
            err,
        )),
        Reached::Undecided { states } => tell_undecided(*states, err),
    }
}

/// Looks at every history of a declaration in which at most `workers` executions are in progress at once, and at most at `most` states, as
/// [`reach`](search_histories::reach) does and at its cost.
///
/// `Done`: every operation begins somewhere, and no group can freeze; `out` gets this, and how many states the groups have together.
/// `Unsound`: one can, and of the first that can `out` gets the journal of a shortest history behind which nothing is live and nothing of
/// the group that a path names may begin, as a text of version 2 with room for [`MOST_LINES`](path_model::MOST_LINES) lines, or nothing if
/// it has more; `err` says so. Or none can, and `out` gets a line for each operation that never begins, and how many states there are.
/// `Undecided`: a group has more states, and none that was looked at whole can freeze; nothing was written, and `err` says so.
/// `StreamFailed`: a writer failed. `NoMemory`: memory ran out, and a front of the text was written. A fault is one line on `err`.
pub fn reach_to<A: Allocator + Copy, O: Write, E: Write>(
    alloc: A,
    decl: &Decl<A>,
    workers: u32,
    most: u32,
    out: &mut O,
    err: &mut E,
) -> Searched
    ensures { HasSearched (OfReach decl.now.declaration workers) (AreMore decl.now.declaration workers most)
        (O.contents out.old) (O.contents out.new) result }
{
    match reach(alloc, decl, workers, most) {
        Ok(reached) => tell_reached(alloc, decl, &reached, out, err),
        Err(_) => Searched::Ended(tell(err, Fault::OutOfMemory)),
    }
}

/// Reads a declaration, and looks at every history of it, as [`reach_to`] does.
///
/// `DeclarationRefused`: the declaration is refused, and nothing was written. The other endings are those of [`reach_to`].
pub fn reach_bytes<A: Allocator + Copy, O: Write, E: Write>(
    alloc: A,
    declaration: &[u8],
    workers: u32,
    most: u32,
    out: &mut O,
    err: &mut E,
) -> Searched
    // Done: each operation begins behind some history, and none freezes a group. Unsound: an operation that is named begins behind none,
    // or a shortest history of a group that freezes it was written. Undecided: there are more states than were to be looked at.
    ensures { HasSearched (UnderText declaration.now (λ d. OfReach d workers)) (Under declaration.now (λ d. AreMore d workers most))
        (O.contents out.old) (O.contents out.new) result }
{
    match read(alloc, declaration) {
        Ok(decl) => reach_to(alloc, &decl, workers, most, out, err),
        Err(fault) => Searched::Ended(tell(err, Fault::Declaration(fault))),
    }
}
