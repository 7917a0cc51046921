//! A search of all schedules, from bytes to bytes.

ghost use Rattle.std.specs.Prelude.{◌≡◌, IfOk, Some};
ghost use Rattle.std.specs.String.{string_bytes};
ghost use Rattle.path_journal.specs.JournalTexts.{journal_text};
ghost use Rattle.search_schedules.specs.Schedules.{ample};
ghost use Rattle.tell_base.specs.Ends.{Ends, Writes as WritesBytes};
ghost use Rattle.tell_base.specs.Refusals.{Under};
ghost use Rattle.cmd_explore.specs.Searches.{HasSearched, IsOpen, IsUndecided, OfSearch, Says, SearchEnds, done_text};

use crate::searched::Searched;
use crate::standings::standings_text;
use crate::telling::{tell_undecided, tell_wrong};
use path_decl::Decl;
use path_journal::write_journal;
use path_model::{Line, MOST_LINES, OutOfMemory};
use path_read::read;
use path_script::{Script, read_script};
use search_schedules::{Explored, explore};
use std::alloc::Allocator;
use std::io::Write;
use tell_base::{Fault, Status, put_text, tell};

/// What is written if every schedule ends done. Fails only if allocation fails.
fn done<A: Allocator + Copy>(alloc: A, states: usize) -> Result<String<A>, OutOfMemory>
    ensures { IfOk result (λ text. string_bytes text ≡ done_text states) }
{
    let mut text = String::new(alloc);
    write!(text, "every schedule ends done\nstates {states}\n")?;
    Ok(text)
}

/// Writes on `out` that every schedule ends done.
fn tell_done<A: Allocator + Copy, O: Write, E: Write>(
    alloc: A,
    states: usize,
    out: &mut O,
    err: &mut E,
) -> Status
    ensures { Ends (WritesBytes Status.Done (done_text states)) (O.contents out.old) (O.contents out.new) result }
{
    match done(alloc, states) {
        Ok(text) => put_text(out, err, text.as_bytes()),
        Err(_) => tell(err, Fault::OutOfMemory),
    }
}

/// Writes the journal of a schedule on `out`, and on `err` where each process is behind it.
fn tell_schedule<A: Allocator + Copy, O: Write, E: Write>(
    alloc: A,
    decl: &Decl<A>,
    script: &Script<A>,
    lines: &[Line],
    out: &mut O,
    err: &mut E,
) -> Status
    ensures { Ends (WritesBytes Status.Unsound (journal_text decl.now.declaration (Some ample) lines.now))
        (O.contents out.old) (O.contents out.new) result }
{
    let Ok(journal) = write_journal(alloc, decl, Some(MOST_LINES), lines) else {
        return tell(err, Fault::OutOfMemory);
    };
    let Ok(standings) = standings_text(alloc, decl, script.processes(), lines) else {
        return tell(err, Fault::OutOfMemory);
    };
    tell_wrong(journal.as_bytes(), standings.as_bytes(), out, err)
}

/// Writes what a search came to.
fn tell_explored<A: Allocator + Copy, O: Write, E: Write>(
    alloc: A,
    decl: &Decl<A>,
    script: &Script<A>,
    explored: &Explored<A>,
    out: &mut O,
    err: &mut E,
) -> Searched
    ensures { HasSearched (Says decl.now.declaration explored.now) (IsOpen explored.now) (O.contents out.old) (O.contents out.new) result }
{
    match explored {
        Explored::AllDone { states } => Searched::Ended(tell_done(alloc, *states, out, err)),
        Explored::Stalls(lines) => {
            Searched::Ended(tell_schedule(alloc, decl, script, lines, out, err))
        }
        Explored::Faults(lines) => {
            Searched::Ended(tell_schedule(alloc, decl, script, lines, out, err))
        }
        Explored::Undecided { states } => tell_undecided(*states, err),
    }
}

/// Looks at every schedule of a script under a declaration, with new devices of the program's own, and at most at `most`
/// configurations, as [`explore`](search_schedules::explore) does and at its cost.
///
/// `Done`: every schedule ends done, and `out` gets this, and how many configurations there are. `Unsound`: one doesn't; `out` gets the
/// journal of a shortest that doesn't, as a text of version 2 with room for [`MOST_LINES`](path_model::MOST_LINES) lines, and `err` a line
/// for each process: its name, `: `, and where it is. `Undecided`: there are more configurations; nothing was written, and `err`
/// says so. `TextRefused`: the script is refused, and nothing was written. `StreamFailed`: a writer failed. `NoMemory`: memory ran
/// out, and a front of the text was written. A fault is one line on `err`.
pub fn explore_to<A: Allocator + Copy, O: Write, E: Write>(
    alloc: A,
    decl: &Decl<A>,
    script: &[u8],
    most: u32,
    out: &mut O,
    err: &mut E,
) -> Searched
    ensures { HasSearched (OfSearch decl.now.declaration script.now) (IsUndecided script.now most decl.now.declaration)
        (O.contents out.old) (O.contents out.new) result }
{
    let script = match read_script(alloc, decl, script) {
        Ok(script) => script,
        Err(fault) => return Searched::Ended(tell(err, Fault::Script(fault))),
    };
    match explore(alloc, decl, &script, most) {
        Ok(explored) => tell_explored(alloc, decl, &script, &explored, out, err),
        Err(_) => Searched::Ended(tell(err, Fault::OutOfMemory)),
    }
}

/// Reads a declaration, and looks at every schedule of a script under it, as [`explore_to`] does.
///
/// `DeclarationRefused`: the declaration is refused, which counts first, and nothing was written. The other endings are those of
/// [`explore_to`].
pub fn explore_bytes<A: Allocator + Copy, O: Write, E: Write>(
    alloc: A,
    declaration: &[u8],
    script: &[u8],
    most: u32,
    out: &mut O,
    err: &mut E,
) -> Searched
    // Done: every schedule of the script goes on until all its processes have ended. Unsound: a shortest that doesn't was written. A
    // declaration or a script that is refused is none. Undecided: there are more schedules than were to be looked at.
    ensures { HasSearched (SearchEnds declaration.now script.now) (Under declaration.now (IsUndecided script.now most))
        (O.contents out.old) (O.contents out.new) result }
{
    match read(alloc, declaration) {
        Ok(decl) => explore_to(alloc, &decl, script, most, out, err),
        Err(fault) => Searched::Ended(tell(err, Fault::Declaration(fault))),
    }
}
