//! Every schedule of the script in a text, under the declaration in another.

ghost use Rattle.std.specs.Prelude.{ℕ, IfOk, IfErr};
ghost use Rattle.search_schedules.specs.Outcomes.{IsExplored};
ghost use Rattle.path_service.specs.Searches.{FindsIn, FindsUnder, IsExploreRefusal, IsFound, IsScriptRefusal, IsShown};

use crate::fault::ExploreRefusal;
use cmd_explore::standings_text;
use path_decl::Decl;
use path_journal::write_journal;
use path_model::{Line, MOST_LINES, OutOfMemory};
use path_read::read;
use path_script::{Script, read_script};
use search_schedules::{Explored, explore};
use std::alloc::{Allocator, Global};

/// A schedule that goes wrong, as two texts.
#[derive(Drop)]
pub struct WrongSchedule<A: Allocator + Copy = Global> {
    /// Its journal, a text of version 2 with room for [`MOST_LINES`](path_model::MOST_LINES) lines.
    pub journal: String<A>,
    /// A line for each process, in order: its name, `: `, and where it is behind these lines.
    pub standings: String<A>,
}

/// What a search of all schedules found.
#[derive(Drop)]
pub enum Found<A: Allocator + Copy = Global> {
    /// In every schedule all processes end. So many states were looked at.
    AllDone {
        /// How many.
        states: usize,
    },
    /// A shortest schedule that stalls.
    Stalls(WrongSchedule<A>),
    /// A shortest schedule whose last step is refused for good.
    Refused(WrongSchedule<A>),
    /// There are more states than were to be looked at.
    Undecided {
        /// How many were to be looked at.
        states: usize,
    },
}

/// The texts of the schedule with these lines. Fails only if allocation fails.
fn shown<A: Allocator + Copy>(
    alloc: A,
    decl: &Decl<A>,
    script: &Script<A>,
    lines: &[Line],
) -> Result<WrongSchedule<A>, OutOfMemory>
    ensures { IfOk result (IsShown decl.now.declaration script.now.processes lines.now) }
{
    let journal = write_journal(alloc, decl, Some(MOST_LINES), lines)?;
    let standings = standings_text(alloc, decl, script.processes(), lines)?;
    Ok(WrongSchedule { journal, standings })
}

/// What a search came to, as texts. Fails only if allocation fails.
fn in_texts<A: Allocator + Copy>(
    alloc: A,
    decl: &Decl<A>,
    script: &Script<A>,
    explored: &Explored<A>,
) -> Result<Found<A>, OutOfMemory>
    ensures { IfOk result (λ f. (most : ℕ) → IsExplored decl.now.declaration script.now.processes most explored.now
        → IsFound decl.now.declaration script.now.processes most f) }
{
    match explored {
        Explored::AllDone { states } => Ok(Found::AllDone { states: *states }),
        Explored::Stalls(lines) => Ok(Found::Stalls(shown(alloc, decl, script, lines)?)),
        Explored::Faults(lines) => Ok(Found::Refused(shown(alloc, decl, script, lines)?)),
        Explored::Undecided { states } => Ok(Found::Undecided { states: *states }),
    }
}

/// Looks at every schedule of the script in a text.
fn explore_under<A: Allocator + Copy>(
    alloc: A,
    decl: &Decl<A>,
    text: &[u8],
    most: u32,
) -> Result<Found<A>, ExploreRefusal>
    ensures ok { IfOk result (FindsUnder decl.now.declaration text.now most) }
    ensures err { IfErr result (IsScriptRefusal decl.now.declaration text.now) }
{
    match read_script(alloc, decl, text) {
        Ok(script) => {
            let explored = explore(alloc, decl, &script, most)?;
            Ok(in_texts(alloc, decl, &script, &explored)?)
        }
        Err(fault) => Err(ExploreRefusal::Script(fault)),
    }
}

/// Looks at every schedule of the script in a text under the declaration in another, with new devices of the program's own, and at most
/// at `most` states, as [`explore`](search_schedules::explore) does and at its cost.
///
/// Fails with `Declaration` and the fault of [`read`] if the first text isn't a declaration; else with `Script` and the fault of
/// [`read_script`] if the second isn't a script. `OutOfMemory` may come at any point, also as that of a text.
pub fn explore_text<A: Allocator + Copy>(
    alloc: A,
    declaration: &[u8],
    script: &[u8],
    most: u32,
) -> Result<Found<A>, ExploreRefusal>
    ensures ok { IfOk result (FindsIn declaration.now script.now most) }
    ensures err { IfErr result (IsExploreRefusal declaration.now script.now) }
{
    match read(alloc, declaration) {
        Ok(decl) => explore_under(alloc, &decl, script, most),
        Err(fault) => Err(ExploreRefusal::Declaration(fault)),
    }
}
