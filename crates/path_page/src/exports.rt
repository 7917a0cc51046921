//! The exports. Each takes memory for its work, and never gives it back: a page hands in other memory at the next call, or makes the
//! module anew. It returns the exit status that the program would end with, 0 to 6; or 7 if a buffer is too short for its text, and then
//! both buffers stay; or 8 if a search came to no answer, for which the program ends with 7. `lengths` says in both cases how long the
//! texts are. Memory that is too small for a call is status 6, out of memory, however small it is. 3, a stream that failed, never comes.
//!
//! The page owes, unchecked: what [`Memory`] says; buffers and texts that overlap neither each other nor the memory; no null address,
//! also for an empty text; and 0 or 1 for a `bool`.

ghost use Rattle.path_print.specs.Printed.{printed};
ghost use Rattle.search_histories.specs.Outcomes.{AreMore};
ghost use Rattle.tell_base.specs.Ends.{UnderText};
ghost use Rattle.tell_base.specs.Refusals.{Under};
ghost use Rattle.cmd_trace.specs.Traces.{TraceEnds};
ghost use Rattle.cmd_check.specs.Outputs.{OutputEnds, compiled_text};
ghost use Rattle.cmd_audit.specs.Audits.{AuditEnds};
ghost use Rattle.cmd_explain.specs.Explanations.{ExplanationEnds};
ghost use Rattle.cmd_explain.specs.Judgements.{JudgementEnds};
ghost use Rattle.cmd_explore.specs.Reaches.{OfReach};
ghost use Rattle.cmd_explore.specs.Searches.{IsUndecided, SearchEnds};
ghost use Rattle.page_answers.specs.Answers.{Answers};
ghost use Rattle.path_page.specs.Told.{IsSearchTold, IsTold};

use crate::tell::{Lengths, UNDECIDED, tell, tell_as};
use page_answers::{SearchAnswer, audit, check, compile, explain, explore, judge, reach, trace};
use page_arena::{Arena, Memory};

/// The trace of attempts in a journal with room for so many lines, and behind it the report if `report` is set.
#[unsafe(no_mangle)]
pub extern "C" fn path_page_trace(
    memory: Memory,
    declaration: &[u8],
    room: u32,
    report: bool,
    attempts: &[u8],
    out: &mut [u8],
    err: &mut [u8],
    lengths: &mut Lengths,
) -> u32
    ensures { IsTold (Answers (TraceEnds declaration.now room report attempts.now)) result lengths.new.out lengths.new.err
        out.old out.new err.old err.new }
{
    let arena = Arena::new(memory);
    let answer = trace(&arena, declaration, room, report, attempts);
    tell(&answer, out, err, lengths)
}

/// The print of a declaration.
#[unsafe(no_mangle)]
pub extern "C" fn path_page_check(
    memory: Memory,
    declaration: &[u8],
    out: &mut [u8],
    err: &mut [u8],
    lengths: &mut Lengths,
) -> u32
    ensures { IsTold (Answers (OutputEnds printed declaration.now)) result lengths.new.out lengths.new.err out.old out.new err.old err.new }
{
    let arena = Arena::new(memory);
    let answer = check(&arena, declaration);
    tell(&answer, out, err, lengths)
}

/// The semaphores of a declaration, as it is translated and as that is trimmed.
#[unsafe(no_mangle)]
pub extern "C" fn path_page_compile(
    memory: Memory,
    declaration: &[u8],
    out: &mut [u8],
    err: &mut [u8],
    lengths: &mut Lengths,
) -> u32
    ensures { IsTold (Answers (OutputEnds compiled_text declaration.now)) result lengths.new.out lengths.new.err
        out.old out.new err.old err.new }
{
    let arena = Arena::new(memory);
    let answer = compile(&arena, declaration);
    tell(&answer, out, err, lengths)
}

/// The verdict on the text of a journal, in the room that it names, else in this one.
#[unsafe(no_mangle)]
pub extern "C" fn path_page_audit(
    memory: Memory,
    declaration: &[u8],
    room: u32,
    journal: &[u8],
    out: &mut [u8],
    err: &mut [u8],
    lengths: &mut Lengths,
) -> u32
    ensures { IsTold (Answers (AuditEnds declaration.now room journal.now)) result lengths.new.out lengths.new.err
        out.old out.new err.old err.new }
{
    let arena = Arena::new(memory);
    let answer = audit(&arena, declaration, room, journal);
    tell(&answer, out, err, lengths)
}

/// The attempts with their replies and why each refused one is refused, in a journal with room for so many lines, and how each resource
/// stands behind them.
#[unsafe(no_mangle)]
pub extern "C" fn path_page_explain(
    memory: Memory,
    declaration: &[u8],
    room: u32,
    attempts: &[u8],
    out: &mut [u8],
    err: &mut [u8],
    lengths: &mut Lengths,
) -> u32
    ensures { IsTold (Answers (ExplanationEnds declaration.now room attempts.now)) result lengths.new.out lengths.new.err
        out.old out.new err.old err.new }
{
    let arena = Arena::new(memory);
    let answer = explain(&arena, declaration, room, attempts);
    tell(&answer, out, err, lengths)
}

/// Whether the text of a journal is sound, in the room that it names, else in this one, and if not, its first wrong line and the reply
/// that was owed; and how each resource stands behind that.
#[unsafe(no_mangle)]
pub extern "C" fn path_page_judge(
    memory: Memory,
    declaration: &[u8],
    room: u32,
    journal: &[u8],
    out: &mut [u8],
    err: &mut [u8],
    lengths: &mut Lengths,
) -> u32
    ensures { IsTold (Answers (JudgementEnds declaration.now room journal.now)) result lengths.new.out lengths.new.err
        out.old out.new err.old err.new }
{
    let arena = Arena::new(memory);
    let answer = judge(&arena, declaration, room, journal);
    tell(&answer, out, err, lengths)
}

/// What all schedules of a script come to, of which at most so many states are looked at.
#[unsafe(no_mangle)]
pub extern "C" fn path_page_explore(
    memory: Memory,
    declaration: &[u8],
    script: &[u8],
    most: u32,
    out: &mut [u8],
    err: &mut [u8],
    lengths: &mut Lengths,
) -> u32
    ensures { IsSearchTold (SearchEnds declaration.now script.now) (Under declaration.now (IsUndecided script.now most))
        result lengths.new.out lengths.new.err out.old out.new err.old err.new }
{
    let arena = Arena::new(memory);
    match explore(&arena, declaration, script, most) {
        SearchAnswer::Ended(answer) => tell(&answer, out, err, lengths),
        SearchAnswer::Undecided(answer) => tell_as(UNDECIDED, &answer, out, err, lengths),
    }
}

/// What all histories of a declaration come to, with so many executions in progress at once at most, of which at most so many states are
/// looked at.
#[unsafe(no_mangle)]
pub extern "C" fn path_page_reach(
    memory: Memory,
    declaration: &[u8],
    workers: u32,
    most: u32,
    out: &mut [u8],
    err: &mut [u8],
    lengths: &mut Lengths,
) -> u32
    ensures { IsSearchTold (UnderText declaration.now (λ d. OfReach d workers)) (Under declaration.now (λ d. AreMore d workers most))
        result lengths.new.out lengths.new.err out.old out.new err.old err.new }
{
    let arena = Arena::new(memory);
    match reach(&arena, declaration, workers, most) {
        SearchAnswer::Ended(answer) => tell(&answer, out, err, lengths),
        SearchAnswer::Undecided(answer) => tell_as(UNDECIDED, &answer, out, err, lengths),
    }
}
