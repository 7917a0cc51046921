//! The commands of which a host asks.

ghost use Rattle.std.specs.Prelude.{◌≡◌};
ghost use Rattle.path_print.specs.Printed.{printed};
ghost use Rattle.search_histories.specs.Outcomes.{AreMore};
ghost use Rattle.tell_base.specs.Ends.{UnderText};
ghost use Rattle.tell_base.specs.Refusals.{Under};
ghost use Rattle.cmd_trace.specs.Traces.{TraceEnds};
ghost use Rattle.cmd_check.specs.Outputs.{OutputEnds, compiled_text};
ghost use Rattle.cmd_audit.specs.Audits.{AuditEnds};
ghost use Rattle.cmd_explain.specs.Explanations.{ExplanationEnds};
ghost use Rattle.cmd_explain.specs.Judgements.{JudgementEnds};
ghost use Rattle.cmd_explore.specs.Reaches.{OfReach};
ghost use Rattle.cmd_explore.specs.Searches.{IsUndecided, SearchEnds};
ghost use Rattle.page_answers.specs.Answers.{Answers, IsSearchAnswer};

use crate::answer::{Answer, SearchAnswer};
use cmd_audit::audit_bytes;
use cmd_check::{check_to, compile_to};
use cmd_explain::{FileNames, explain_attempts, explain_journal};
use cmd_explore::{Searched, explore_bytes, reach_bytes};
use cmd_trace::trace_bytes;
use std::alloc::Allocator;
use tell_base::Status;
use tell_refusals::{Source, Subject, tell_place};

/// The trace of attempts, and behind it the report if `report` is set, as [`trace_bytes`] writes them and at its cost. The answer takes
/// memory for its texts from the same allocator.
///
/// `DeclarationRefused`, `TextRefused`, `CommandRefused`: as there. `NoMemory`: allocation failed, and the output is a front of the
/// trace. A fault is one line of the answer's `err`, which is empty only if not even that found memory.
pub fn trace<A: Allocator + Copy>(
    alloc: A,
    declaration: &[u8],
    room: u32,
    report: bool,
    attempts: &[u8],
) -> Answer<A>
    ensures { Answers (TraceEnds declaration.now room report attempts.now) result.status result.out.items }
{
    let mut answer = Answer::blank(alloc);
    if answer.status == Status::NoMemory {
        return answer;
    }
    let (out, err) = (&mut answer.out, &mut answer.err);
    let status = trace_bytes(alloc, declaration, room, report, attempts, out, err);
    answer.ended(status)
}

/// The print of a declaration, as [`check_to`] writes it and at its cost.
///
/// `DeclarationRefused`: as there. `NoMemory`: allocation failed, and the output is a front of the print. A fault is one line of the
/// answer's `err`, which is empty only if not even that found memory.
pub fn check<A: Allocator + Copy>(alloc: A, declaration: &[u8]) -> Answer<A>
    ensures { Answers (OutputEnds printed declaration.now) result.status result.out.items }
{
    let mut answer = Answer::blank(alloc);
    if answer.status == Status::NoMemory {
        return answer;
    }
    let status = check_to(alloc, declaration, &mut answer.out, &mut answer.err);
    answer.ended(status)
}

/// The semaphores of a declaration, as [`compile_to`] writes them and at its cost.
///
/// `DeclarationRefused`: as there. `NoMemory`: allocation failed, and the output is a front of the listings. A fault is one line of the
/// answer's `err`, which is empty only if not even that found memory.
pub fn compile<A: Allocator + Copy>(alloc: A, declaration: &[u8]) -> Answer<A>
    ensures { Answers (OutputEnds compiled_text declaration.now) result.status result.out.items }
{
    let mut answer = Answer::blank(alloc);
    if answer.status == Status::NoMemory {
        return answer;
    }
    let status = compile_to(alloc, declaration, &mut answer.out, &mut answer.err);
    answer.ended(status)
}

/// The verdict on the text of a journal, as [`audit_bytes`] writes it and at its cost.
///
/// `Unsound`, `DeclarationRefused`, `TextRefused`, `CommandRefused`: as there. `NoMemory`: allocation failed, and the output is a
/// front of the verdict. A fault is one line of the answer's `err`, which is empty only if not even that found memory.
pub fn audit<A: Allocator + Copy>(
    alloc: A,
    declaration: &[u8],
    room: u32,
    journal: &[u8],
) -> Answer<A>
    ensures { Answers (AuditEnds declaration.now room journal.now) result.status result.out.items }
{
    let mut answer = Answer::blank(alloc);
    if answer.status == Status::NoMemory {
        return answer;
    }
    let (out, err) = (&mut answer.out, &mut answer.err);
    let status = audit_bytes(alloc, declaration, room, journal, out, err);
    answer.ended(status)
}

/// The attempts with their replies, why each refused one is refused, and how each resource stands behind them, as [`explain_attempts`]
/// writes them and at its cost. Where a fault of a text is told, the texts are called `declaration` and `attempts`.
///
/// `DeclarationRefused`, `TextRefused`, `CommandRefused`: as there. `NoMemory`: allocation failed, and the output is a front of the
/// explanation. A fault is told on the answer's `err`, in one line or with its place, which is empty only if not even one line found
/// memory.
pub fn explain<A: Allocator + Copy>(
    alloc: A,
    declaration: &[u8],
    room: u32,
    attempts: &[u8],
) -> Answer<A>
    ensures { Answers (ExplanationEnds declaration.now room attempts.now) result.status result.out.items }
{
    let mut answer = Answer::blank(alloc);
    if answer.status == Status::NoMemory {
        return answer;
    }
    let names = FileNames {
        declaration: "declaration",
        text: "attempts",
    };
    let (out, err) = (&mut answer.out, &mut answer.err);
    let status = explain_attempts(alloc, declaration, room, attempts, names, out, err);
    answer.ended(status)
}

/// Whether the journal in a text is sound, and if not, its first wrong line with the reply that was owed and why, and how each resource
/// stands behind it, as [`explain_journal`] writes it and at its cost. Where a fault of a text is told, the texts are called `declaration`
/// and `journal`.
///
/// `Unsound`, `DeclarationRefused`, `TextRefused`, `CommandRefused`: as there. `NoMemory`: allocation failed, and the output is a front of
/// what is said. A fault is told on the answer's `err`, in one line or with its place, which is empty only if not even one line found
/// memory.
pub fn judge<A: Allocator + Copy>(
    alloc: A,
    declaration: &[u8],
    room: u32,
    journal: &[u8],
) -> Answer<A>
    ensures { Answers (JudgementEnds declaration.now room journal.now) result.status result.out.items }
{
    let mut answer = Answer::blank(alloc);
    if answer.status == Status::NoMemory {
        return answer;
    }
    let names = FileNames {
        declaration: "declaration",
        text: "journal",
    };
    let (out, err) = (&mut answer.out, &mut answer.err);
    let status = explain_journal(alloc, declaration, room, journal, names, out, err);
    answer.ended(status)
}

/// An answer, and on its `err` the place of the fault of a declaration or of a script for which it was refused, if it was, and if there
/// is memory to say it.
fn with_place<A: Allocator + Copy>(
    alloc: A,
    declaration: &[u8],
    script: &[u8],
    answer: Answer<A>,
) -> Answer<A>
    ensures status { result.status ≡ answer.status }
    ensures out { result.out.items ≡ answer.out.items }
{
    let mut answer = answer;
    match answer.status {
        Status::DeclarationRefused | Status::TextRefused => {
            let named = Source::whole("declaration", declaration);
            let subject = Subject::Script(Source::whole("script", script));
            tell_place(alloc, named, subject, answer.status, &mut answer.err);
        }
        _ => {}
    }
    answer
}

/// What all schedules of a script come to, of which at most `most` states are looked at, as [`explore_bytes`] writes it and at its cost.
/// Where a fault of a text is told, the texts are called `declaration` and `script`.
///
/// `Unsound`, `DeclarationRefused`, `TextRefused`: as there. `NoMemory`: allocation failed, and the output is a front of the journal. A
/// fault is one line of the answer's `err`, and then its place; it is empty only if not even that line found memory.
pub fn explore<A: Allocator + Copy>(
    alloc: A,
    declaration: &[u8],
    script: &[u8],
    most: u32,
) -> SearchAnswer<A>
    ensures { IsSearchAnswer (SearchEnds declaration.now script.now) (Under declaration.now (IsUndecided script.now most)) result }
{
    let mut answer = Answer::blank(alloc);
    if answer.status == Status::NoMemory {
        return SearchAnswer::Ended(answer);
    }
    let (out, err) = (&mut answer.out, &mut answer.err);
    match explore_bytes(alloc, declaration, script, most, out, err) {
        Searched::Ended(status) => {
            let answer = answer.ended(status);
            SearchAnswer::Ended(with_place(alloc, declaration, script, answer))
        }
        Searched::Undecided => SearchAnswer::Undecided(answer),
    }
}

/// What all histories of a declaration come to in which at most `workers` executions are in progress at once, of which at most `most`
/// states are looked at, as [`reach_bytes`] writes it and at its cost. Where a fault of the text is told, it is called `declaration`.
///
/// `Unsound`, `DeclarationRefused`: as there. `NoMemory`: allocation failed, and the output is a front of the text. A fault is one line of
/// the answer's `err`, and then its place; it is empty only if not even that line found memory.
pub fn reach<A: Allocator + Copy>(
    alloc: A,
    declaration: &[u8],
    workers: u32,
    most: u32,
) -> SearchAnswer<A>
    ensures { IsSearchAnswer (UnderText declaration.now (λ d. OfReach d workers)) (Under declaration.now (λ d. AreMore d workers most))
        result }
{
    let mut answer = Answer::blank(alloc);
    if answer.status == Status::NoMemory {
        return SearchAnswer::Ended(answer);
    }
    let (out, err) = (&mut answer.out, &mut answer.err);
    match reach_bytes(alloc, declaration, workers, most, out, err) {
        Searched::Ended(status) => {
            let answer = answer.ended(status);
            SearchAnswer::Ended(with_place(alloc, declaration, b"", answer))
        }
        Searched::Undecided => SearchAnswer::Undecided(answer),
    }
}
