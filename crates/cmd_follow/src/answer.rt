//! What answers a line.

ghost use Rattle.std.specs.Prelude.{◌≡◌, ◌++◌, [], None, List, IfOk, OnOk};
ghost use Rattle.path_model.specs.declared.journal.Line.{Line};
ghost use Rattle.path_model.specs.Journals.{with_line};
ghost use Rattle.path_fields.specs.Splits.{HasNone};
ghost use Rattle.path_shelf.specs.States.{MayFail};
ghost use Rattle.tell_base.specs.ReportTexts.{IsReportText};
ghost use Rattle.cmd_trace.specs.Traces.{IsAnswered};
ghost use Rattle.cmd_follow.specs.Follows.{IsRefusedLine};
ghost use Rattle.cmd_follow.specs.Inner.Taken.{Answers, IfAnswered, IfRefused, added, outcome};

use path_lines::{LineFault, first_entry, push_told};
use path_model::{Attempt, Line, OutOfMemory, Reply};
use path_shelf::Device;
use path_system::Controller;
use std::alloc::Allocator;
use tell_base::write_report;

/// What became of a line of the input.
#[derive(Clone, Copy)]
pub enum Answered {
    /// It is answered, and the journal has this line more.
    Line(Line),
    /// It is answered, and the journal is as it was: it asked for the report, or there is no room.
    Told,
    /// It is neither an attempt nor asks for the report.
    Refused(LineFault),
}

/// What became of an attempt with this reply.
fn outcome_of(worker: u32, attempt: Attempt, reply: Reply) -> Answered
    ensures { result ≡ outcome worker attempt reply }
{
    match reply {
        Reply::NoRoom => Answered::Told,
        _ => Answered::Line(Line {
            worker,
            attempt,
            reply,
        }),
    }
}

/// Steps the system, and appends the attempt's own line with its reply and a line feed. Returns the reply.
fn push_reply_to<D: Device, A: Allocator + Copy>(
    system: &mut Controller<D, A>,
    worker: u32,
    attempt: Attempt,
    line: &[u8],
    told: &mut Vec<u8, A>,
) -> Result<Reply, OutOfMemory>
    requires { system.old.opened ≡ None }
    ensures journal { IfOk result (λ reply. system.new.journal ≡ with_line system.old.journal worker attempt reply) }
    ensures answered { OnOk result (IsAnswered (MayFail D.state) system.old system.new worker attempt line.now
        told.old.items told.new.items) }
{
    let reply = system.step(worker, attempt);
    told.extend_from_slice(line)?;
    push_told(told, reply)?;
    Ok(reply)
}

/// Appends the report of the system.
fn push_present<D: Device, A: Allocator + Copy>(
    alloc: A,
    system: &Controller<D, A>,
    told: &mut Vec<u8, A>,
) -> Result<(), OutOfMemory>
    requires first { system.now.opened ≡ None }
    requires whole { system.now.earlier ≡ [] }
    requires empty { told.old.items ≡ [] }
    ensures { OnOk result (IsReportText system.now.declaration system.now.journal told.new.items) }
{
    let present = system.report(alloc)?;
    let text = write_report(alloc, system.decl(), &present)?;
    told.extend_from_slice(text.as_bytes())?;
    Ok(())
}

/// Makes `told` the answer to a line: an attempt with its reply, or the report if the line is `?`. The system is as it was if the line is
/// neither. Fails only if allocation fails.
pub fn answer<D: Device, A: Allocator + Copy>(
    alloc: A,
    system: &mut Controller<D, A>,
    line: &[u8],
    told: &mut Vec<u8, A>,
) -> Result<Answered, OutOfMemory>
    requires first { system.old.opened ≡ None }
    requires whole { system.old.earlier ≡ [] }
    requires one { HasNone 10 line.now }
    ensures answered { IfOk result (λ a. IfAnswered a
        (Answers (MayFail D.state) system.old system.new line.now told.new.items)) }
    ensures refused { IfOk result (λ a. IfRefused a
        ((system.new ≡ system.old) × IsRefusedLine system.old.declaration line.now)) }
    ensures added { IfOk result (λ a. system.new.journal ≡ system.old.journal ++ added a) }
{
    told.clear();
    if line == b"?".as_slice() {
        push_present(alloc, system, told)?;
        return Ok(Answered::Told);
    }
    match first_entry(system.decl(), line) {
        Ok(first) => {
            let reply = push_reply_to(system, first.worker, first.attempt, line, told)?;
            Ok(outcome_of(first.worker, first.attempt, reply))
        }
        Err(stop) => Ok(Answered::Refused(stop.fault)),
    }
}
