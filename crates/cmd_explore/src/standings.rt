//! Where each process is behind the lines of a schedule, in words.

ghost use Rattle.std.specs.Prelude.{◌≡◌, ◌≤◌, ◌++◌, length, OnOk, IfOk};
ghost use Rattle.std.specs.String.{string_bytes};
ghost use Rattle.cmd_explore.specs.Standings as standings;

use path_decl::Decl;
use path_lines::{push_operation, push_reply};
use path_model::{Attempt, Line, OpId, OutOfMemory, Reply};
use path_script::Process;
use std::alloc::Allocator;

/// Where a process is behind the lines of a schedule.
#[derive(Clone, Copy)]
pub enum Standing {
    /// All its steps are taken.
    Done,
    /// Some of its steps aren't taken.
    UnderWay,
    /// It waits to enter this operation.
    Stalled(OpId),
    /// Its next step is refused for good, with this reply.
    Faulted(Reply),
}

/// Where a process is after this line of its own; `None` if the line is of a step that was taken.
fn told_by(line: &Line) -> Option<Standing>
    ensures { result ≡ standings.told_by line.now.attempt line.now.reply }
{
    match line.reply {
        Reply::Started(_) | Reply::Used(_) | Reply::Finished => None,
        Reply::Blocked(_) => match line.attempt {
            Attempt::Start(op) => Some(Standing::Stalled(op)),
            Attempt::Apply(..) | Attempt::Finish(_) => Some(Standing::Faulted(line.reply)),
        },
        reply => Some(Standing::Faulted(reply)),
    }
}

/// Where the process of this worker, which has so many steps, is behind the lines.
fn standing_of(lines: &[Line], worker: u32, steps: usize) -> Standing
    ensures { result ≡ standings.standing_of lines.now worker steps }
{
    let mut left = steps;
    for line in lines {
        if line.worker == worker {
            if let Some(standing) = told_by(line) {
                return standing;
            }
            left = left.saturating_sub(1);
        }
    }
    if left == 0 {
        Standing::Done
    } else {
        Standing::UnderWay
    }
}

/// Appends where a process is.
fn push_standing<A: Allocator + Copy>(
    text: &mut String<A>,
    decl: &Decl<A>,
    standing: Standing,
) -> Result<(), OutOfMemory>
    ensures { OnOk result (string_bytes text.new ≡ string_bytes text.old ++ standings.standing_text decl.now.declaration standing) }
{
    match standing {
        Standing::Done => text.push_str("done")?,
        Standing::UnderWay => text.push_str("under way")?,
        Standing::Stalled(op) => {
            text.push_str("stalled ")?;
            push_operation(text, decl, op)?;
        }
        Standing::Faulted(reply) => {
            text.push_str("faulted ")?;
            push_reply(text, reply)?;
        }
    }
    Ok(())
}

/// Appends the line of a process: its name, `: `, and where it is.
fn push_line_of<A: Allocator + Copy>(
    text: &mut String<A>,
    decl: &Decl<A>,
    name: &str,
    standing: Standing,
) -> Result<(), OutOfMemory>
    ensures { OnOk result
        (string_bytes text.new ≡ string_bytes text.old ++ standings.standing_line decl.now.declaration name.now standing) }
{
    text.push_str(name)?;
    text.push_str(": ")?;
    push_standing(text, decl, standing)?;
    text.push_str("\n")?;
    Ok(())
}

/// A line for each process, in order: its name, `: `, and where it is behind the lines of a schedule. Fails only if allocation fails.
pub fn standings_text<A: Allocator + Copy>(
    alloc: A,
    decl: &Decl<A>,
    processes: &[Process<A>],
    lines: &[Line],
) -> Result<String<A>, OutOfMemory>
    requires { length processes.now ≤ 16 }
    ensures { IfOk result (λ text. string_bytes text ≡ standings.standings_text decl.now.declaration lines.now 0 processes.now) }
{
    let mut text = String::new(alloc);
    for (number, process) in processes.iter().enumerate() {
        let standing = standing_of(lines, number as u32, process.steps().len());
        push_line_of(&mut text, decl, process.name(), standing)?;
    }
    Ok(text)
}
