//! How each process of a run ended, in words.

ghost use Rattle.std.specs.Prelude.{◌≡◌, ◌++◌, ◌↔◌, length, OnOk, IfOk, IsTrue};
ghost use Rattle.std.specs.String.{string_bytes};
ghost use Rattle.cmd_run.specs.Ends as ended;

use path_decl::Decl;
use path_lines::{push_operation, push_reply};
use path_model::OutOfMemory;
use path_run::End;
use path_script::Process;
use std::alloc::Allocator;
use tell_base::Status;

/// Appends how a process ended.
fn push_end<A: Allocator + Copy>(
    text: &mut String<A>,
    decl: &Decl<A>,
    end: End,
) -> Result<(), OutOfMemory>
    ensures { OnOk result (string_bytes text.new ≡ string_bytes text.old ++ ended.end_text decl.now.declaration end) }
{
    match end {
        End::Done => text.push_str("done")?,
        End::Stalled(op) => {
            text.push_str("stalled ")?;
            push_operation(text, decl, op)?;
        }
        End::NoRoom => text.push_str("no room")?,
        End::Faulted(reply) => {
            text.push_str("faulted ")?;
            push_reply(text, reply)?;
        }
        End::Stopped => text.push_str("stopped")?,
        End::NoMemory => text.push_str("no memory")?,
        End::NotStarted => text.push_str("not started")?,
    }
    Ok(())
}

/// Appends the line of a process: its name, `: `, and how it ended.
fn push_line_of<A: Allocator + Copy>(
    text: &mut String<A>,
    decl: &Decl<A>,
    name: &str,
    end: End,
) -> Result<(), OutOfMemory>
    ensures { OnOk result (string_bytes text.new ≡ string_bytes text.old ++ ended.end_line decl.now.declaration name.now end) }
{
    text.push_str(name)?;
    text.push_str(": ")?;
    push_end(text, decl, end)?;
    text.push_str("\n")?;
    Ok(())
}

/// A line for each process, in order: its name, `: `, and how it ended. There is an end for each process. Fails only if allocation
/// fails.
pub fn ends_text<A: Allocator + Copy>(
    alloc: A,
    decl: &Decl<A>,
    processes: &[Process<A>],
    ends: &[End],
) -> Result<String<A>, OutOfMemory>
    requires { length ends.now ≡ length processes.now }
    ensures { IfOk result (λ text. string_bytes text ≡ ended.ends_text decl.now.declaration processes.now ends.now) }
{
    let mut text = String::new(alloc);
    for (number, process) in processes.iter().enumerate() {
        push_line_of(&mut text, decl, process.name(), ends[number])?;
    }
    Ok(text)
}

fn are_done(ends: &[End]) -> bool
    ensures { IsTrue result ↔ ended.AllDone ends.now }
{
    ends.iter().all(|end| matches!(end, End::Done))
}

fn had_memory(ends: &[End]) -> bool
    ensures { IsTrue result ↔ ended.NoneLackedMemory ends.now }
{
    ends.iter().all(|end| !matches!(end, End::NoMemory))
}

/// The status of a run that ended so: `Done` if all processes are done, `NoMemory` if memory ran out for one of them, else
/// `Unsound`.
pub fn status_of_ends(ends: &[End]) -> Status
    ensures { ended.IsStatusOf ends.now result }
{
    if are_done(ends) {
        Status::Done
    } else if had_memory(ends) {
        Status::Unsound
    } else {
        Status::NoMemory
    }
}
