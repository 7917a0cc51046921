//! The text of a report. The functions fail only if allocation fails.

ghost use Rattle.std.specs.Prelude.{◌≡◌, ◌++◌, flat_map, IfOk, OnOk};
ghost use Rattle.std.specs.String.{string_bytes};
ghost use Rattle.tell_base.specs.ReportTexts.{operation_word, startable_line, blocked_line, live_line, frozen_line, report_text};

use path_decl::Decl;
use path_lines::push_operation;
use path_model::{Activation, OpId, OutOfMemory, PathId};
use path_system::Report;
use std::alloc::Allocator;

/// Appends operations, each after a space.
fn push_operations<A: Allocator + Copy>(
    text: &mut String<A>,
    decl: &Decl<A>,
    operations: &[OpId],
) -> Result<(), OutOfMemory>
    ensures { OnOk result (string_bytes text.new ≡ string_bytes text.old ++ flat_map (operation_word decl.now.declaration) operations.now) }
{
    for op in operations {
        text.push_str(" ")?;
        push_operation(text, decl, *op)?;
    }
    Ok(())
}

/// Appends the line of the operations that can be started.
fn push_startable<A: Allocator + Copy>(
    text: &mut String<A>,
    decl: &Decl<A>,
    startable: &[OpId],
) -> Result<(), OutOfMemory>
    ensures { OnOk result (string_bytes text.new ≡ string_bytes text.old ++ startable_line decl.now.declaration startable.now) }
{
    text.push_str("startable")?;
    push_operations(text, decl, startable)?;
    text.push_str("\n")?;
    Ok(())
}

/// Appends the line of a blocked operation.
fn push_blocked<A: Allocator + Copy>(
    text: &mut String<A>,
    decl: &Decl<A>,
    op: OpId,
    path: PathId,
) -> Result<(), OutOfMemory>
    ensures { OnOk result (string_bytes text.new ≡ string_bytes text.old ++ blocked_line decl.now.declaration (op, path)) }
{
    text.push_str("blocked ")?;
    push_operation(text, decl, op)?;
    let number = path.0;
    write!(text, " {number}\n")?;
    Ok(())
}

/// Appends the lines of blocked operations.
fn push_all_blocked<A: Allocator + Copy>(
    text: &mut String<A>,
    decl: &Decl<A>,
    blocked: &[(OpId, PathId)],
) -> Result<(), OutOfMemory>
    ensures { OnOk result (string_bytes text.new ≡ string_bytes text.old ++ flat_map (blocked_line decl.now.declaration) blocked.now) }
{
    for (op, path) in blocked {
        push_blocked(text, decl, *op, *path)?;
    }
    Ok(())
}

/// Appends the line of a live activation.
fn push_live<A: Allocator + Copy>(
    text: &mut String<A>,
    decl: &Decl<A>,
    activation: Activation,
) -> Result<(), OutOfMemory>
    ensures { OnOk result (string_bytes text.new ≡ string_bytes text.old ++ live_line decl.now.declaration activation) }
{
    let (number, worker) = (activation.act.0, activation.worker);
    write!(text, "live {number} {worker} ")?;
    push_operation(text, decl, activation.op)?;
    text.push_str("\n")?;
    Ok(())
}

/// Appends the lines of live activations.
fn push_all_live<A: Allocator + Copy>(
    text: &mut String<A>,
    decl: &Decl<A>,
    live: &[Activation],
) -> Result<(), OutOfMemory>
    ensures { OnOk result (string_bytes text.new ≡ string_bytes text.old ++ flat_map (live_line decl.now.declaration) live.now) }
{
    for activation in live {
        push_live(text, decl, *activation)?;
    }
    Ok(())
}

/// The last line of a report.
fn frozen_words(frozen: bool) -> &'static str
    ensures { result.now ≡ frozen_line frozen }
{
    if frozen {
        "frozen yes\n"
    } else {
        "frozen no\n"
    }
}

/// The text of a report: the line `startable` with the operations that can be started, each after a space; a line
/// `blocked NAME P` for each blocked operation, P the first path that forbids its start; a line `live A W NAME` for each live
/// activation, A its number and W its worker; and `frozen yes` or `frozen no`. Each line ends with a line feed. An operation
/// that isn't declared is written as `#` and its number.
///
/// Fails only if allocation fails. The cost is proportional to the text.
pub fn write_report<A: Allocator + Copy>(
    alloc: A,
    decl: &Decl<A>,
    report: &Report<A>,
) -> Result<String<A>, OutOfMemory>
    ensures { IfOk result (λ text. string_bytes text ≡ report_text decl.now.declaration
        report.now.startable.items report.now.blocked.items report.now.live.items report.now.frozen) }
{
    let mut text = String::new(alloc);
    push_startable(&mut text, decl, &report.startable)?;
    push_all_blocked(&mut text, decl, &report.blocked)?;
    push_all_live(&mut text, decl, &report.live)?;
    text.push_str(frozen_words(report.frozen))?;
    Ok(text)
}
