//! Why an attempt was refused, in words. The functions fail only if allocation fails.

ghost use Rattle.std.specs.Prelude.{◌≡◌, ◌<◌, length};
ghost use Rattle.path_model.specs.Declarations.{paths_of};

use crate::refusal::{forbidding, may_begin, underway};
use crate::standing::Moment;
use crate::words::{push_activations, push_operations, push_paths};
use path_decl::{Decl, counts, law_of, resource_name, resource_of};
use path_lines::push_operation;
use path_model::{
    ActId, Activation, Attempt, Law, Line, MOST_LINES, OpId, OutOfMemory, PathId, Reply,
};
use path_print::push_path;
use std::alloc::Allocator;

/// Appends the path that forbids a start, and the others that do.
fn push_rule<A: Allocator + Copy>(
    text: &mut String<A>,
    decl: &Decl<A>,
    path: PathId,
    others: &[PathId],
) -> Result<(), OutOfMemory> {
    let number = path.0;
    write!(text, "   forbidden by path {number}")?;
    if !others.is_empty() {
        text.push_str(" (also ")?;
        push_paths(text, others)?;
        text.push_str(")")?;
    }
    text.push_str(":")?;
    push_path(text, decl, path)?;
    text.push_str("\n")?;
    Ok(())
}

/// Appends what of a path is in progress, and what it lets begin next.
fn push_progress<A: Allocator + Copy>(
    alloc: A,
    text: &mut String<A>,
    moment: &Moment<'_, A>,
    path: PathId,
) -> Result<(), OutOfMemory>
    requires declared { path.0 < length moment.now.decl.now.declaration.paths }
    requires paths { moment.now.gate.now.paths ≡ paths_of moment.now.decl.now.declaration }
{
    let running = underway(alloc, moment.decl, moment.live, path)?;
    let next = may_begin(alloc, moment.decl, moment.gate, path)?;
    text.push_str("   in progress: ")?;
    push_activations(text, moment.decl, &running)?;
    text.push_str("; may begin next: ")?;
    push_operations(text, moment.decl, &next)?;
    text.push_str("\n")?;
    Ok(())
}

/// Appends which paths forbid a start of the operation; of the first, what is in progress and what may begin next.
fn push_forbidden<A: Allocator + Copy>(
    alloc: A,
    text: &mut String<A>,
    moment: &Moment<'_, A>,
    op: OpId,
) -> Result<(), OutOfMemory>
    requires { moment.now.gate.now.paths ≡ paths_of moment.now.decl.now.declaration }
{
    let paths = forbidding(alloc, moment.decl, moment.gate, op)?;
    if let Some(path) = paths.first() {
        push_rule(text, moment.decl, *path, &paths[1..])?;
        push_progress(alloc, text, moment, *path)?;
    }
    Ok(())
}

/// The live activation with this number.
fn activation_in(live: &[Activation], act: ActId) -> Option<Activation> {
    for activation in live {
        if activation.act == act {
            return Some(*activation);
        }
    }
    None
}

/// Appends whose the activation is.
fn push_owner<A: Allocator + Copy>(
    text: &mut String<A>,
    decl: &Decl<A>,
    activation: Activation,
) -> Result<(), OutOfMemory> {
    let (number, worker) = (activation.act.0, activation.worker);
    write!(text, "   activation {number} is worker {worker}'s: ")?;
    push_operation(text, decl, activation.op)?;
    text.push_str("\n")?;
    Ok(())
}

/// Appends which uses a device of this law offers.
fn push_offer<A: Allocator + Copy>(
    text: &mut String<A>,
    name: &str,
    law: Law,
) -> Result<(), OutOfMemory> {
    let offer = match law {
        Law::Cell => "a cell, which offers put and look",
        Law::Tally => "a tally, which offers add and look",
        Law::Queue(_) => "a queue, which offers put, take and look",
    };
    writeln!(text, "   {name} is {offer}")?;
    Ok(())
}

/// Appends why the device of a resource refused a use.
fn push_device<A: Allocator + Copy>(
    text: &mut String<A>,
    name: &str,
    law: Law,
    reply: Reply,
) -> Result<(), OutOfMemory> {
    match (reply, law) {
        (Reply::NotOffered, _) => push_offer(text, name, law)?,
        (Reply::Empty, _) => writeln!(text, "   the queue {name} is empty")?,
        (Reply::Full, Law::Queue(capacity)) => {
            writeln!(text, "   the queue {name} has room for {capacity}")?;
        }
        (Reply::Overflow, _) => {
            let most = u64::MAX;
            writeln!(text, "   the total of {name} would pass {most}")?;
        }
        _ => writeln!(text, "   the device of {name} failed")?,
    }
    Ok(())
}

/// The name and the law of an operation's resource; `None` if the operation isn't declared.
fn device_of<A: Allocator + Copy>(decl: &Decl<A>, op: OpId) -> Option<(&str, Law)> {
    let resource = resource_of(decl, op)?;
    Some((resource_name(decl, resource)?, law_of(decl, resource)?))
}

/// Appends why a use or a finish of a live activation was refused.
fn push_refused_use<A: Allocator + Copy>(
    text: &mut String<A>,
    decl: &Decl<A>,
    activation: Activation,
    reply: Reply,
) -> Result<(), OutOfMemory> {
    if let Reply::NotYours = reply {
        return push_owner(text, decl, activation);
    }
    match device_of(decl, activation.op) {
        Some((name, law)) => push_device(text, name, law, reply),
        None => Ok(()),
    }
}

/// Appends why a use or a finish was refused.
fn push_activity<A: Allocator + Copy>(
    text: &mut String<A>,
    moment: &Moment<'_, A>,
    act: ActId,
    reply: Reply,
) -> Result<(), OutOfMemory> {
    match activation_in(moment.live, act) {
        Some(activation) => push_refused_use(text, moment.decl, activation, reply),
        None => {
            let number = act.0;
            writeln!(text, "   no live activation has the number {number}")?;
            Ok(())
        }
    }
}

/// Appends why a start was refused for another reason than a path.
fn push_undeclared<A: Allocator + Copy>(
    text: &mut String<A>,
    decl: &Decl<A>,
    op: OpId,
) -> Result<(), OutOfMemory> {
    let (number, total) = (op.0, counts(decl).operations);
    writeln!(
        text,
        "   no operation has the number {number}: {total} are declared"
    )?;
    Ok(())
}

/// How many places an attempt takes at most: a start takes one for its finish, too.
fn places_for(attempt: Attempt) -> u64 {
    match attempt {
        Attempt::Start(_) => 2,
        Attempt::Apply(_, _) | Attempt::Finish(_) => 1,
    }
}

/// Appends which room has so many places.
fn push_roomy<A: Allocator + Copy>(
    text: &mut String<A>,
    moment: &Moment<'_, A>,
    room: u64,
) -> Result<(), OutOfMemory> {
    if moment.is_behind {
        text.push_str("an empty file as the last journal has all its room\n")?;
    } else if room <= u64::from(MOST_LINES) {
        writeln!(text, "--room {room} would do")?;
    } else {
        text.push_str("no room has so many\n")?;
    }
    Ok(())
}

/// Appends why an attempt had no room: what takes the places, and a room that has them. In that room an earlier attempt that had none here
/// would have taken two places at most.
fn push_no_room<A: Allocator + Copy>(
    text: &mut String<A>,
    moment: &Moment<'_, A>,
    line: &Line,
) -> Result<(), OutOfMemory> {
    let (lines, live) = (moment.lines, moment.live.len());
    let wanted = places_for(line.attempt);
    let before = moment.roomless;
    let kept = before.saturating_mul(2);
    let room = u64::from(lines)
        .saturating_add(live as u64)
        .saturating_add(wanted)
        .saturating_add(kept);
    write!(
        text,
        "   places: {lines} for lines, {live} for finishes to come, "
    )?;
    if before > 0 {
        write!(text, "{kept} for {before} before it without room, ")?;
    }
    write!(text, "{wanted} for it; ")?;
    push_roomy(text, moment, room)
}

/// Appends why a start got this reply.
fn push_unstarted<A: Allocator + Copy>(
    alloc: A,
    text: &mut String<A>,
    moment: &Moment<'_, A>,
    op: OpId,
    reply: Reply,
) -> Result<(), OutOfMemory>
    requires { moment.now.gate.now.paths ≡ paths_of moment.now.decl.now.declaration }
{
    match reply {
        Reply::Blocked(_) => push_forbidden(alloc, text, moment, op),
        _ => push_undeclared(text, moment.decl, op),
    }
}

/// Whether an attempt with this reply was admitted.
fn is_admitted(reply: Reply) -> bool {
    matches!(reply, Reply::Started(_) | Reply::Used(_) | Reply::Finished)
}

/// Appends why the attempt of this line got its reply, in lines that each begin with three spaces; nothing if it was admitted. The moment
/// is that after the attempt, and its gate that of the declaration. Fails only if allocation fails.
///
/// The cost of a start that was blocked is a look at each path that names the operation, once more for each operation, and at each live
/// activation; that of any other reply is a look at each live activation.
pub fn push_why<A: Allocator + Copy>(
    alloc: A,
    text: &mut String<A>,
    moment: &Moment<'_, A>,
    line: &Line,
) -> Result<(), OutOfMemory>
    requires { moment.now.gate.now.paths ≡ paths_of moment.now.decl.now.declaration }
{
    if is_admitted(line.reply) {
        return Ok(());
    }
    if let Reply::NoRoom = line.reply {
        return push_no_room(text, moment, line);
    }
    match line.attempt {
        Attempt::Start(op) => push_unstarted(alloc, text, moment, op, line.reply),
        Attempt::Apply(act, _) => push_activity(text, moment, act, line.reply),
        Attempt::Finish(act) => push_activity(text, moment, act, line.reply),
    }
}
