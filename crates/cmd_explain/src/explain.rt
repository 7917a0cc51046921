//! From bytes to bytes: a declaration, or attempts under it, in words.

ghost use Rattle.std.specs.Prelude.{◌≡◌, None, [], map, IfOk, IfErr, OnOk};
ghost use Rattle.std.specs.String.{string_bytes};
ghost use Rattle.path_model.specs.Declarations.{paths_of};
ghost use Rattle.path_shelf.specs.States.{MayFail};
ghost use Rattle.tell_base.specs.Ends.{Ends, MayEnd, RefusesText};
ghost use Rattle.tell_base.specs.Own.{own_states};
ghost use Rattle.tell_base.specs.Refusals.{HasAttempts, IsBadAttempts, IsUndeclared, IsUnopened, Under};
ghost use Rattle.tell_base.specs.Statuses.{status_of};
ghost use Rattle.cmd_explain.specs.Explanations.{AreExplained, IsExplainedStep, IsExplanation, IsExplanationOver};
ghost use Rattle.cmd_explain.specs.Explanations.{DescriptionEnds, ExplanationEnds};

use crate::declared::declaration_in_words;
use crate::faults::{FileNames, Subject, tell_place};
use crate::held::{Lines, push_held};
use crate::standing::{Moment, push_standing};
use crate::why::push_why;
use path_decl::Decl;
use path_lines::{push_line, read_attempts};
use path_model::{Attempt, Line, OutOfMemory, Reply};
use path_read::read;
use path_shelf::Device;
use path_system::Controller;
use std::alloc::Allocator;
use std::io::Write;
use tell_base::{Fault, Status, put_text, read_own};
use tell_places::TextKind;

/// What was said so far of a system's replies.
#[derive(Drop)]
struct Told<A: Allocator + Copy> {
    text: String<A>,
    /// The lines that the system has answered.
    lines: Vec<Line, A>,
    /// How many attempts had no room.
    roomless: u64,
    /// Whether the first lines are those of files.
    is_behind: bool,
}

/// A system's declaration as it stands.
fn moment_of<'a, D: Device, A: Allocator + Copy>(
    system: &'a Controller<D, A>,
    told: &Told<A>,
) -> Moment<'a, A>
    ensures { result.gate.now.paths ≡ paths_of result.decl.now.declaration }
{
    Moment {
        decl: system.decl(),
        gate: system.gate(),
        live: system.live(),
        lines: system.lines(),
        roomless: told.roomless,
        is_behind: told.is_behind,
    }
}

/// Why an attempt got this reply, in lines of their own. Fails only if allocation fails.
fn why<D: Device, A: Allocator + Copy>(
    alloc: A,
    system: &Controller<D, A>,
    told: &Told<A>,
    line: &Line,
) -> Result<String<A>, OutOfMemory> {
    let mut text = String::new(alloc);
    push_why(alloc, &mut text, &moment_of(system, told), line)?;
    Ok(text)
}

/// How each resource stands, and who waits. Fails only if allocation fails.
fn standing<D: Device, A: Allocator + Copy>(
    alloc: A,
    system: &Controller<D, A>,
    told: &Told<A>,
) -> Result<String<A>, OutOfMemory> {
    let mut text = String::new(alloc);
    push_standing(alloc, &mut text, &moment_of(system, told))?;
    let lines = Lines {
        front: &told.lines,
        last: None,
    };
    push_held(alloc, &mut text, system.decl(), lines, system.live())?;
    Ok(text)
}

/// Keeps a line that the journal keeps: any but that of an attempt without room, which is counted. Fails only if allocation fails.
fn keep<A: Allocator + Copy>(told: &mut Told<A>, line: Line) -> Result<(), OutOfMemory>
    ensures { OnOk result (string_bytes told.new.text ≡ string_bytes told.old.text) }
{
    match line.reply {
        Reply::NoRoom => told.roomless = told.roomless.saturating_add(1),
        _ => told.lines.push(line)?,
    }
    Ok(())
}

/// Steps the system, appends the attempt with its number and its reply, and why it was refused, and keeps its line. Fails only if
/// allocation fails.
fn push_step<D: Device, A: Allocator + Copy>(
    alloc: A,
    system: &mut Controller<D, A>,
    number: usize,
    worker: u32,
    attempt: Attempt,
    told: &mut Told<A>,
) -> Result<(), OutOfMemory>
    requires { system.old.opened ≡ None }
    ensures { OnOk result (IsExplainedStep (MayFail D.state) system.old system.new number worker attempt
        (string_bytes told.old.text) (string_bytes told.new.text)) }
{
    let reply = system.step(worker, attempt);
    let line = Line {
        worker,
        attempt,
        reply,
    };
    write!(told.text, "{number}: ")?;
    push_line(&mut told.text, system.decl(), &line)?;
    told.text.push_str("\n")?;
    let reasons = why(alloc, system, told, &line)?;
    told.text.push_str(&reasons)?;
    keep(told, line)?;
    Ok(())
}

/// The system's replies to these attempts, in order, each with its number from 1 and why it was refused. Fails only if allocation fails.
fn steps<D: Device, A: Allocator + Copy>(
    alloc: A,
    system: &mut Controller<D, A>,
    entries: &[(u32, Attempt)],
    told: &mut Told<A>,
) -> Result<(), OutOfMemory>
    requires first { system.old.opened ≡ None }
    requires empty { string_bytes told.old.text ≡ [] }
    ensures { OnOk result (AreExplained (MayFail D.state) system.old entries.now system.new.journal (string_bytes told.new.text)) }
{
    for (i, entry) in entries.iter().enumerate() {
        let (worker, attempt) = *entry;
        push_step(alloc, system, i + 1, worker, attempt, told)?;
    }
    Ok(())
}

/// The replies of a system that has answered these lines to these attempts, why they were refused, and then how each resource stands.
/// Fails only if allocation fails.
pub fn explained<D: Device, A: Allocator + Copy>(
    alloc: A,
    system: &mut Controller<D, A>,
    lines: Vec<Line, A>,
    is_behind: bool,
    entries: &[(u32, Attempt)],
) -> Result<String<A>, Fault<'static>>
    requires { system.old.opened ≡ None }
    ensures memory { IfErr result (λ fault. fault ≡ Fault.OutOfMemory) }
    ensures ok { IfOk result (λ text. IsExplanation (MayFail D.state) system.old entries.now (string_bytes text)) }
{
    let mut told = Told {
        text: String::new(alloc),
        lines,
        roomless: 0,
        is_behind,
    };
    steps(alloc, system, entries, &mut told)?;
    let rest = standing(alloc, system, &told)?;
    let mut text = told.text;
    text.push_str(&rest)?;
    Ok(text)
}

/// The explanation of the attempts in a text by a system of this declaration over these devices.
fn explained_over<D: Device, A: Allocator + Copy>(
    alloc: A,
    decl: Decl<A>,
    devices: Vec<D, A>,
    room: u32,
    attempts: &[u8],
) -> Result<String<A>, Fault<'static>>
    ensures ok { IfOk result (λ text.
        IsExplanationOver decl.declaration (map D.state devices.items) (MayFail D.state) room attempts.now (string_bytes text)) }
    ensures err { IfErr result (λ fault.
        RefusesText (HasAttempts decl.declaration attempts.now × IsUnopened decl.declaration (map D.state devices.items) room)
        (IsBadAttempts decl.declaration attempts.now) (status_of fault)) }
{
    let entries = match read_attempts(alloc, &decl, attempts) {
        Ok(entries) => entries,
        Err(fault) => return Err(Fault::Text(fault)),
    };
    match Controller::open(alloc, decl, devices, room) {
        Ok(mut system) => {
            let text = explained(alloc, &mut system, Vec::new(alloc), false, &entries);
            drop(system);
            text
        }
        Err((fault, _devices)) => Err(Fault::Open(fault)),
    }
}

/// The explanation of the attempts in a text, under the declaration in another.
fn attempts_in_words<A: Allocator + Copy>(
    alloc: A,
    declaration: &[u8],
    room: u32,
    attempts: &[u8],
) -> Result<String<A>, Fault<'static>>
    ensures ok { IfOk result (λ text. Under declaration.now
        (λ d. IsExplanationOver d (own_states d) ⊥ room attempts.now (string_bytes text))) }
    ensures err { IfErr result (λ fault. MayEnd (ExplanationEnds declaration.now room attempts.now) (status_of fault)) }
{
    // The devices are those of the declaration, so only the room or memory can be wanting.
    match read_own(alloc, declaration) {
        Ok((decl, devices)) => explained_over(alloc, decl, devices, room, attempts),
        Err(fault) => Err(fault),
    }
}

/// The declaration in a text, in words.
fn read_in_words<A: Allocator + Copy>(
    alloc: A,
    declaration: &[u8],
) -> Result<String<A>, Fault<'static>>
    ensures declares { OnOk result (Under declaration.now (λ d. Unit {0})) }
    ensures err { IfErr result (λ fault. IsUndeclared declaration.now (status_of fault)) }
{
    match read(alloc, declaration) {
        Ok(decl) => {
            let text = declaration_in_words(alloc, &decl);
            drop(decl);
            Ok(text?)
        }
        Err(fault) => Err(Fault::Declaration(fault)),
    }
}

/// Reads a declaration, and writes a line for each path, with its number, its resource and its text, and a line for each operation, with
/// the paths that it obeys.
///
/// `DeclarationRefused`: the declaration is refused, and nothing was written. `StreamFailed`: a writer failed, and what it took is
/// unknown. `NoMemory`: allocation failed. A fault is told on `err`: that of the text with its line and column, the token, what could stand
/// there, and the likely cause. The cost is that of the text.
pub fn explain_declaration<A: Allocator + Copy, O: Write, E: Write>(
    alloc: A,
    declaration: &[u8],
    names: FileNames<'_>,
    out: &mut O,
    err: &mut E,
) -> Status
    // The text is a declaration, and something was written; or it isn't, and nothing was.
    ensures { Ends (DescriptionEnds declaration.now) (O.contents out.old) (O.contents out.new) result }
{
    match read_in_words(alloc, declaration) {
        Ok(text) => put_text(out, err, text.as_bytes()),
        Err(fault) => tell_place(alloc, names, declaration, Subject::Declaration, fault, err),
    }
}

/// Reads a declaration and attempts, makes the attempts over the program's own devices as [`trace_bytes`](cmd_trace::trace_bytes) does,
/// and writes each with its number from 1 and its reply. A refused one is followed by why it was refused: of a start the paths that
/// forbid it, what of the first is in progress, and what it lets begin next. At the end stands, for each resource, what can start, what
/// is blocked, what is live, and whether nothing of it can ever be admitted again. Writes nothing before both texts have been read.
///
/// `DeclarationRefused`: the declaration is refused. `TextRefused`: the attempts are refused. `CommandRefused`: the room is not 1 to
/// [`MOST_LINES`](path_model::MOST_LINES). In these three cases, which count in this order, nothing was written. `StreamFailed`: a writer
/// failed, and what it took is unknown. `NoMemory`: allocation failed, and a front of all this was written. A fault is told on `err`:
/// that of a text with the name of its file, its line and column, the token, what could stand there, and the likely cause.
///
/// The cost is that of a trace; for each refused start a look at each path that names an operation of the path that forbids it; and the
/// memory of the whole text.
pub fn explain_attempts<A: Allocator + Copy, O: Write, E: Write>(
    alloc: A,
    declaration: &[u8],
    room: u32,
    attempts: &[u8],
    names: FileNames<'_>,
    out: &mut O,
    err: &mut E,
) -> Status
    // Done: each attempt was written with its number and a reply that the lines before it owed.
    ensures { Ends (ExplanationEnds declaration.now room attempts.now) (O.contents out.old) (O.contents out.new) result }
{
    match attempts_in_words(alloc, declaration, room, attempts) {
        Ok(text) => put_text(out, err, text.as_bytes()),
        Err(fault) => {
            let subject = Subject::Text(TextKind::Attempts, attempts);
            tell_place(alloc, names, declaration, subject, fault, err)
        }
    }
}
