//! From bytes to bytes: attempts in, each with its reply out, and a report of the system at the end.

ghost use Rattle.std.specs.Prelude.{◌≡◌, ◌≢◌, ◌≤◌, ◌++◌, length, map, None, IfOk, IfErr, IfSome, IfNone, OnOk};
ghost use Rattle.path_model.specs.Rooms.{IsBadRoom};
ghost use Rattle.path_model.specs.Segments.{joined};
ghost use Rattle.path_shelf.specs.States.{MayFail, laws_of};
ghost use Rattle.path_shelf.specs.Shelves.{declared_laws};
ghost use Rattle.tell_base.specs.Ends.{Ends, OfAttempts, RefusesText};
ghost use Rattle.tell_base.specs.Refusals.{HasAttempts, IsBadAttempts, IsUnopened};
ghost use Rattle.tell_base.specs.Statuses.{status_of};
ghost use Rattle.cmd_trace.specs.Traces.{GrowsByReport, IsAnswered, IsToldBy, IsTraceBy, IsTraceOf, TraceEnds};

use path_decl::Decl;
use path_fields::after_line;
use path_lines::{LIMIT, Recent, TextFault, fault_at, next_entry, push_told, read_attempts};
use path_model::{Attempt, MOST_LINES, OutOfMemory, Reply};
use path_shelf::Device;
use path_system::{Controller, open_fault};
use std::alloc::Allocator;
use std::io::Write;
use tell_base::{Fault, Status, put_text, read_own, tell, write_report};

/// How many lines the journal of a trace has room for unless another room is given.
pub const ROOM: u32 = 4096;

/// The most bytes that a reply adds to its attempt: `: used `, twenty digits and a line feed.
const LONGEST_REPLY: usize = 28;

/// How many attempts were made, and how many of these had no room.
#[derive(Clone, Copy)]
pub struct Made {
    pub attempts: u32,
    pub roomless: u32,
}

impl Made {
    /// No attempt was made.
    pub const NONE: Made = Made {
        attempts: 0,
        roomless: 0,
    };
}

/// The most bytes that the trace of these attempts can have: each line has at least ten bytes with its line feed.
fn longest_trace(attempts: &[u8]) -> usize {
    let lines = attempts.len() / 10 + 1;
    lines
        .saturating_mul(LONGEST_REPLY)
        .saturating_add(attempts.len())
}

/// Counts an attempt that got this reply.
fn count_made(made: &mut Made, reply: Reply) {
    made.attempts = made.attempts.saturating_add(1);
    if let Reply::NoRoom = reply {
        made.roomless = made.roomless.saturating_add(1);
    }
}

/// Steps the system, and appends the attempt's own line with its reply and a line feed. Fails only if allocation fails.
fn answer<D: Device, A: Allocator + Copy>(
    system: &mut Controller<D, A>,
    worker: u32,
    attempt: Attempt,
    line: &[u8],
    trace: &mut Vec<u8, A>,
    made: &mut Made,
) -> Result<(), Fault<'static>>
    requires { system.old.opened ≡ None }
    ensures ok { OnOk result (IsAnswered (MayFail D.state) system.old system.new worker attempt line.now trace.old.items trace.new.items) }
    ensures memory { IfErr result (λ fault. fault ≡ Fault.OutOfMemory) }
{
    let reply = system.step(worker, attempt);
    count_made(made, reply);
    trace.extend_from_slice(line)?;
    push_told(trace, reply)?;
    Ok(())
}

/// The system's replies to the attempts of a text, one line each; they are counted. One pass over the text: each line is
/// read, stepped and copied.
fn answers<D: Device, A: Allocator + Copy>(
    alloc: A,
    system: &mut Controller<D, A>,
    attempts: &[u8],
    made: &mut Made,
) -> Result<Vec<u8, A>, Fault<'static>>
    requires short { length attempts.now ≤ LIMIT }
    requires first { system.old.opened ≡ None }
    ensures ok { IfOk result (λ bytes.
        IsTraceBy (MayFail D.state) system.old attempts.now system.new.journal bytes.items) }
    ensures declaration { OnOk result (system.new.declaration ≡ system.old.declaration) }
    ensures opened { OnOk result (system.new.opened ≡ system.old.opened) }
    ensures earlier { OnOk result (system.new.earlier ≡ system.old.earlier) }
    ensures err { IfErr result (λ fault. RefusesText ⊥ (IsBadAttempts system.old.declaration attempts.now) (status_of fault)) }
{
    let mut trace = Vec::with_capacity(alloc, longest_trace(attempts))?;
    let mut recent = Recent::new();
    let mut rest = attempts;
    let mut number = 0u32;
    while !rest.is_empty() {
        let first = match next_entry(system.decl(), &mut recent, rest) {
            Ok(first) => first,
            Err(stop) => return Err(Fault::Text(fault_at(number, stop.fault))),
        };
        let line = &rest[..first.length];
        answer(system, first.worker, first.attempt, line, &mut trace, made)?;
        rest = after_line(rest, first.length);
        number += 1;
    }
    Ok(trace)
}

/// Appends the report of the system if `report` is set. Fails only if allocation fails.
fn push_report_if<D: Device, A: Allocator + Copy>(
    alloc: A,
    system: &Controller<D, A>,
    report: bool,
    trace: &mut Vec<u8, A>,
) -> Result<(), OutOfMemory>
    requires { system.now.opened ≡ None }
    ensures { OnOk result (GrowsByReport system.now.declaration (joined system.now.earlier ++ system.now.journal) report
        trace.old.items trace.new.items) }
{
    if report {
        let present = system.report(alloc)?;
        let text = write_report(alloc, system.decl(), &present)?;
        trace.extend_from_slice(text.as_bytes())?;
    }
    Ok(())
}

/// The system's replies to the attempts of a text, and then its report if `report` is set.
pub fn replies_and_report<D: Device, A: Allocator + Copy>(
    alloc: A,
    system: &mut Controller<D, A>,
    report: bool,
    attempts: &[u8],
    made: &mut Made,
) -> Result<Vec<u8, A>, Fault<'static>>
    requires short { length attempts.now ≤ LIMIT }
    requires first { system.old.opened ≡ None }
    ensures ok { IfOk result (λ bytes. IsToldBy (MayFail D.state) system.old report attempts.now bytes.items) }
    ensures err { IfErr result (λ fault. RefusesText ⊥ (IsBadAttempts system.old.declaration attempts.now) (status_of fault)) }
{
    let mut trace = answers(alloc, system, attempts, made)?;
    push_report_if(alloc, system, report, &mut trace)?;
    Ok(trace)
}

/// Why this can't be traced by a system over these devices, as far as that shows before the system is opened: the
/// text is too long, or the system can't be opened. If both the text and the opening are at fault, the text's fault counts.
fn refusal<D: Device, A: Allocator + Copy>(
    alloc: A,
    decl: &Decl<A>,
    devices: &[D],
    room: u32,
    attempts: &[u8],
) -> Option<Fault<'static>>
    ensures some { IfSome result (λ fault.
        RefusesText (HasAttempts decl.now.declaration attempts.now × IsUnopened decl.now.declaration (map D.state devices.now) room)
        (IsBadAttempts decl.now.declaration attempts.now) (status_of fault)) }
    ensures none { IfNone result ((length attempts.now ≤ LIMIT) × (IsBadRoom room → ⊥)
        × (laws_of (map D.state devices.now) ≡ declared_laws decl.now.declaration)) }
{
    if attempts.len() > LIMIT {
        return Some(Fault::Text(TextFault::TooLong));
    }
    let fault = open_fault(decl, devices, room)?;
    match read_attempts(alloc, decl, attempts) {
        Ok(_) => Some(Fault::Open(fault)),
        Err(fault) => Some(Fault::Text(fault)),
    }
}

/// The replies of a system over the devices to the attempts of the text, and then its report if that is asked for.
fn traced<D: Device, A: Allocator + Copy>(
    alloc: A,
    decl: Decl<A>,
    devices: Vec<D, A>,
    room: u32,
    attempts: &[u8],
    report: bool,
    made: &mut Made,
) -> Result<Vec<u8, A>, Fault<'static>>
    ensures ok { IfOk result (λ bytes.
        IsTraceOf decl.declaration (map D.state devices.items) (MayFail D.state) room report attempts.now bytes.items) }
    ensures opened { OnOk result ((IsBadRoom room → ⊥) × (laws_of (map D.state devices.items) ≡ declared_laws decl.declaration)) }
    ensures err { IfErr result (λ fault.
        RefusesText (HasAttempts decl.declaration attempts.now × IsUnopened decl.declaration (map D.state devices.items) room)
        (IsBadAttempts decl.declaration attempts.now) (status_of fault)) }
{
    if let Some(fault) = refusal(alloc, &decl, &devices, room, attempts) {
        drop(decl);
        return Err(fault);
    }
    match Controller::open(alloc, decl, devices, room) {
        Ok(mut system) => {
            let trace = replies_and_report(alloc, &mut system, report, attempts, made);
            drop(system);
            trace
        }
        Err((fault, _)) => Err(Fault::Open(fault)),
    }
}

/// Says on `err`, in one line, how many of the attempts that were made had no room, if some had none, and which room is large enough for
/// all of them: two places for each, since a start has a place for its finish. What `err` doesn't take is lost.
fn hint_at_room<E: Write>(err: &mut E, made: Made) {
    let roomless = made.roomless;
    if roomless == 0 {
        return;
    }
    let room = made.attempts.saturating_mul(2);
    let hint = if room <= MOST_LINES {
        writeln!(
            err,
            "hint: attempts without room: {roomless}; --room {room} has room for all"
        )
    } else {
        writeln!(
            err,
            "hint: attempts without room: {roomless}; --room {MOST_LINES} is the largest"
        )
    };
    drop(hint);
}

/// Reads attempts, steps a system over the devices through them, and writes each with its reply, one line each; then, if `report` is
/// set, the report of the system as it is then ([`write_report`]). Writes nothing before the whole text has been read. The journal has
/// room for `room` lines; an attempt without room gets the reply `no room`. The cost is that of the text, of opening the system, of a
/// step for each attempt, and of the report.
///
/// `CommandRefused`: the room is 0 or above [`MOST_LINES`](path_model::MOST_LINES), or the devices aren't those of the declaration,
/// one for each resource and of its law; nothing was written. `TextRefused`: the text is refused, which counts first; nothing was written.
/// `StreamFailed`: a writer failed, and what it took is unknown. `NoMemory`: allocation failed, and a front of all this was written. A
/// fault is one line on `err`. If attempts had no room, a line on `err` says how many, and names a room with more; if that can't be
/// written, it is left out.
pub fn trace_to<D: Device, A: Allocator + Copy, O: Write, E: Write>(
    alloc: A,
    decl: Decl<A>,
    devices: Vec<D, A>,
    room: u32,
    report: bool,
    attempts: &[u8],
    out: &mut O,
    err: &mut E,
) -> Status
    // Done: each attempt of the text was written with a reply that the lines before it owed, then the report if asked for, and
    // nothing else. A text that is no list of attempts is refused, and so is a system that can't be opened.
    ensures ends { Ends (OfAttempts (IsTraceOf decl.declaration (map D.state devices.items) (MayFail D.state) room report attempts.now)
        (IsUnopened decl.declaration (map D.state devices.items) room) decl.declaration attempts.now)
        (O.contents out.old) (O.contents out.new) result }
    // Done means that a system can have the room and that the devices have the declared laws.
    ensures room { IsBadRoom room → result ≢ Status.Done }
    ensures laws { result ≡ Status.Done → laws_of (map D.state devices.items) ≡ declared_laws decl.declaration }
{
    let mut made = Made::NONE;
    match traced(alloc, decl, devices, room, attempts, report, &mut made) {
        Ok(trace) => {
            hint_at_room(err, made);
            put_text(out, err, trace.as_slice())
        }
        Err(fault) => tell(err, fault),
    }
}

/// Reads a declaration, and writes each attempt with its reply, and the report, as [`trace_to`] does and at its cost. The devices are
/// [`OwnDevice`](path_shelf::OwnDevice)s: each cell and tally contains 0 at first, each queue is empty, and none fails.
///
/// `DeclarationRefused`: the declaration is refused. `TextRefused`: the attempts are refused. `CommandRefused`: the room is refused.
/// In these three cases nothing was written. `StreamFailed`: a writer failed, and what it took is unknown. `NoMemory`: allocation
/// failed, and a front of all this was written. A fault is one line on `err`.
pub fn trace_bytes<A: Allocator + Copy, O: Write, E: Write>(
    alloc: A,
    declaration: &[u8],
    room: u32,
    report: bool,
    attempts: &[u8],
    out: &mut O,
    err: &mut E,
) -> Status
    // As the table of traces has it: done, each attempt was written with a reply that the lines before it owed, then the report if
    // asked for, and nothing else.
    ensures ends { Ends (TraceEnds declaration.now room report attempts.now) (O.contents out.old) (O.contents out.new) result }
    // Done means that a system can have the room.
    ensures room { IsBadRoom room → result ≢ Status.Done }
{
    match read_own(alloc, declaration) {
        Ok((decl, devices)) => trace_to(alloc, decl, devices, room, report, attempts, out, err),
        Err(fault) => tell(err, fault),
    }
}
