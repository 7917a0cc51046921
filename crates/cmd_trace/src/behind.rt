//! Traces of a system that goes on behind a journal.

ghost use Rattle.std.specs.Prelude.{◌≡◌, None, map, IfOk, IfErr};
ghost use Rattle.path_shelf.specs.Own.{own_state};
ghost use Rattle.path_shelf.specs.States.{MayFail};
ghost use Rattle.tell_base.specs.Ends.{Ends, RefusesText};
ghost use Rattle.tell_base.specs.Refusals.{IsBadAttempts};
ghost use Rattle.tell_base.specs.Statuses.{status_of};
ghost use Rattle.cmd_trace.specs.Traces.{IsToldBy, TraceBehindEnds};

use crate::trace::{Made, replies_and_report};
use cmd_audit::JournalFile;
use path_lines::{LIMIT, TextFault};
use std::alloc::Allocator;
use std::io::Write;
use tell_base::{Fault, Status, put_text, tell};
use tell_journals::{Behind, read_behind, tell_behind};

/// The replies of a system to the attempts of a text of any length, and then its report if that is asked for.
fn traced_on<A: Allocator + Copy>(
    alloc: A,
    behind: Behind<A>,
    report: bool,
    attempts: &[u8],
    made: &mut Made,
) -> Result<Vec<u8, A>, Fault<'static>>
    requires { behind.system.opened ≡ None }
    ensures ok { IfOk result (λ bytes. IsToldBy (MayFail (own_state {Y = A})) behind.system report attempts.now bytes.items) }
    ensures err { IfErr result (λ fault. RefusesText ⊥ (IsBadAttempts behind.system.declaration attempts.now) (status_of fault)) }
{
    let Behind {
        segments,
        mut system,
    } = behind;
    drop(segments);
    if attempts.len() > LIMIT {
        drop(system);
        return Err(Fault::Text(TextFault::TooLong));
    }
    let trace = replies_and_report(alloc, &mut system, report, attempts, made);
    drop(system);
    trace
}

/// Says on `err`, in one line, how many attempts had no room, if some had none, and what gives them room. What `err` doesn't take is lost.
fn hint_behind<E: Write>(err: &mut E, made: Made) {
    let roomless = made.roomless;
    if roomless > 0 {
        drop(writeln!(
            err,
            "hint: attempts without room: {roomless}; an empty file as the last journal has all its room"
        ));
    }
}

/// Reads a declaration, and writes each attempt with its reply, and the report, as [`trace_bytes`](crate::trace_bytes) does, but of a
/// system that goes on behind the journal in these files ([`read_behind`]). The journal's own lines aren't written. The report is one on
/// all lines. The room is the one that the first file names, else `room`; the lines of the last file take room, as if the system that wrote
/// them had gone on. The cost is that of [`read_behind`] and of a trace.
///
/// `DeclarationRefused`: the declaration is refused. `TextRefused`: a file isn't a journal or names another room than those before it, or
/// the attempts are refused. `CommandRefused`: the room is refused. `Unsound`: a line of the journal has a reply that the lines before it
/// don't owe. In these cases, which count in the order of the texts, nothing was written; `err` has one line, which names the file of a
/// journal. `StreamFailed`: a writer failed, and what it took is unknown. `NoMemory`: allocation failed, and a front of all this was
/// written.
pub fn trace_behind<A: Allocator + Copy, O: Write, E: Write>(
    alloc: A,
    declaration: &[u8],
    room: u32,
    journal: &[JournalFile<A>],
    report: bool,
    attempts: &[u8],
    out: &mut O,
    err: &mut E,
) -> Status
    // As the table of traces behind a journal has it: done, each attempt was written with a reply that all lines before it owed, then the
    // report if asked for, and nothing else.
    ensures { Ends (TraceBehindEnds declaration.now room (map (λ f. f.text.items) journal.now) report attempts.now)
        (O.contents out.old) (O.contents out.new) result }
{
    let behind = match read_behind(alloc, declaration, room, journal) {
        Ok(behind) => behind,
        Err(fault) => return tell_behind(err, journal, fault),
    };
    let mut made = Made::NONE;
    match traced_on(alloc, behind, report, attempts, &mut made) {
        Ok(trace) => {
            hint_behind(err, made);
            put_text(out, err, trace.as_slice())
        }
        Err(fault) => tell(err, fault),
    }
}
