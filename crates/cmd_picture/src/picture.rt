//! From bytes to the picture of a journal.

ghost use Rattle.std.specs.Prelude.{◌≡◌, map, IfOk, IfErr, OnOk};
ghost use Rattle.std.specs.String.{string_bytes};
ghost use Rattle.path_model.specs.Rooms.{IsBadRoom};
ghost use Rattle.path_shelf.specs.Own.{own_state};
ghost use Rattle.tell_base.specs.Ends.{Ends, MayEnd, RefusesText};
ghost use Rattle.tell_base.specs.Own.{own_states};
ghost use Rattle.tell_base.specs.Refusals.{HasAttempts, IsBadAttempts, IsBadJournal, Under};
ghost use Rattle.tell_base.specs.Statuses.{status_of};
ghost use Rattle.cmd_picture.specs.Pictures.{IsPicture, IsPictureOf, IsPictureOfJournal, JournalPictureEnds, PictureEnds};

use crate::figure::{LINES, draw};
use path_decl::Decl;
use path_journal::read_journal;
use path_lines::read_attempts;
use path_model::{Attempt, Line, OutOfMemory};
use path_read::read;
use path_shelf::{Device, OwnDevice};
use path_system::Controller;
use std::alloc::Allocator;
use std::io::Write;
use tell_base::{Fault, Status, put_text, read_own, tell};

/// The lines of the first attempts: each with the reply of a system that nothing was attempted before.
fn lines_of<D: Device, A: Allocator + Copy>(
    alloc: A,
    system: &mut Controller<D, A>,
    attempts: &[(u32, Attempt)],
) -> Result<Vec<Line, A>, OutOfMemory> {
    let mut lines = Vec::new(alloc);
    for (worker, attempt) in attempts.iter().take(LINES) {
        let reply = system.step(*worker, *attempt);
        lines.push(Line {
            worker: *worker,
            attempt: *attempt,
            reply,
        })?;
    }
    Ok(lines)
}

/// The picture of the replies to these attempts.
fn drawn_of<D: Device, A: Allocator + Copy>(
    alloc: A,
    system: &mut Controller<D, A>,
    attempts: &[(u32, Attempt)],
) -> Result<String<A>, OutOfMemory>
    ensures { IfOk result (λ text. IsPicture (string_bytes text)) }
{
    let lines = lines_of(alloc, system, attempts)?;
    draw(alloc, system.decl(), &lines, attempts.len())
}

/// The picture of the replies to the attempts of a text, by a system over the program's own devices.
fn drawn<A: Allocator + Copy>(
    alloc: A,
    decl: Decl<A>,
    devices: Vec<OwnDevice<A>, A>,
    room: u32,
    text: &[u8],
) -> Result<String<A>, Fault<'static>>
    requires { map own_state devices.items ≡ own_states decl.declaration }
    ensures ok { IfOk result (λ drawn. IsPictureOf room text.now decl.declaration (string_bytes drawn)) }
    ensures err { IfErr result (λ fault. RefusesText (HasAttempts decl.declaration text.now × IsBadRoom room)
        (IsBadAttempts decl.declaration text.now) (status_of fault)) }
{
    let attempts = match read_attempts(alloc, &decl, text) {
        Ok(attempts) => attempts,
        Err(fault) => return Err(Fault::Text(fault)),
    };
    match Controller::open(alloc, decl, devices, room) {
        Ok(mut system) => {
            let text = drawn_of(alloc, &mut system, &attempts);
            drop(system);
            Ok(text?)
        }
        Err((fault, _)) => Err(Fault::Open(fault)),
    }
}

/// The picture of a text of attempts under the declaration in another text.
fn picture<A: Allocator + Copy>(
    alloc: A,
    declaration: &[u8],
    room: u32,
    attempts: &[u8],
) -> Result<String<A>, Fault<'static>>
    ensures ok { IfOk result (λ drawn. Under declaration.now (λ d. IsPictureOf room attempts.now d (string_bytes drawn))) }
    ensures err { IfErr result (λ fault. MayEnd (PictureEnds declaration.now room attempts.now) (status_of fault)) }
{
    match read_own(alloc, declaration) {
        Ok((decl, devices)) => drawn(alloc, decl, devices, room, attempts),
        Err(fault) => Err(fault),
    }
}

/// The picture of a journal's text.
fn journal_drawn<A: Allocator + Copy>(
    alloc: A,
    decl: &Decl<A>,
    journal: &[u8],
) -> Result<String<A>, Fault<'static>>
    ensures ok { IfOk result (λ drawn. IsPictureOfJournal journal.now decl.now.declaration (string_bytes drawn)) }
    ensures err { IfErr result (λ fault. RefusesText ⊥ (IsBadJournal decl.now.declaration journal.now) (status_of fault)) }
{
    match read_journal(alloc, decl, journal) {
        Ok(found) => Ok(draw(alloc, decl, &found.lines, found.lines.len())?),
        Err(fault) => Err(Fault::Text(fault)),
    }
}

/// The picture of a journal's text under the declaration in another text.
fn journal_picture<A: Allocator + Copy>(
    alloc: A,
    declaration: &[u8],
    journal: &[u8],
) -> Result<String<A>, Fault<'static>>
    ensures ok { IfOk result (λ drawn. Under declaration.now (λ d. IsPictureOfJournal journal.now d (string_bytes drawn))) }
    ensures err { IfErr result (λ fault. MayEnd (JournalPictureEnds declaration.now journal.now) (status_of fault)) }
{
    match read(alloc, declaration) {
        Ok(decl) => journal_drawn(alloc, &decl, journal),
        Err(fault) => Err(Fault::Declaration(fault)),
    }
}

/// Reads a declaration and attempts, and writes the picture of the attempts with their replies ([`draw`]). The devices are
/// [`OwnDevice`]s: each cell and tally contains 0 at first, each queue is empty, and none fails. The journal has room for
/// `room` lines; an attempt without room gets the reply `no room`. Writes nothing before both texts have been read.
///
/// `DeclarationRefused`: the declaration is refused. `TextRefused`: the attempts are refused. `CommandRefused`: the room is refused.
/// In these three cases nothing was written. `StreamFailed`: a writer failed, and what it took is unknown. `NoMemory`: allocation
/// failed, and a front of the picture was written. A fault is one line on `err`.
pub fn picture_bytes<A: Allocator + Copy, O: Write, E: Write>(
    alloc: A,
    declaration: &[u8],
    room: u32,
    attempts: &[u8],
    out: &mut O,
    err: &mut E,
) -> Status
    // The texts are a declaration and a list of attempts, and a picture was written, and nothing else.
    ensures { Ends (PictureEnds declaration.now room attempts.now) (O.contents out.old) (O.contents out.new) result }
{
    match picture(alloc, declaration, room, attempts) {
        Ok(text) => put_text(out, err, text.as_bytes()),
        Err(fault) => tell(err, fault),
    }
}

/// Reads a declaration and a journal, and writes the picture of the journal ([`draw`]), whether or not its replies were owed. Writes
/// nothing before both texts have been read.
///
/// `DeclarationRefused`: the declaration is refused. `TextRefused`: the journal's text is refused. In these two cases nothing was
/// written. `StreamFailed`: a writer failed, and what it took is unknown. `NoMemory`: allocation failed, and a front of the picture
/// was written. A fault is one line on `err`.
pub fn picture_journal_bytes<A: Allocator + Copy, O: Write, E: Write>(
    alloc: A,
    declaration: &[u8],
    journal: &[u8],
    out: &mut O,
    err: &mut E,
) -> Status
    // The texts are a declaration and a journal, and a picture was written, and nothing else.
    ensures { Ends (JournalPictureEnds declaration.now journal.now) (O.contents out.old) (O.contents out.new) result }
{
    match journal_picture(alloc, declaration, journal) {
        Ok(text) => put_text(out, err, text.as_bytes()),
        Err(fault) => tell(err, fault),
    }
}
