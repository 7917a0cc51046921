//! Attempts behind a journal in files, in words.

ghost use Rattle.std.specs.Prelude.{◌≡◌, ◌⊎◌, map, IfOk, IfErr};
ghost use Rattle.std.specs.String.{string_bytes};
ghost use Rattle.path_shelf.specs.Own.{own_state};
ghost use Rattle.path_shelf.specs.States.{MayFail};
ghost use Rattle.tell_base.specs.Ends.{Ends, RefusesText};
ghost use Rattle.tell_base.specs.Refusals.{IsBadAttempts};
ghost use Rattle.tell_base.specs.Statuses.{status_of};
ghost use Rattle.tell_journals.specs.Behind.{behind_status};
ghost use Rattle.cmd_explain.specs.Explanations.{ExplanationBehindEnds, IsExplanationBy};

use crate::explain::explained;
use crate::faults::{FileNames, Subject, tell_place};
use cmd_audit::{FilesFault, JournalFile, name_of};
use path_lines::read_attempts;
use path_model::{Line, OutOfMemory};
use std::alloc::Allocator;
use std::io::Write;
use tell_base::{Fault, Status, put_text};
use tell_journals::{Behind, BehindFault, read_behind, tell_behind};
use tell_places::TextKind;

/// The lines of all segments, in order.
fn lines_of<A: Allocator + Copy>(
    alloc: A,
    segments: &[Vec<Line, A>],
) -> Result<Vec<Line, A>, OutOfMemory> {
    let mut lines = Vec::new(alloc);
    for segment in segments {
        lines.extend_from_slice(segment)?;
    }
    Ok(lines)
}

/// The explanation of the attempts in a text, made to a system behind a journal.
fn explained_behind<A: Allocator + Copy>(
    alloc: A,
    behind: Behind<A>,
    attempts: &[u8],
) -> Result<String<A>, Fault<'static>>
    requires { behind.system.opened ≡ None }
    ensures ok { IfOk result (λ text. IsExplanationBy (MayFail (own_state {Y = A})) behind.system attempts.now (string_bytes text)) }
    ensures err { IfErr result (λ fault. RefusesText ⊥ (IsBadAttempts behind.system.declaration attempts.now) (status_of fault)) }
{
    let Behind {
        segments,
        mut system,
    } = behind;
    let entries = match read_attempts(alloc, system.decl(), attempts) {
        Ok(entries) => entries,
        Err(fault) => return Err(Fault::Text(fault)),
    };
    let Ok(lines) = lines_of(alloc, &segments) else {
        return Err(Fault::OutOfMemory);
    };
    let text = explained(alloc, &mut system, lines, true, &entries);
    drop(system);
    text
}

/// The text of this file of a journal; none past the last.
fn text_of<A: Allocator + Copy>(files: &[JournalFile<A>], file: usize) -> &[u8] {
    match files.get(file) {
        Some(file) => &file.text,
        None => b"",
    }
}

/// Tells on `err` why no system goes on behind a journal: where a text is at fault, with its place, as
/// [`explain_journal`](crate::explain_journal) does.
fn tell_unopened<A: Allocator + Copy, E: Write>(
    alloc: A,
    names: FileNames<'_>,
    declaration: &[u8],
    journal: &[JournalFile<A>],
    fault: BehindFault,
    err: &mut E,
) -> Status
    ensures { (result ≡ behind_status fault) ⊎ (result ≡ Status.StreamFailed) }
{
    match fault {
        BehindFault::Files(FilesFault::Text(file, fault)) => {
            let names = FileNames {
                declaration: names.declaration,
                text: name_of(journal, file),
            };
            let subject = Subject::Text(TextKind::Journal, text_of(journal, file));
            tell_place(alloc, names, declaration, subject, Fault::Text(fault), err)
        }
        BehindFault::Other(fault) => tell_place(
            alloc,
            names,
            declaration,
            Subject::Declaration,
            fault,
            err,
        ),
        fault => tell_behind(err, journal, fault),
    }
}

/// Explains attempts as [`explain_attempts`](crate::explain_attempts) does, but of a system that goes on behind the journal in these files
/// ([`read_behind`]). The journal's own lines aren't written, and the attempts are numbered from 1. The room is the one that the first file
/// names, else `room`; the lines of the last file take room, as if the system that wrote them had gone on. The cost is that of
/// [`read_behind`] and of an explanation.
///
/// `TextRefused`: also if a file isn't a journal, or names another room than those before it. `Unsound`: a line of the journal has a reply
/// that the lines before it don't owe; nothing was written. The other statuses are those of
/// [`explain_attempts`](crate::explain_attempts).
pub fn explain_behind<A: Allocator + Copy, O: Write, E: Write>(
    alloc: A,
    declaration: &[u8],
    room: u32,
    journal: &[JournalFile<A>],
    attempts: &[u8],
    names: FileNames<'_>,
    out: &mut O,
    err: &mut E,
) -> Status
    // Done: each attempt was written with its number and a reply that all lines before it owed.
    ensures { Ends (ExplanationBehindEnds declaration.now room (map (λ f. f.text.items) journal.now) attempts.now)
        (O.contents out.old) (O.contents out.new) result }
{
    let behind = match read_behind(alloc, declaration, room, journal) {
        Ok(behind) => behind,
        Err(fault) => return tell_unopened(alloc, names, declaration, journal, fault, err),
    };
    match explained_behind(alloc, behind, attempts) {
        Ok(text) => put_text(out, err, text.as_bytes()),
        Err(fault) => {
            let subject = Subject::Text(TextKind::Attempts, attempts);
            tell_place(alloc, names, declaration, subject, fault, err)
        }
    }
}
