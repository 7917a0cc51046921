//! Places of faults.

ghost use Rattle.std.specs.Prelude.{◌≡◌, ◌≤◌, IfNone, IfOk, IfSome};
ghost use Rattle.cmd_audit.specs.Audits.{IsSoundText};
ghost use Rattle.tell_refusals.specs.Places.{AreAttempts, IsDeclared, IsJournal, IsScript};
ghost use Rattle.tell_refusals.specs.Places.{IsAttemptsPlace, IsDeclarationPlace, IsJournalPlace, IsScriptPlace, IsWrongNumber};
ghost use Rattle.tell_refusals.specs.Places.{lines_before};

use crate::source::{Source, Subject};
use cmd_audit::verdict_on;
use path_audit::Verdict;
use path_decl::Decl;
use path_journal::read_journal;
use path_lex::DeclFault;
use path_lines::{TextFault, read_attempts};
use path_model::OutOfMemory;
use path_read::read;
use path_script::{ScriptFault, read_script};
use std::alloc::Allocator;
use std::io::Write;
use tell_base::{Fault, Status};
use tell_places::{
    Finding, TextKind, declaration_finding, push_finding, script_finding, text_finding,
};

/// The lines of a finding, with the line's number in the file; `None` if there is no memory for them.
fn lines_of<A: Allocator + Copy>(
    alloc: A,
    source: Source<'_>,
    finding: Finding<'_, A>,
) -> Option<String<A>> {
    let mut finding = finding;
    finding.spot.line = finding.spot.line.saturating_add(source.lines_before);
    let mut lines = String::new(alloc);
    push_finding(&mut lines, source.name, &finding).ok()?;
    Some(lines)
}

/// Where a declaration is at fault; `None` if it isn't. Fails only if allocation fails.
fn in_declaration<A: Allocator + Copy>(
    alloc: A,
    text: &[u8],
) -> Result<Option<Finding<'_, A>>, OutOfMemory>
    ensures some { IfOk result (λ found. IfSome found (λ finding. IsDeclarationPlace text.now finding.spot)) }
    ensures none { IfOk result (λ found. IfNone found (IsDeclared text.now)) }
{
    match read(alloc, text) {
        Ok(_) => Ok(None),
        Err(DeclFault::OutOfMemory) => Err(OutOfMemory),
        Err(fault) => declaration_finding(alloc, text, fault),
    }
}

/// Where attempts are at fault, in the same way.
fn in_attempts<'a, A: Allocator + Copy>(
    alloc: A,
    decl: &Decl<A>,
    text: &'a [u8],
) -> Result<Option<Finding<'a, A>>, OutOfMemory>
    ensures some { IfOk result (λ found. IfSome found (λ finding. IsAttemptsPlace decl.now.declaration text.now finding.spot)) }
    ensures none { IfOk result (λ found. IfNone found (AreAttempts decl.now.declaration text.now)) }
{
    match read_attempts(alloc, decl, text) {
        Ok(_) => Ok(None),
        Err(TextFault::OutOfMemory) => Err(OutOfMemory),
        Err(fault) => text_finding(alloc, decl, TextKind::Attempts, text, fault),
    }
}

/// Where a journal is at fault, in the same way.
fn in_journal<'a, A: Allocator + Copy>(
    alloc: A,
    decl: &Decl<A>,
    text: &'a [u8],
) -> Result<Option<Finding<'a, A>>, OutOfMemory>
    ensures some { IfOk result (λ found. IfSome found (λ finding. IsJournalPlace decl.now.declaration text.now finding.spot)) }
    ensures none { IfOk result (λ found. IfNone found (IsJournal decl.now.declaration text.now)) }
{
    match read_journal(alloc, decl, text) {
        Ok(_) => Ok(None),
        Err(TextFault::OutOfMemory) => Err(OutOfMemory),
        Err(fault) => text_finding(alloc, decl, TextKind::Journal, text, fault),
    }
}

/// Where a script is at fault, in the same way.
fn in_script<'a, A: Allocator + Copy>(
    alloc: A,
    decl: &Decl<A>,
    text: &'a [u8],
) -> Result<Option<Finding<'a, A>>, OutOfMemory>
    ensures some { IfOk result (λ found. IfSome found (λ finding. IsScriptPlace decl.now.declaration text.now finding.spot)) }
    ensures none { IfOk result (λ found. IfNone found (IsScript decl.now.declaration text.now)) }
{
    match read_script(alloc, decl, text) {
        Ok(_) => Ok(None),
        Err(ScriptFault::OutOfMemory) => Err(OutOfMemory),
        Err(fault) => script_finding(alloc, decl, text, fault),
    }
}

/// How many lines of a text precede those of its journal.
fn head_of(text: &[u8]) -> usize
    ensures lines { result ≡ lines_before text.now }
    ensures few { result ≤ 1 }
{
    match text {
        [b'j', ..] => 1,
        _ => 0,
    }
}

/// The number of a journal's first wrong line in its text, from 1; `None` if none is wrong. Fails as [`verdict_on`] does.
fn wrong_number<A: Allocator + Copy>(
    alloc: A,
    decl: &Decl<A>,
    room: u32,
    text: &[u8],
) -> Result<Option<usize>, Fault<'static>>
    ensures some { IfOk result (λ found. IfSome found (IsWrongNumber decl.now.declaration room text.now)) }
    ensures none { IfOk result (λ found. IfNone found (IsSoundText decl.now.declaration room text.now)) }
{
    match verdict_on(alloc, decl, room, text)? {
        Verdict::WrongLine(number) => Ok(Some(number as usize + head_of(text) + 1)),
        Verdict::Sound => Ok(None),
    }
}

/// The file and the number of a journal's first wrong line; `None` if none is wrong, or if there is no memory to say it.
fn wrong_line<A: Allocator + Copy>(
    alloc: A,
    decl: &Decl<A>,
    source: Source<'_>,
    room: u32,
) -> Option<String<A>> {
    let number = wrong_number(alloc, decl, room, source.text).ok()??;
    let (name, line) = (source.name, number.saturating_add(source.lines_before));
    format!(in alloc;
        "{name}:{line}: this reply isn't the one that the lines before it give\n"
    ).ok()
}

/// What is to be said of a subject that a command has refused with this status; `None` if nothing, or if there is no memory to say it.
fn in_subject<A: Allocator + Copy>(
    alloc: A,
    decl: &Decl<A>,
    subject: Subject<'_>,
    status: Status,
) -> Option<String<A>> {
    match (status, subject) {
        (Status::TextRefused, Subject::Attempts(source)) => {
            lines_of(alloc, source, in_attempts(alloc, decl, source.text).ok()??)
        }
        (Status::TextRefused, Subject::Journal(source, _)) => {
            lines_of(alloc, source, in_journal(alloc, decl, source.text).ok()??)
        }
        (Status::TextRefused, Subject::Script(source)) => {
            lines_of(alloc, source, in_script(alloc, decl, source.text).ok()??)
        }
        (Status::Unsound, Subject::Journal(source, room)) => {
            wrong_line(alloc, decl, source, room)
        }
        _ => None,
    }
}

/// What is to be said where a command has ended with this status; `None` if nothing, or if there is no memory to say it.
fn place<A: Allocator + Copy>(
    alloc: A,
    declaration: Source<'_>,
    subject: Subject<'_>,
    status: Status,
) -> Option<String<A>> {
    match status {
        Status::DeclarationRefused => {
            lines_of(
                alloc,
                declaration,
                in_declaration(alloc, declaration.text).ok()??,
            )
        }
        Status::TextRefused | Status::Unsound => {
            let decl = read(alloc, declaration.text).ok()?;
            in_subject(alloc, &decl, subject, status)
        }
        _ => None,
    }
}

/// Writes on `err` where a text is at fault for which a command ended with this status, as [`push_finding`] says it, or which line of a
/// journal is wrong, with its number from 1 in its file. Returns whether something was said: nothing is if the command ended otherwise.
/// What `err` doesn't take, or what there is no memory for, is left out: the command has told its fault already. Reads the texts once more.
pub fn tell_place<A: Allocator + Copy, E: Write>(
    alloc: A,
    declaration: Source<'_>,
    subject: Subject<'_>,
    status: Status,
    err: &mut E,
) -> bool {
    match place(alloc, declaration, subject, status) {
        Some(lines) => write!(err, "{lines}").is_ok(),
        None => false,
    }
}
