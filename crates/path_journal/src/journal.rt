//! Texts of journals, of each version.

ghost use Rattle.std.specs.Prelude.{◌≡◌, ◌≢◌, ◌<◌, ◌≤◌, ◌↔◌, ◌++◌, ℕ, List, length, Option, IfOk, IfErr, IsErrOf};
ghost use Rattle.path_model.specs.declared.journal.Line.{Line};
ghost use Rattle.path_model.specs.Rooms.{IsRoom};
ghost use Rattle.path_fields.specs.Splits.{EndsAt};
ghost use Rattle.path_lines.specs.declared.texts.TheConstants.{LIMIT};
ghost use Rattle.path_lines.specs.declared.texts.TextFault.TheVariants as faults;
ghost use Rattle.path_journal.specs.JournalTexts.{AreLinesOf, AreNoLines, AreKeptLines, AreNoKeptLines, kept_head};
ghost use Rattle.path_journal.specs.JournalTexts.{IsPlainText, IsNoPlainText, IsJournalText, IsNoJournalText};
ghost use Rattle.path_journal.specs.JournalFaults.{IsLinesFault, IsPlainFault, IsKeptLineFault, IsKeptLinesFault, IsJournalFault};

use crate::cut::{begins_undeclared, whole_lines};
use crate::head::{read_head, read_kept_head};
use crate::record::{first_record, next_record};
use path_decl::Decl;
use path_fields::{after_line, strip};
use path_lines::{LIMIT, LineFault, Recent, Stop, TextFault, fault_at};
use path_model::{JournalText, Line};
use std::alloc::Allocator;

/// The most lines that a text can have: each line has at least sixteen bytes with its line feed.
fn lines_at_most(text: &[u8]) -> usize {
    let mut ends = 0usize;
    for byte in text {
        ends = ends.wrapping_add(usize::from(*byte == b'\n'));
    }
    ends.min(text.len() / 16) + 1
}

/// The lines of a journal in a text; `before` other lines precede them.
fn read_lines<A: Allocator + Copy, B: Allocator + Copy>(
    alloc: B,
    decl: &Decl<A>,
    text: &[u8],
    before: u32,
) -> Result<Vec<Line, B>, TextFault>
    requires few { before ≤ 1 }
    requires short { length text.now ≤ LIMIT }
    ensures ok { IfOk result (λ v. AreLinesOf decl.now.declaration text.now v.items) }
    ensures one { IfOk result (λ v. (ls : List Line) → AreLinesOf decl.now.declaration text.now ls → ls ≡ v.items) }
    ensures err { IfErr result (λ e. IsLinesFault decl.now.declaration text.now before e) }
    ensures none { IfErr result (λ e. e ≢ faults.OutOfMemory → AreNoLines decl.now.declaration text.now) }
{
    let mut lines = Vec::with_capacity(alloc, lines_at_most(text))?;
    let mut recent = Recent::new();
    let mut rest = text;
    while !rest.is_empty() {
        match next_record(decl, &mut recent, rest) {
            Ok((line, length)) => {
                lines.push(line)?;
                rest = after_line(rest, length);
            }
            Err(stop) => return Err(fault_at(before + lines.len() as u32, stop.fault)),
        }
    }
    Ok(lines)
}

/// The fault of the line of version 3 with which a text begins, where it begins with no whole one.
fn kept_fault<A: Allocator + Copy>(decl: &Decl<A>, text: &[u8]) -> LineFault
    ensures { IsKeptLineFault decl.now.declaration text.now result }
{
    if begins_undeclared(decl, text, true) {
        LineFault::Undeclared
    } else {
        LineFault::Bad
    }
}

/// The lines of version 3 that a text has, each with its line feed; a head precedes them.
fn read_kept_lines<A: Allocator + Copy, B: Allocator + Copy>(
    alloc: B,
    decl: &Decl<A>,
    text: &[u8],
) -> Result<Vec<Line, B>, TextFault>
    requires short { length text.now ≤ LIMIT }
    ensures ok { IfOk result (λ v. AreKeptLines decl.now.declaration text.now v.items) }
    ensures one { IfOk result (λ v. (ls : List Line) → AreKeptLines decl.now.declaration text.now ls → ls ≡ v.items) }
    ensures err { IfErr result (λ e. IsKeptLinesFault decl.now.declaration text.now e) }
    ensures none { IfErr result (λ e. e ≢ faults.OutOfMemory → AreNoKeptLines decl.now.declaration text.now) }
{
    let (lines, rest) = whole_lines(alloc, decl, text, true)?;
    if rest.is_empty() {
        return Ok(lines);
    }
    Err(fault_at(1 + lines.len() as u32, kept_fault(decl, rest)))
}

/// The journal of a text of version 1 or 2.
fn read_plain<A: Allocator + Copy, B: Allocator + Copy>(
    alloc: B,
    decl: &Decl<A>,
    text: &[u8],
) -> Result<JournalText<B>, TextFault>
    requires short { length text.now ≤ LIMIT }
    requires other { (room : ℕ) (rest : List ℕ) → IsRoom room → EndsAt 10 rest → text.now ≢ kept_head room ++ rest }
    ensures ok { IfOk result (λ j. IsPlainText decl.now.declaration text.now j.room j.lines.items) }
    ensures one { IfOk result (λ j. (room : Option ℕ) (ls : List Line)
        → IsPlainText decl.now.declaration text.now room ls → (room ≡ j.room) × (ls ≡ j.lines.items)) }
    ensures err { IfErr result (λ e. IsPlainFault decl.now.declaration text.now e) }
    ensures none { IfErr result (λ e. e ≢ faults.OutOfMemory → IsNoPlainText decl.now.declaration text.now) }
{
    let Some(_) = strip(text, b"j") else {
        let lines = read_lines(alloc, decl, text, 0)?;
        return Ok(JournalText { room: None, lines });
    };
    let Ok((room, rest)) = read_head(text) else {
        return Err(TextFault::BadLine(0));
    };
    let lines = read_lines(alloc, decl, after_line(rest, 0), 1)?;
    Ok(JournalText {
        room: Some(room),
        lines,
    })
}

/// Reads the journal of a text. The first line of versions 2 and 3 is `journal 2 room` or `journal 3 room`, and the room, 1 to
/// [`MOST_LINES`](path_model::MOST_LINES); the lines follow, and in version 3 a line may begin with `+`. A text of version 1 has only
/// lines, and begins with no `j`. In versions 1 and 2 the line feed after the last line may be missing. In version 3 a line counts only
/// with its line feed; [`read_cut`](crate::read_cut) reads such a text whose end is torn. An empty text has no lines. Any reply may follow
/// any attempt.
///
/// Fails with `TooLong` exactly when the text has more than [`LIMIT`] bytes; else with `BadLine` or `Undeclared` for the first faulty
/// line, and in versions 2 and 3 the first line is line 0. `Undeclared` means that the line starts a well-formed name that no operation
/// has, and is right otherwise. Fails with `OutOfMemory` if allocation fails.
///
/// A few passes over the text; in versions 1 and 2 the list is allocated once.
pub fn read_journal<A: Allocator + Copy, B: Allocator + Copy>(
    alloc: B,
    decl: &Decl<A>,
    text: &[u8],
) -> Result<JournalText<B>, TextFault>
    ensures ok { IfOk result (λ j. IsJournalText decl.now.declaration text.now j.room j.lines.items) }
    // A text has one journal.
    ensures one { IfOk result (λ j. (room : Option ℕ) (ls : List Line)
        → IsJournalText decl.now.declaration text.now room ls → (room ≡ j.room) × (ls ≡ j.lines.items)) }
    ensures err { IfErr result (λ e. IsJournalFault decl.now.declaration text.now e) }
    ensures too_long { IsErrOf result faults.TooLong ↔ (134217728 < length text.now) }
    // Any error but TooLong and OutOfMemory: the text isn't a journal.
    ensures none { IfErr result (λ e. e ≢ faults.TooLong → e ≢ faults.OutOfMemory → IsNoJournalText decl.now.declaration text.now) }
{
    if text.len() > LIMIT {
        return Err(TextFault::TooLong);
    }
    let Ok((named, rest)) = read_kept_head(text) else {
        return read_plain(alloc, decl, text);
    };
    let Some(body) = strip(rest, b"\n") else {
        return Err(TextFault::BadLine(0));
    };
    let lines = read_kept_lines(alloc, decl, body)?;
    Ok(JournalText {
        room: Some(named),
        lines,
    })
}

/// Where a line of version 3 stops being the one of this number, counted from 0, of which the first is the head; `None` if it is one.
/// The line has no line feed.
fn kept_stop_in<A: Allocator + Copy>(decl: &Decl<A>, number: u32, line: &[u8]) -> Option<Stop> {
    if number == 0 {
        return None;
    }
    let behind = strip(line, b"+").unwrap_or(line);
    first_record(decl, behind).err()
}

/// Where the line of this number, counted from 0, of a journal's text stops being one; `None` if it is one, but for its line feed. The
/// first line may be a head. Three passes over the line, and one over the head; allocates nothing.
pub fn stop_in<A: Allocator + Copy>(
    decl: &Decl<A>,
    text: &[u8],
    number: u32,
    line: &[u8],
) -> Option<Stop> {
    if read_kept_head(text).is_ok() {
        kept_stop_in(decl, number, line)
    } else if number == 0 && line.starts_with(b"journal 3") {
        read_kept_head(line).err()
    } else if number == 0 && line.starts_with(b"j") {
        read_head(line).err()
    } else {
        first_record(decl, line).err()
    }
}
