//! A journal in words: its first wrong line, and the reply that was owed to it.

ghost use Rattle.std.specs.Prelude.{◌≡◌, ◌<◌, ◌++◌, [], length, slice_get, is_some, Some, Ok, IfOk, IfErr, OnOk};
ghost use Rattle.std.specs.String.{string_bytes};
ghost use Rattle.path_model.specs.declared.journal.Line.{Line};
ghost use Rattle.path_model.specs.Declarations.{paths_of};
ghost use Rattle.path_model.specs.Rooms.{IsBadRoom, IsRoom};
ghost use Rattle.path_audit.specs.Judged.{IsExamined};
ghost use Rattle.tell_base.specs.Ends.{Ends, MayEnd, RefusesText};
ghost use Rattle.tell_base.specs.Own as own;
ghost use Rattle.tell_base.specs.Refusals.{IsBadJournal, LacksRoom, Under};
ghost use Rattle.tell_base.specs.Statuses.{status_of};
ghost use Rattle.cmd_explain.specs.Judgements.{Begins, IsJudgedText, JudgementEnds, owed_lines, sound_line};

use crate::faults::{FileNames, Subject, tell_place};
use crate::held::{Lines, push_held};
use crate::room::room_hint;
use crate::standing::{Moment, push_standing};
use crate::why::push_why;
use path_audit::{Auditor, Examined, Wrong};
use path_decl::Decl;
use path_journal::read_journal;
use path_lines::{push_line, push_reply};
use path_model::{JournalText, Line, OutOfMemory, Reply};
use path_read::read;
use std::alloc::Allocator;
use std::io::Write;
use tell_base::{Fault, Status, own_openings, put_ending};
use tell_places::TextKind;

/// Appends the wrong line with its number in the text, where a head is line 1, and the reply that was owed to it.
fn push_owed<A: Allocator + Copy>(
    text: &mut String<A>,
    decl: &Decl<A>,
    head: bool,
    line: &Line,
    wrong: Wrong,
) -> Result<(), OutOfMemory>
    ensures { OnOk result (string_bytes text.new
        ≡ string_bytes text.old ++ owed_lines decl.now.declaration head wrong.line line.now wrong.owed) }
{
    let before = if head { 2 } else { 1 };
    let number = u64::from(wrong.line) + before;
    write!(text, "line {number} is wrong: ")?;
    push_line(text, decl, line)?;
    text.push_str("\n   owed: ")?;
    push_reply(text, wrong.owed)?;
    text.push_str("\n")?;
    Ok(())
}

/// Replays the lines of a journal, in a room of so many lines if its text names none.
pub fn examined<A: Allocator + Copy>(
    alloc: A,
    decl: &Decl<A>,
    room: u32,
    lines: &[Line],
) -> Result<Examined<A>, Fault<'static>>
    ensures ok { IfOk result (λ x. IsExamined x decl.now.declaration (own.own_openings decl.now.declaration) [] lines.now) }
    ensures room { IfOk result (λ x. x.room ≡ room) }
    ensures good_room { OnOk result (IsRoom room) }
    ensures err { IfErr result (λ fault. RefusesText (IsBadRoom room) ⊥ (status_of fault)) }
{
    let openings = own_openings(alloc, decl)?;
    match Auditor::open(alloc, decl, room, &openings) {
        Ok(auditor) => {
            let examined = auditor.examine(decl, lines)?;
            Ok(examined)
        }
        Err(fault) => Err(Fault::Audit(fault)),
    }
}

/// How each resource stands behind the lines that were replayed, and who waits: the right lines, and then, if `owed` is there, the wrong
/// one with the reply that was owed, of which is said before that why it was.
fn behind<A: Allocator + Copy>(
    alloc: A,
    decl: &Decl<A>,
    examined: &Examined<A>,
    right: &[Line],
    owed: Option<Line>,
) -> Result<String<A>, OutOfMemory>
    requires { examined.now.replay.present.standing.paths ≡ paths_of decl.now.declaration }
{
    let mut text = String::new(alloc);
    let live = examined.live(alloc)?;
    let moment = Moment {
        decl,
        gate: examined.gate(),
        live: &live,
        lines: u32::try_from(right.len()).unwrap_or(u32::MAX),
        roomless: 0,
        is_behind: false,
    };
    if let Some(line) = owed {
        push_why(alloc, &mut text, &moment, &line)?;
    }
    push_standing(alloc, &mut text, &moment)?;
    let lines = Lines {
        front: right,
        last: owed,
    };
    push_held(alloc, &mut text, decl, lines, &live)?;
    Ok(text)
}

/// The line with the reply that was owed to it, if more is to be said of that than its room.
fn line_owed(line: Line, owed: Reply) -> Option<Line> {
    match owed {
        Reply::NoRoom => None,
        reply => Some(Line { reply, ..line }),
    }
}

/// What is said of a journal, and the status with which that ends.
#[derive(Drop)]
struct Judged<A: Allocator + Copy> {
    text: String<A>,
    status: Status,
}

/// A text, if it was made, with this status.
fn told<A: Allocator + Copy>(
    text: Result<String<A>, OutOfMemory>,
    status: Status,
) -> Result<Judged<A>, Fault<'static>>
    ensures ok { IfOk result (λ told. (text ≡ Ok told.text) × (told.status ≡ status)) }
    ensures err { IfErr result (λ fault. fault ≡ Fault.OutOfMemory) }
{
    Ok(Judged {
        text: text?,
        status,
    })
}

/// What is said of a journal whose lines are all right.
fn sound<A: Allocator + Copy>(
    alloc: A,
    decl: &Decl<A>,
    examined: &Examined<A>,
    lines: &[Line],
) -> Result<String<A>, OutOfMemory>
    requires { examined.now.replay.present.standing.paths ≡ paths_of decl.now.declaration }
    ensures { IfOk result (λ text. Begins (sound_line (length lines.now)) (string_bytes text)) }
{
    let mut text = String::new(alloc);
    let count = lines.len();
    write!(text, "sound: {count} lines\n")?;
    let rest = behind(alloc, decl, examined, lines, None)?;
    text.push_str(&rest)?;
    Ok(text)
}

/// What is said of a journal with this first wrong line.
fn unsound<A: Allocator + Copy>(
    alloc: A,
    decl: &Decl<A>,
    examined: &Examined<A>,
    journal: &JournalText<A>,
    wrong: Wrong,
) -> Result<String<A>, OutOfMemory>
    requires paths { examined.now.replay.present.standing.paths ≡ paths_of decl.now.declaration }
    requires within { wrong.line < length journal.now.lines.items }
    ensures { IfOk result (λ text. (l : Line) → slice_get journal.now.lines.items wrong.line ≡ Some l
        → Begins (owed_lines decl.now.declaration (is_some journal.now.room) wrong.line l wrong.owed) (string_bytes text)) }
{
    let line = journal.lines[wrong.line as usize];
    let mut text = String::new(alloc);
    push_owed(&mut text, decl, journal.room.is_some(), &line, wrong)?;
    let hint = room_hint(alloc, decl, &journal.lines, wrong)?;
    text.push_str(&hint)?;
    let owed = line_owed(line, wrong.owed);
    let right = &journal.lines[..wrong.line as usize];
    let rest = behind(alloc, decl, examined, right, owed)?;
    text.push_str(&rest)?;
    Ok(text)
}

/// What is said of the journal in a text.
fn judge_text<A: Allocator + Copy>(
    alloc: A,
    decl: &Decl<A>,
    room: u32,
    text: &[u8],
) -> Result<Judged<A>, Fault<'static>>
    ensures ok { IfOk result (λ told. IsJudgedText decl.now.declaration room text.now told.status (string_bytes told.text)) }
    ensures err { IfErr result (λ fault.
        RefusesText (LacksRoom decl.now.declaration room text.now) (IsBadJournal decl.now.declaration text.now) (status_of fault)) }
{
    let journal = match read_journal(alloc, decl, text) {
        Ok(journal) => journal,
        Err(fault) => return Err(Fault::Text(fault)),
    };
    let room = journal.room.unwrap_or(room);
    let examined = examined(alloc, decl, room, &journal.lines)?;
    match examined.wrong() {
        None => told(sound(alloc, decl, &examined, &journal.lines), Status::Done),
        Some(wrong) => told(
            unsound(alloc, decl, &examined, &journal, wrong),
            Status::Unsound,
        ),
    }
}

/// What is said of the journal in a text, under the declaration in another.
fn judge_under<A: Allocator + Copy>(
    alloc: A,
    declaration: &[u8],
    room: u32,
    text: &[u8],
) -> Result<Judged<A>, Fault<'static>>
    ensures ok { IfOk result (λ told. Under declaration.now (λ d. IsJudgedText d room text.now told.status (string_bytes told.text))) }
    ensures err { IfErr result (λ fault. MayEnd (JudgementEnds declaration.now room text.now) (status_of fault)) }
{
    match read(alloc, declaration) {
        Ok(decl) => judge_text(alloc, &decl, room, text),
        Err(fault) => Err(Fault::Declaration(fault)),
    }
}

/// Reads a declaration and the text of a journal, replays it over the program's own devices as
/// [`audit_bytes`](cmd_audit::audit_bytes) does, and writes whether it is sound: either how many lines it has, or the first wrong
/// line with its number in the text, counted from 1, the reply that was owed to its attempt, and why that was so. Then stands, for each
/// resource, what can start, what is blocked, what is live, and whether nothing of it can ever be admitted again, and at last who waits
/// for whom, if all that is live waits; behind a wrong line as if it had got the owed reply. Where that reply is `no room`, one line says
/// in which room the line would have had a place.
///
/// `Unsound`: a line is wrong. `DeclarationRefused`: the declaration is refused. `TextRefused`: the text isn't a journal, or is too long.
/// `CommandRefused`: the text names no room, and `room` is out of range. In these last three cases, which count in this order, nothing
/// was written. `StreamFailed`: a writer failed, and what it took is unknown. `NoMemory`: allocation failed, and a front of all this was
/// written. A fault is told on `err`: that of a text with the name of its file, its line and column, the token, what could stand there, and
/// the likely cause.
///
/// The cost is that of an audit, and of a look at each path for each operation; where the owed reply is `no room`, that of five audits
/// more at most.
pub fn explain_journal<A: Allocator + Copy, O: Write, E: Write>(
    alloc: A,
    declaration: &[u8],
    room: u32,
    journal: &[u8],
    names: FileNames<'_>,
    out: &mut O,
    err: &mut E,
) -> Status
    // The text is a journal: that it is honest was written, or its first wrong line with the reply that was owed.
    ensures { Ends (JudgementEnds declaration.now room journal.now) (O.contents out.old) (O.contents out.new) result }
{
    match judge_under(alloc, declaration, room, journal) {
        Ok(told) => put_ending(out, err, told.text.as_bytes(), told.status),
        Err(fault) => {
            let subject = Subject::Text(TextKind::Journal, journal);
            tell_place(alloc, names, declaration, subject, fault, err)
        }
    }
}
