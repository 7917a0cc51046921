//! Whether the text of a journal is sound, or the texts of its segments, a file for each.

ghost use Rattle.std.specs.Prelude.{◌≡◌, ◌≢◌, ℕ, IfOk, IfErr, map, option_map};
ghost use Rattle.std.specs.String.{string_bytes};
ghost use Rattle.path_audit.specs.declared.journals.Verdict.{Verdict};
ghost use Rattle.tell_base.specs.Ends.{Ends, RefusesText, Writes};
ghost use Rattle.tell_base.specs.Refusals.{IsBadJournal, LacksRoom};
ghost use Rattle.tell_base.specs.Statuses.{status_of};
ghost use Rattle.cmd_audit.specs.Audits.{AuditEnd, AuditEnds, IsAuditOf, IsSoundText, IsTextFaultOf, IsWrongText};
ghost use Rattle.cmd_audit.specs.Audits.{verdict_line, verdict_status};
ghost use Rattle.cmd_audit.specs.Files.{fault_status};
ghost use Rattle.cmd_audit.specs.Segments.{AreAuditOf, AreNoSegments, LackRoom, SegmentTextsEnd};

use crate::files::{FilesFault, JournalFile, read_segments, tell_of_file};
use path_audit::{SegmentsVerdict, Verdict, audit, audit_segments};
use path_decl::Decl;
use path_journal::read_journal;
use path_model::OutOfMemory;
use path_read::read;
use std::alloc::Allocator;
use std::io::Write;
use tell_base::{Fault, Status, own_openings, put_ending, tell};

/// The verdict on the journal in a text, over the program's own devices. The room is the one that the text names, else `room`.
///
/// Fails with `Fault::Text` and the fault of [`read_journal`] if the text isn't a journal, with `AuditFault::BadRoom` if it names no
/// room and `room` is out of range, or else for want of memory. The cost is that of [`audit_to`].
pub fn verdict_on<A: Allocator + Copy>(
    alloc: A,
    decl: &Decl<A>,
    room: u32,
    text: &[u8],
) -> Result<Verdict, Fault<'static>>
    ensures ok { IfOk result (λ verdict. IsAuditOf decl.now.declaration room text.now verdict) }
    // There is only one verdict.
    ensures one { IfOk result (λ verdict. (other : Verdict) → IsAuditOf decl.now.declaration room text.now other → other ≡ verdict) }
    ensures err { IfErr result (λ fault.
        RefusesText (LacksRoom decl.now.declaration room text.now) (IsBadJournal decl.now.declaration text.now) (status_of fault)) }
    ensures text { IfErr result (IsTextFaultOf decl.now.declaration text.now) }
{
    let journal = match read_journal(alloc, decl, text) {
        Ok(journal) => journal,
        Err(fault) => return Err(Fault::Text(fault)),
    };
    let openings = own_openings(alloc, decl)?;
    let room = journal.room.unwrap_or(room);
    match audit(alloc, decl, room, &openings, &journal.lines) {
        Ok(verdict) => Ok(verdict),
        Err(fault) => Err(Fault::Audit(fault)),
    }
}

/// The verdict on the segments of these files.
fn verdict_on_files<A: Allocator + Copy>(
    alloc: A,
    decl: &Decl<A>,
    given: u32,
    files: &[JournalFile<A>],
) -> Result<SegmentsVerdict, FilesFault>
    ensures ok { IfOk result (AreAuditOf decl.now.declaration given (map (λ f. f.text.items) files.now)) }
    ensures err { IfErr result (λ fault.
        RefusesText (LackRoom decl.now.declaration given (map (λ f. f.text.items) files.now))
        (AreNoSegments decl.now.declaration given (map (λ f. f.text.items) files.now)) (fault_status fault)) }
{
    let segments = read_segments(alloc, decl, given, files)?;
    let Ok(openings) = own_openings(alloc, decl) else {
        return Err(FilesFault::OutOfMemory);
    };
    match audit_segments(alloc, decl, segments.room, &openings, &segments.lists) {
        Ok(found) => Ok(found),
        Err(fault) => Err(FilesFault::Audit(fault)),
    }
}

/// The line of a verdict; that of a wrong line says in which file it is, if there are several.
fn line_of<A: Allocator + Copy>(
    alloc: A,
    verdict: Verdict,
    file: Option<&str>,
) -> Result<String<A>, OutOfMemory>
    ensures { IfOk result (λ line. string_bytes line ≡ verdict_line (option_map (λ name. name.now) file.entry) verdict) }
{
    let line = match (verdict, file) {
        (Verdict::Sound, _) => format!(in alloc; "sound\n")?,
        (Verdict::WrongLine(number), None) => format!(in alloc; "wrong line {number}\n")?,
        (Verdict::WrongLine(number), Some(name)) => {
            format!(in alloc; "wrong line {number} of {name}\n")?
        }
    };
    Ok(line)
}

/// Writes the line of a verdict.
fn tell_verdict<A: Allocator + Copy, O: Write, E: Write>(
    alloc: A,
    verdict: Verdict,
    file: Option<&str>,
    out: &mut O,
    err: &mut E,
) -> Status
    ensures { Ends (Writes (verdict_status verdict) (verdict_line (option_map (λ name. name.now) file.entry) verdict))
        (O.contents out.old) (O.contents out.new) result }
{
    let Ok(line) = line_of(alloc, verdict, file) else {
        return tell(err, Fault::OutOfMemory);
    };
    let status = match verdict {
        Verdict::Sound => Status::Done,
        Verdict::WrongLine(_) => Status::Unsound,
    };
    put_ending(out, err, line.as_bytes(), status)
}

/// Reads the text of a journal, replays it, and writes `sound` or `wrong line N`, where N, counted from 0, is the first line whose
/// reply wasn't owed by the lines before it or is `no room`. The devices are the program's own: each cell and tally contains 0 at
/// first, each queue is empty. If the text names the journal's room (version 2), that counts instead of `room`, which is 1 to
/// [`MOST_LINES`](path_model::MOST_LINES). Writes nothing before the whole text has been read.
///
/// `Unsound`: a line is wrong. `TextRefused`: the text isn't a journal, or is too long. `CommandRefused`: the text names no room, and
/// `room` is out of range. In these last two cases nothing was written. `StreamFailed`: a writer failed, and what it took is unknown.
/// `NoMemory`: allocation failed, and a front of the line was written. A fault is one line on `err`.
///
/// The cost is that of the text, and for each line what it cost the system: a look at the paths of its operation for a start or a
/// finish, and a look-up by number for a use.
pub fn audit_to<A: Allocator + Copy, O: Write, E: Write>(
    alloc: A,
    decl: Decl<A>,
    room: u32,
    journal: &[u8],
    out: &mut O,
    err: &mut E,
) -> Status
    // The text is a journal, and its verdict was written: `sound`, or its first wrong line. Or it isn't one, or no journal can have the
    // room, and nothing was written.
    ensures ends { Ends (AuditEnd room journal.now decl.declaration) (O.contents out.old) (O.contents out.new) result }
    // An honest journal never ends as wrong, and no other ends as sound.
    ensures only_wrong { IsSoundText decl.declaration room journal.now → result ≢ Status.Unsound }
    ensures only_sound { (n : ℕ) → IsWrongText decl.declaration room journal.now n → result ≢ Status.Done }
{
    let verdict = verdict_on(alloc, &decl, room, journal);
    drop(decl);
    match verdict {
        Ok(verdict) => tell_verdict(alloc, verdict, None, out, err),
        Err(fault) => tell(err, fault),
    }
}

/// Reads a declaration, and writes whether the text of a journal is sound under it, as [`audit_to`] does and at its cost.
///
/// `DeclarationRefused`: the declaration is refused, which counts first, and nothing was written. The other statuses are those of
/// [`audit_to`].
pub fn audit_bytes<A: Allocator + Copy, O: Write, E: Write>(
    alloc: A,
    declaration: &[u8],
    room: u32,
    journal: &[u8],
    out: &mut O,
    err: &mut E,
) -> Status
    // As the table of audits has it.
    ensures { Ends (AuditEnds declaration.now room journal.now) (O.contents out.old) (O.contents out.new) result }
{
    match read(alloc, declaration) {
        Ok(decl) => audit_to(alloc, decl, room, journal, out, err),
        Err(fault) => tell(err, Fault::Declaration(fault)),
    }
}

/// Reads the texts of a journal's segments, one in each file, in order, replays them, and writes `sound`, or `wrong line N of FILE`,
/// where N, counted from 0 in that file, is the first line whose reply wasn't owed by the lines of the files before it and by those
/// before it in its own. The devices are the program's own, as for [`audit_to`]. The room is that of each segment: the
/// one that the first text names, else `room`, 1 to [`MOST_LINES`](path_model::MOST_LINES). Writes nothing before all texts have been read.
///
/// `Unsound`: a line is wrong. `TextRefused`: a text isn't a journal, or is too long, or names another room than the first.
/// `CommandRefused`: the first text names no room, and `room` is out of range. `DeclarationRefused`: the declaration is refused, which
/// counts first. In these last three cases nothing was written. `StreamFailed`: a writer failed, and what it took is unknown.
/// `NoMemory`: allocation failed, and a front of the line was written. A fault is one line on `err`, with the file's name.
///
/// The cost is that of [`audit_to`] for all texts together; the lines of all are kept, 56 bytes each.
pub fn audit_files<A: Allocator + Copy, O: Write, E: Write>(
    alloc: A,
    declaration: &[u8],
    room: u32,
    files: &[JournalFile<A>],
    out: &mut O,
    err: &mut E,
) -> Status
    // As the table of audits of segments has it.
    ensures { Ends (SegmentTextsEnd declaration.now room (map (λ f. string_bytes f.name) files.now) (map (λ f. f.text.items) files.now))
        (O.contents out.old) (O.contents out.new) result }
{
    match read(alloc, declaration) {
        Ok(decl) => match verdict_on_files(alloc, &decl, room, files) {
            Ok(SegmentsVerdict::Sound) => tell_verdict(alloc, Verdict::Sound, None, out, err),
            Ok(SegmentsVerdict::WrongLine { segment, line }) => {
                let name = files[segment].name.as_str();
                tell_verdict(alloc, Verdict::WrongLine(line), Some(name), out, err)
            }
            Err(fault) => tell_of_file(err, files, fault),
        },
        Err(fault) => tell(err, Fault::Declaration(fault)),
    }
}
