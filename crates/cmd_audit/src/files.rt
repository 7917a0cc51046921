//! The texts of a journal in segments, a file for each.

ghost use Rattle.std.specs.Prelude.{◌≡◌, ◌⊎◌, ◌↔◌, IfOk, IfErr, IsTrue, map};
ghost use Rattle.std.specs.Option.{unwrap_or};
ghost use Rattle.tell_base.specs.Ends.{RefusesText};
ghost use Rattle.cmd_audit.specs.Files.{fault_status};
ghost use Rattle.cmd_audit.specs.Segments.{AreNoSegments, AreSegmentTexts, LackRoom};

use path_audit::AuditFault;
use path_decl::Decl;
use path_journal::read_journal;
use path_lines::TextFault;
use path_model::Line;
use std::alloc::{Allocator, Global};
use std::io::Write;
use tell_base::{Fault, Status, tell};

/// A file with a segment of a journal.
#[derive(Drop)]
pub struct JournalFile<A: Allocator + Copy = Global> {
    /// Its name, as messages say it.
    pub name: String<A>,
    /// Its text.
    pub text: Vec<u8, A>,
}

/// The segments of a journal.
#[derive(Drop)]
pub struct Segments<A: Allocator + Copy = Global> {
    /// The room of each.
    pub room: u32,
    /// The lines of each, in order.
    pub lists: Vec<Vec<Line, A>, A>,
}

/// Why files aren't the segments of a journal, or can't be audited.
#[derive(Clone, Copy, Debug, PartialEq, Eq)]
pub enum FilesFault {
    /// The text of this file isn't a journal.
    Text(usize, TextFault),
    /// The text of this file names another room than those before it.
    OtherRoom(usize),
    /// The room is out of range.
    Audit(AuditFault),
    /// An allocation failed.
    OutOfMemory,
}

/// Whether a text that names this room, or none, may be a segment where each has that room.
fn is_same_room(named: Option<u32>, room: u32) -> bool
    ensures { IsTrue result ↔ (unwrap_or named room ≡ room) }
{
    named.unwrap_or(room) == room
}

/// Reads the segments of these files, in order. The room is the one that the first text names, else `given`.
///
/// Fails with `Text` for the first file whose text isn't a journal, and with `OtherRoom` if it names another room than those before it;
/// with `OutOfMemory`, also as that of a text, if allocation fails. The cost is that of [`read_journal`] for all texts.
pub fn read_segments<A: Allocator + Copy>(
    alloc: A,
    decl: &Decl<A>,
    given: u32,
    files: &[JournalFile<A>],
) -> Result<Segments<A>, FilesFault>
    ensures ok { IfOk result (λ segments. AreSegmentTexts decl.now.declaration given (map (λ f. f.text.items) files.now)
        segments.room (map (λ lines. lines.items) segments.lists.items)) }
    ensures err { IfErr result (λ fault.
        RefusesText (LackRoom decl.now.declaration given (map (λ f. f.text.items) files.now))
        (AreNoSegments decl.now.declaration given (map (λ f. f.text.items) files.now)) (fault_status fault)) }
{
    let mut room = given;
    let mut lists = Vec::new(alloc);
    for (i, file) in files.iter().enumerate() {
        let journal = match read_journal(alloc, decl, &file.text) {
            Ok(journal) => journal,
            Err(fault) => return Err(FilesFault::Text(i, fault)),
        };
        if i == 0 {
            room = journal.room.unwrap_or(given);
        } else if !is_same_room(journal.room, room) {
            return Err(FilesFault::OtherRoom(i));
        }
        if lists.push(journal.lines).is_err() {
            return Err(FilesFault::OutOfMemory);
        }
    }
    Ok(Segments { room, lists })
}

/// Writes on `err`, in one line, which of these files is at fault, and why. Returns the fault's status, or `StreamFailed` if that can't be
/// written.
pub fn tell_of_file<A: Allocator + Copy, E: Write>(
    err: &mut E,
    files: &[JournalFile<A>],
    fault: FilesFault,
) -> Status
    ensures { (result ≡ fault_status fault) ⊎ (result ≡ Status.StreamFailed) }
{
    match fault {
        FilesFault::Text(file, fault) => match write!(err, "{}: ", name_of(files, file)) {
            Ok(()) => tell(err, Fault::Text(fault)),
            Err(_) => Status::StreamFailed,
        },
        FilesFault::OtherRoom(file) => match writeln!(
            err,
            "{}: text: other room",
            name_of(files, file)
        ) {
            Ok(()) => Status::TextRefused,
            Err(_) => Status::StreamFailed,
        },
        FilesFault::Audit(fault) => tell(err, Fault::Audit(fault)),
        FilesFault::OutOfMemory => tell(err, Fault::OutOfMemory),
    }
}

/// The name of a file; none past the last.
pub fn name_of<A: Allocator + Copy>(files: &[JournalFile<A>], file: usize) -> &str {
    match files.get(file) {
        Some(file) => file.name.as_str(),
        None => "",
    }
}
