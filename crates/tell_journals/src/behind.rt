//! The system that goes on behind the journal in files, and why there is none.

ghost use Rattle.std.specs.Prelude.{◌≡◌, ◌⊎◌, map, IfOk, IfErr};
ghost use Rattle.path_shelf.specs.Own.{own_state};
ghost use Rattle.tell_base.specs.Ends.{MayEnd};
ghost use Rattle.tell_base.specs.Own.{own_states};
ghost use Rattle.tell_base.specs.Refusals.{Under};
ghost use Rattle.tell_journals.specs.Behind.{AreSegmentsIn, IsBehind, NamesWrong, NamesWrongUnder, OfBehind};
ghost use Rattle.tell_journals.specs.Behind.{RefusesBehind, behind_status};

use crate::taking::{Place, take_segments};
use cmd_audit::{FilesFault, JournalFile, name_of, read_segments, tell_of_file};
use path_decl::Decl;
use path_model::Line;
use path_shelf::OwnDevice;
use path_system::Controller;
use std::alloc::{Allocator, Global};
use std::io::Write;
use tell_base::{Fault, Status, read_own, tell};

/// A system over the program's own devices that goes on behind a journal.
#[derive(Drop)]
pub struct Behind<A: Allocator + Copy = Global> {
    /// The lines of each segment of the journal.
    pub segments: Vec<Vec<Line, A>, A>,
    /// Last, because a controller keeps its declaration last.
    pub system: Controller<OwnDevice<A>, A>,
}

/// Why no system goes on behind files.
#[derive(Clone, Copy)]
pub enum BehindFault {
    /// They aren't the segments of a journal.
    Files(FilesFault),
    /// The lines before this one don't give its reply.
    WrongLine(Place),
    /// The declaration is refused, no system can have the room, or an allocation failed.
    Other(Fault<'static>),
}

/// A system of this declaration over these devices, which are the program's own, behind the segments in these files.
fn open_behind<A: Allocator + Copy>(
    alloc: A,
    decl: Decl<A>,
    devices: Vec<OwnDevice<A>, A>,
    room: u32,
    files: &[JournalFile<A>],
) -> Result<Behind<A>, BehindFault>
    requires { map own_state devices.items ≡ own_states decl.declaration }
    ensures ok { IfOk result (λ behind. IsBehind decl.declaration room (map (λ f. f.text.items) files.now) behind.system) }
    ensures segments { IfOk result (λ behind. AreSegmentsIn decl.declaration room (map (λ f. f.text.items) files.now)
        (map (λ lines. lines.items) behind.segments.items)) }
    ensures wrong { IfErr result (λ fault. NamesWrong decl.declaration room (map (λ f. f.text.items) files.now) fault) }
    ensures err { IfErr result (λ fault. MayEnd
        (OfBehind (λ out. ⊥) ⊥ decl.declaration room (map (λ f. f.text.items) files.now)) (behind_status fault)) }
{
    let segments = match read_segments(alloc, &decl, room, files) {
        Ok(segments) => segments,
        Err(fault) => {
            drop(decl);
            return Err(BehindFault::Files(fault));
        }
    };
    let mut system = match Controller::open(alloc, decl, devices, segments.room) {
        Ok(system) => system,
        Err((fault, _devices)) => return Err(BehindFault::Other(Fault::Open(fault))),
    };
    match take_segments(&mut system, &segments.lists) {
        None => Ok(Behind {
            segments: segments.lists,
            system,
        }),
        Some(place) => {
            drop(system);
            Err(BehindFault::WrongLine(place))
        }
    }
}

/// Reads a declaration, and opens a system over the program's own devices that goes on behind the journal in these files, one for each of
/// its segments, in order: what was in progress there is in progress, and the resources contain what they contained. The last segment is
/// its journal, whose lines take room. The room is the one that the first file names, else this one. Without files nothing was attempted.
///
/// Fails with `Other` if the declaration is refused; else with `Files` for the first file that isn't a journal, or that names another room
/// than those before it; else with `Other` if the room is out of range; else with `WrongLine` for the first line whose reply isn't owed by
/// those before it, as [`audit_files`](cmd_audit::audit_files) finds it. Want of memory may come at any point, as `Files` or `Other`.
///
/// The cost is that of [`read_segments`], of opening a system, and of a step for each line; the lines are kept meanwhile.
pub fn read_behind<A: Allocator + Copy>(
    alloc: A,
    declaration: &[u8],
    room: u32,
    files: &[JournalFile<A>],
) -> Result<Behind<A>, BehindFault>
    ensures ok { IfOk result (λ behind. Under declaration.now (λ d. IsBehind d room (map (λ f. f.text.items) files.now) behind.system)) }
    // The segments are those in the texts.
    ensures segments { IfOk result (λ behind. Under declaration.now (λ d. AreSegmentsIn d room (map (λ f. f.text.items) files.now)
        (map (λ lines. lines.items) behind.segments.items))) }
    // The line that is named as wrong is the first one that an audit of the files finds wrong.
    ensures wrong { IfErr result (λ fault. NamesWrongUnder declaration.now room (map (λ f. f.text.items) files.now) fault) }
    ensures err { IfErr result (λ fault.
        MayEnd (RefusesBehind declaration.now room (map (λ f. f.text.items) files.now)) (behind_status fault)) }
{
    match read_own(alloc, declaration) {
        Ok((decl, devices)) => open_behind(alloc, decl, devices, room, files),
        Err(fault) => Err(BehindFault::Other(fault)),
    }
}

/// Writes on `err`, in one line, why no system goes on behind these files. Returns the fault's status, or `StreamFailed` if that can't be
/// written.
pub fn tell_behind<A: Allocator + Copy, E: Write>(
    err: &mut E,
    files: &[JournalFile<A>],
    fault: BehindFault,
) -> Status
    ensures { (result ≡ behind_status fault) ⊎ (result ≡ Status.StreamFailed) }
{
    match fault {
        BehindFault::Files(fault) => tell_of_file(err, files, fault),
        BehindFault::WrongLine(place) => match writeln!(
            err,
            "journal: wrong line {} of {}",
            place.line,
            name_of(files, place.file)
        ) {
            Ok(()) => Status::Unsound,
            Err(_) => Status::StreamFailed,
        },
        BehindFault::Other(fault) => tell(err, fault),
    }
}
