//! A service that goes on behind a journal.

ghost use Rattle.std.specs.Prelude.{◌≡◌, IfOk, IfErr};
ghost use Rattle.path_service.specs.Taken.{IsResumeRefusal, IsResumed, fresh, room_in};
ghost use Rattle.path_service.specs.Services.{IsUnserved};

use crate::fault::{ResumeRefusal, ServiceFault};
use crate::lines::Lines;
use crate::service::{Service, controller_over};
use path_decl::Decl;
use path_journal::{Version, read_cut};
use path_read::read;
use std::alloc::Global;

/// The room that a journal's text names, or else this one.
fn room_of(version: Version, room: u32) -> u32
    ensures { result ≡ room_in version room }
{
    match version {
        Version::One => room,
        Version::Two(named) | Version::Three(named) => named,
    }
}

/// A service of this declaration, to which nothing has been attempted, and which keeps its lines or not.
fn service_over(alloc: Global, decl: Decl, room: u32, keeps: bool) -> Result<Service, ServiceFault>
    ensures ok { IfOk result (λ service. service ≡ fresh decl.declaration room keeps) }
    ensures err { IfErr result (IsUnserved room) }
{
    let controller = controller_over(alloc, decl, room)?;
    if !keeps {
        return Ok(Service {
            lines: None,
            order: None,
            controller,
        });
    }
    let lines = Lines::with_room(alloc, room)?;
    Ok(Service {
        lines: Some(lines),
        order: None,
        controller,
    })
}

impl Service {
    /// Opens a service that goes on behind a journal: under the declaration in the first text, behind the lines in the second, which is
    /// of any version and may end anywhere ([`read_cut`]). It is the one that opened with the room that the journal names, or else with
    /// `room`, and has answered so, and it keeps its lines or not. Also returns in how many bytes of the journal its lines stand; what
    /// follows is a torn end.
    ///
    /// Fails with `Declaration` as [`open`](Service::open) does; else with `Journal` as [`read_cut`] does; else with `BadRoom` if the room
    /// is outside its range; else with `WrongLine` for the first line, counted from 0, whose reply isn't owed by those before it, and the
    /// reply that is. `OutOfMemory` may come at any point, also as that of a text. The cost is that of opening, of reading the text, and of
    /// taking over each line.
    pub fn resume(
        alloc: Global,
        text: &[u8],
        room: u32,
        keeps: bool,
        journal: &[u8],
    ) -> Result<(Service, usize), ResumeRefusal>
        ensures ok { IfOk result (λ resumed. IsResumed text.now room keeps journal.now resumed.1 resumed.0) }
        ensures err { IfErr result (IsResumeRefusal text.now room keeps journal.now) }
    {
        let decl = match read(alloc, text) {
            Ok(decl) => decl,
            Err(fault) => return Err(ResumeRefusal::Declaration(fault)),
        };
        let cut = match read_cut(alloc, &decl, journal) {
            Ok(cut) => cut,
            Err(fault) => {
                drop(decl);
                return Err(ResumeRefusal::Journal(fault));
            }
        };
        let mut service = match service_over(alloc, decl, room_of(cut.version, room), keeps) {
            Ok(service) => service,
            Err(fault) => return Err(ResumeRefusal::from(fault)),
        };
        match service.take_lines(&cut.lines) {
            Ok(()) => Ok((service, cut.bytes)),
            Err((line, owed)) => Err(ResumeRefusal::WrongLine(line, owed)),
        }
    }
}
