//! From a reader of attempts to the answers, one after the other.

ghost use Rattle.std.specs.Prelude.{◌≡◌, ◌≢◌, ◌⊎◌, true, false, List, [], None, map, IfOk, IfErr, OnOk};
ghost use Rattle.std.specs.Io.KnownBytes.{Keeps};
ghost use Rattle.path_model.specs.declared.journal.Line.{Line};
ghost use Rattle.path_model.specs.Rooms.{IsBadRoom};
ghost use Rattle.path_shelf.specs.States.{MayFail, laws_of};
ghost use Rattle.path_shelf.specs.Shelves.{declared_laws};
ghost use Rattle.tell_base.specs.Refusals.{IsNoDeclaration};
ghost use Rattle.tell_base.specs.Writes.{AppendsSome};
ghost use Rattle.tell_base.specs.Refusals.{IsUnopened};
ghost use Rattle.cmd_follow.specs.Follows.{AnswersFirst, GaveAll, GaveFirst, IsFollowOf, LacksRoom, WroteAll, WroteFirst};
ghost use Rattle.cmd_follow.specs.Inner.Taken.{Leaves, Stopped, StoppedSent, StoppedTook, Through};
ghost use Rattle.cmd_follow.specs.Stops.{IsEnding};

use crate::follower::Follower;
use crate::input::read_block;
use crate::keeper::{Forgetful, Keeper};
use crate::stop::{Stop, tell_stop};
use path_decl::Decl;
use path_shelf::Device;
use path_system::Controller;
use std::alloc::Allocator;
use std::io::{Read, Write};
use tell_base::{Fault, Status, read_own, tell};

/// How many bytes are read at once, at most.
const BLOCK: usize = 65_536;

/// Takes all lines of the input, and returns whether one was refused.
fn followed<D: Device, A: Allocator + Copy, K: Keeper, R: Read, O: Write, E: Write>(
    alloc: A,
    follower: &mut Follower<D, A>,
    keeper: &mut K,
    input: &mut R,
    out: &mut O,
    err: &mut E,
) -> Result<(), Stop>
    requires first { follower.old.system.opened ≡ None }
    requires whole { follower.old.system.earlier ≡ [] }
    ensures ok { IfOk result (λ _. GaveAll (R.remaining input.old) (λ text. Through (MayFail D.state) follower.old.system text
        follower.old.refused follower.new.refused follower.new.system.journal (O.contents out.old) (O.contents out.new))) }
    ensures kept { (first : K) (found : List Line) → K.keeps first keeper.old found follower.old.system.journal
        → OnOk result (K.keeps first keeper.new found follower.new.system.journal) }
    ensures stopped { IfErr result (λ stop. GaveFirst (R.remaining input.old) (λ text. Stopped (MayFail D.state) follower.old.system text
        follower.old.refused (O.contents out.old) (O.contents out.new) stop
        (Leaves K.keeps K.left keeper.old keeper.new follower.old.system.journal))) }
{
    let mut block = vec![in alloc; 0u8; BLOCK]?;
    let mut pending = Vec::new(alloc);
    for _ in 0..u64::MAX {
        let count = read_block(input, &mut block)?;
        if count == 0 {
            // The last line may lack its line feed.
            if pending.is_empty() {
                return Ok(());
            }
            return follower.take_line(alloc, keeper, &pending, out, err);
        }
        follower.take_block(alloc, keeper, &block[..count], &mut pending, out, err)?;
    }
    Err(Stop::Unreadable)
}

/// Answers the lines of the input as [`follow_to`] does, of a system that may have lines, and hands each line that its journal gets to a
/// keeper, before the answer is written. What the keeper doesn't keep isn't answered: then nothing is told, and it ends with
/// `StreamFailed`, or with `NoMemory`. The other statuses are those of [`follow_to`].
pub fn follow_kept<D: Device, A: Allocator + Copy, K: Keeper, R: Read, O: Write, E: Write>(
    alloc: A,
    system: Controller<D, A>,
    keeper: &mut K,
    input: &mut R,
    out: &mut O,
    err: &mut E,
) -> Status
    requires first { system.opened ≡ None }
    requires whole { system.earlier ≡ [] }
    // Done: the answers to all lines were written, and the keeper has kept all lines of the journal.
    ensures done { result ≡ Status.Done → (end : List Line)
        × GaveAll (R.remaining input.old) (λ text.
        Through (MayFail D.state) system text false false end (O.contents out.old) (O.contents out.new))
        × ((first : K) (found : List Line) → K.keeps first keeper.old found system.journal → K.keeps first keeper.new found end) }
    ensures refused { result ≡ Status.TextRefused → (end : List Line)
        × GaveAll (R.remaining input.old) (λ text.
        Through (MayFail D.state) system text false true end (O.contents out.old) (O.contents out.new))
        × ((first : K) (found : List Line) → K.keeps first keeper.old found system.journal → K.keeps first keeper.new found end) }
    // Unless a stream failed, the answers to the first lines were written, and the keeper leaves what was answered, perhaps with what was
    // taken then.
    ensures answered { result ≢ Status.StreamFailed → GaveFirst (R.remaining input.old) (λ text. StoppedSent (MayFail D.state)
        system text (O.contents out.old) (O.contents out.new) (Leaves K.keeps K.left keeper.old keeper.new system.journal)) }
    // However it ends, the keeper leaves what was taken.
    ensures taken { GaveFirst (R.remaining input.old) (λ text. StoppedTook (MayFail D.state)
        system text (Leaves K.keeps K.left keeper.old keeper.new system.journal)) }
    ensures statuses { IsEnding result }
{
    let mut follower = Follower::new(alloc, system);
    let ended = followed(alloc, &mut follower, keeper, input, out, err);
    let refused = follower.refused;
    drop(follower);
    match ended {
        Ok(()) if refused => Status::TextRefused,
        Ok(()) => Status::Done,
        Err(stop) => tell_stop(err, stop),
    }
}

/// Answers the lines of the input, one after the other: an attempt with its reply in the line of [`trace_to`](cmd_trace::trace_to), and
/// the line `?` with the report of the system as it is then ([`write_report`](tell_base::write_report)). Each answer is written and
/// flushed before the next line is looked at, and never waits for more of the input than its own line. A line that is neither is told on
/// `err`, with its number counted from 0, and below that where it stops being an attempt, with its number from 1; and it is skipped. The
/// last line may lack its line feed.
///
/// `Done`: the input ended. `TextRefused`: it ended, and lines were skipped. `CommandRefused`: the room is 0 or above
/// [`MOST_LINES`](path_model::MOST_LINES), or the devices aren't those of the declaration, one for each resource and of its law;
/// nothing was read or written. `StreamFailed`: the input, or a line of it, of more than [`LIMIT`](path_lines::LIMIT) bytes,
/// can't be read, or a writer failed, and what it took is unknown. `NoMemory`: allocation failed, and the answers to the first lines
/// were written. Any other fault is one line on `err`; but if nobody reads `out` any more, nothing is told.
///
/// The journal has room for `room` lines; an attempt without room gets the reply `no room`. An attempt costs what it costs the system,
/// and a pass over its line; memory doesn't grow with the input, only with its longest line.
pub fn follow_to<D: Device, A: Allocator + Copy, R: Read, O: Write, E: Write>(
    alloc: A,
    decl: Decl<A>,
    devices: Vec<D, A>,
    room: u32,
    input: &mut R,
    out: &mut O,
    err: &mut E,
) -> Status
    // Each line of the input was an attempt or asked for the report, and its answer was written, and nothing else.
    ensures done { result ≡ Status.Done
        → GaveAll (R.remaining input.old) (λ text. AppendsSome (O.contents out.old) (O.contents out.new)
        (IsFollowOf decl.declaration (map D.state devices.items) (MayFail D.state) room false text)) }
    // A line of the input was refused, and the answers to the others were written, and nothing else.
    ensures refused { result ≡ Status.TextRefused
        → GaveAll (R.remaining input.old) (λ text. AppendsSome (O.contents out.old) (O.contents out.new)
        (IsFollowOf decl.declaration (map D.state devices.items) (MayFail D.state) room true text)) }
    // A system can have the room, and the devices have the declared laws, unless it ends as refused or without memory.
    ensures room { IsBadRoom room → (result ≢ Status.Done) × (result ≢ Status.TextRefused) }
    ensures laws { (result ≡ Status.Done) ⊎ (result ≡ Status.TextRefused)
        → laws_of (map D.state devices.items) ≡ declared_laws decl.declaration }
    // No system can be opened over the devices with the room; nothing was written.
    ensures unopened { result ≡ Status.CommandRefused → Keeps (O.contents out.old) (O.contents out.new)
        × IsUnopened decl.declaration (map D.state devices.items) room }
    // The answers to the first lines were written, and nothing else.
    ensures memory { result ≡ Status.NoMemory
        → GaveFirst (R.remaining input.old) (λ text. AppendsSome (O.contents out.old) (O.contents out.new)
        (AnswersFirst decl.declaration (map D.state devices.items) (MayFail D.state) room text)) }
    ensures statuses { (result ≢ Status.DeclarationRefused) × (result ≢ Status.Unsound) }
{
    match Controller::open(alloc, decl, devices, room) {
        Ok(system) => follow_kept(alloc, system, &mut Forgetful, input, out, err),
        Err((fault, _)) => tell(err, Fault::Open(fault)),
    }
}

/// Reads a declaration, and answers the lines of the input as [`follow_to`] does and at its cost. The devices are
/// [`OwnDevice`](path_shelf::OwnDevice)s: each cell and tally contains 0 at first, each queue is empty, and none fails.
///
/// `DeclarationRefused`: the declaration is refused, and nothing was read or written. The other statuses are those of [`follow_to`].
pub fn follow_bytes<A: Allocator + Copy, R: Read, O: Write, E: Write>(
    alloc: A,
    declaration: &[u8],
    room: u32,
    input: &mut R,
    out: &mut O,
    err: &mut E,
) -> Status
    // Each line of the input was an attempt or asked for the report, and its answer was written, and nothing else.
    ensures done { result ≡ Status.Done
        → WroteAll (R.remaining input.old) (O.contents out.old) (O.contents out.new) declaration.now room false }
    // A line of the input was refused, and the answers to the others were written, and nothing else.
    ensures refused { result ≡ Status.TextRefused
        → WroteAll (R.remaining input.old) (O.contents out.old) (O.contents out.new) declaration.now room true }
    // The text isn't a declaration, and nothing was written.
    ensures undeclared { result ≡ Status.DeclarationRefused
        → Keeps (O.contents out.old) (O.contents out.new) × IsNoDeclaration declaration.now }
    // No system can have the room; nothing was written.
    ensures bad_room { result ≡ Status.CommandRefused
        → Keeps (O.contents out.old) (O.contents out.new) × LacksRoom declaration.now room }
    ensures room { IsBadRoom room → (result ≢ Status.Done) × (result ≢ Status.TextRefused) }
    // The answers to the first lines were written, and nothing else.
    ensures memory { result ≡ Status.NoMemory → WroteFirst (R.remaining input.old) (O.contents out.old) (O.contents out.new)
        declaration.now room }
    ensures statuses { result ≢ Status.Unsound }
{
    match read_own(alloc, declaration) {
        Ok((decl, devices)) => follow_to(alloc, decl, devices, room, input, out, err),
        Err(fault) => tell(err, fault),
    }
}
