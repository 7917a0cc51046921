//! Follows whose lines stand in a file.

ghost use Rattle.std.specs.Prelude.{◌≡◌, ◌≢◌, ◌⊎◌, ◌++◌, ◌∷◌, [], None, true, false, List, ℕ, IfNone, IfOk, IfErr, OnOk, OnErr};
ghost use Rattle.std.specs.Io.KnownBytes.{Keeps};
ghost use Rattle.path_model.specs.declared.journal.Line.{Line};
ghost use Rattle.path_model.specs.Rooms.{IsRoom};
ghost use Rattle.path_decl.specs.Text.{IsDeclarationText};
ghost use Rattle.path_store.specs.Devices.{IsUntouched, LeavesOnly};
ghost use Rattle.path_store.specs.Stores.{Finds, FindsSome, IsFile, IsStored};
ghost use Rattle.tell_base.specs.Refusals.{IsNoDeclaration};
ghost use Rattle.cmd_follow.specs.Follows.{LacksRoom};
ghost use Rattle.cmd_follow.specs.Stored.{AnsweredBehind, EndsUnopened, HasKept, IsOwnRoom, IsToldUnopened, IsUnroomed, KeepsFile};
ghost use Rattle.cmd_follow.specs.Stored.{FailsLine, KeepsLines, LeavesBehind, Outlasts, WroteBehind};
ghost use Rattle.cmd_follow.specs.Inner.Taken.{GoesOn};

use crate::follow::follow_kept;
use crate::keeper::{KeepFault, Keeper};
use path_journal::version_in;
use path_model::{Line, is_room};
use path_read::read;
use path_read::theorems::each_text_declares_once;
use path_store::{Device, DeviceFault, Opened, Store, StoreFault};
use path_system::{Controller, OpenFault, TakeFault};
use std::alloc::Allocator;
use std::io::{Read, Write};
use tell_base::{Fault, Status, read_own, tell};

/// More bytes than the first line of a journal has, its line feed included.
const MOST_HEAD: usize = 64;

/// When the lines of a follow are written to the disk.
#[derive(Clone, Copy, Debug, PartialEq, Eq)]
pub enum Syncing {
    /// Each before its answer.
    Each,
    /// All of them at the end of the input.
    Close,
    /// When the operating system does it.
    Never,
}

/// A store that keeps the lines of a follow.
#[derive(Drop)]
pub struct StoreKeeper<D: Device + Drop, A: Allocator + Copy> {
    syncing: Syncing,
    /// Why a line isn't kept.
    fault: Option<StoreFault>,
    /// Last, because a store keeps its declaration last.
    store: Store<D, A>,
}

impl<D: Device + Drop, A: Allocator + Copy> StoreKeeper<D, A> {
    /// Writes a line, and syncs if each line is to be.
    fn write(&mut self, line: Line) -> Result<(), StoreFault>
        ensures kept { (first : StoreKeeper D A) (found ls : List Line)
            → KeepsLines D.holds D.may_leave D.moment D.left_since first self.old found ls
            → OnOk result (KeepsLines D.holds D.may_leave D.moment D.left_since first self.new found (ls ++ line ∷ [])) }
        ensures left { (first : StoreKeeper D A) (found ls : List Line)
            → KeepsLines D.holds D.may_leave D.moment D.left_since first self.old found ls
            → OnErr result (Outlasts D.may_leave D.moment D.left_since first.store.decl.declaration first.store.room first.syncing
            first.store.device self.new.store.device found ls (line ∷ [])) }
    {
        self.store.append(line)?;
        let Syncing::Each = self.syncing else {
            return Ok(());
        };
        self.store.sync()
    }

    /// Syncs at the end of a follow, unless each line is on the disk, or the operating system is to do it.
    fn close(&mut self) -> Result<(), StoreFault>
        ensures kept { (first : StoreKeeper D A) (found ls : List Line)
            → KeepsLines D.holds D.may_leave D.moment D.left_since first self.old found ls
            → OnOk result (HasKept D.holds D.may_leave first.store.decl.declaration first.store.room self.new.store.device first.syncing
            ls) }
        ensures left { (first : StoreKeeper D A) (found ls : List Line)
            → KeepsLines D.holds D.may_leave D.moment D.left_since first self.old found ls
            → Outlasts D.may_leave D.moment D.left_since first.store.decl.declaration first.store.room first.syncing
            first.store.device self.new.store.device found ls [] }
    {
        let Syncing::Close = self.syncing else {
            return Ok(());
        };
        self.store.sync()
    }
}

/// How a fault of a store ends a follow.
fn keep_fault(fault: StoreFault) -> KeepFault {
    match fault {
        StoreFault::OutOfMemory | StoreFault::Device(DeviceFault::OutOfMemory) =>
            KeepFault::OutOfMemory,
        _ => KeepFault::Unkept,
    }
}

impl<D: Device + Drop, A: Allocator + Copy> Keeper for StoreKeeper<D, A> {
    ghost keeps = { λ first now found ls. KeepsLines D.holds D.may_leave D.moment D.left_since first now found ls };

    ghost left = { λ first now found ls more. FailsLine D.may_leave D.moment D.left_since first now found ls more };

    fn keep(&mut self, line: Line) -> Result<(), KeepFault> {
        match self.write(line) {
            Ok(()) => Ok(()),
            Err(fault) => {
                self.fault = Some(fault);
                Err(keep_fault(fault))
            }
        }
    }
}

/// Takes these lines over. The first that isn't taken is returned, counted from 0, and why.
fn go_on<D: path_shelf::Device, A: Allocator + Copy>(
    system: &mut Controller<D, A>,
    lines: &[Line],
) -> Option<(usize, TakeFault)>
    requires { system.old.opened ≡ None }
    ensures { IfNone result (GoesOn system.old system.new × (system.new.journal ≡ system.old.journal ++ lines.now)) }
{
    for (n, line) in lines.iter().enumerate() {
        if let Err(fault) = system.take_over(*line) {
            return Some((n, fault));
        }
    }
    None
}

/// Tells in one line on `err` why a store can't be opened, and returns the status.
fn tell_store<E: Write>(err: &mut E, fault: StoreFault) -> Status
    ensures { EndsUnopened result }
{
    let status = match fault {
        StoreFault::Text(fault) => return tell(err, Fault::Text(fault)),
        StoreFault::OutOfMemory | StoreFault::Device(DeviceFault::OutOfMemory) => {
            return tell(err, Fault::OutOfMemory);
        }
        StoreFault::OtherHead => Status::TextRefused,
        StoreFault::Device(_) | StoreFault::Broken | StoreFault::TooLong => Status::StreamFailed,
    };
    match writeln!(err, "journal: {fault}") {
        Ok(()) => status,
        Err(_) => Status::StreamFailed,
    }
}

/// Tells in one line on `err` why a line isn't kept, and returns the status.
fn tell_unkept<E: Write>(err: &mut E, fault: StoreFault) -> Status
    ensures { (result ≡ Status.NoMemory) ⊎ (result ≡ Status.StreamFailed) }
{
    match keep_fault(fault) {
        KeepFault::OutOfMemory => tell(err, Fault::OutOfMemory),
        KeepFault::Unkept => {
            drop(writeln!(err, "journal: {fault}"));
            Status::StreamFailed
        }
    }
}

/// Tells on `err` what was found in a file.
fn tell_found<E: Write>(err: &mut E, lines: usize, cut: usize) -> Result<(), Status>
    ensures { IfErr result (λ status. status ≡ Status.StreamFailed) }
{
    let word = if lines == 1 { "line" } else { "lines" };
    let written = if cut == 0 {
        writeln!(err, "journal: {lines} {word} found")
    } else {
        writeln!(
            err,
            "journal: {lines} {word} found, and {cut} bytes of a torn end cut off"
        )
    };
    match written {
        Ok(()) => Ok(()),
        Err(_) => Err(Status::StreamFailed),
    }
}

/// The room that the file names, or else this one.
fn own_room<D: Device, A: Allocator + Copy>(
    alloc: A,
    device: &mut D,
    room: u32,
) -> Result<u32, StoreFault>
    ensures room { IfOk result (λ own. (own ≡ room) ⊎ IsRoom own) }
    ensures named { IfOk result (λ own. IsOwnRoom (D.holds device.old) room own) }
    ensures untouched { IsUntouched D.holds D.may_leave D.moment D.left_since device.old device.new }
{
    let front = device.front(alloc, MOST_HEAD)?;
    Ok(version_in(&front).room().unwrap_or(room))
}

/// Why the store of a file isn't opened.
#[derive(Clone, Copy)]
enum Unopened {
    /// The file names no room, and no journal can have the one that was given for it.
    BadRoom,
    /// The store has this fault.
    Store(StoreFault),
}

/// Opens the store of a file, under the declaration in a text. Its room is the one that the file names, or else this one. An error gives
/// the device back.
fn open_store<D: Device + Drop, A: Allocator + Copy>(
    alloc: A,
    declaration: &[u8],
    room: u32,
    device: D,
) -> Result<(u32, Opened<D, A>), (Unopened, D)>
    ensures ok { IfOk result (λ p. IsRoom p.0 × (p.0 ≡ p.1.store.room) × IsOwnRoom (D.holds device) room p.0
        × IsDeclarationText declaration.now p.1.store.decl.declaration
        × ((b : List ℕ) → D.holds device b → Finds p.1.store.decl.declaration p.0 b p.1.lines.items)) }
    ensures stored { (synced fresh : List Line) → IfOk result (λ p.
        IsFile D.holds D.may_leave p.1.store.decl.declaration p.0 device synced fresh → (p.1.lines.items ≡ synced ++ fresh)
        × IsStored D.holds D.may_leave p.1.store (synced ++ fresh) []
        × LeavesOnly D.moment D.left_since device p.1.store.device (FindsSome p.1.store.decl.declaration p.0 synced fresh)) }
    ensures bad_room { IfErr result (λ p. IsUnroomed room p.0) }
    ensures unopened { IfErr result (λ p. KeepsFile D.holds D.may_leave D.moment D.left_since device p.1 room declaration.now) }
{
    let mut device = device;
    let room = match own_room(alloc, &mut device, room) {
        Ok(room) => room,
        Err(fault) => return Err((Unopened::Store(fault), device)),
    };
    if !is_room(room) {
        return Err((Unopened::BadRoom, device));
    }
    let decl = match read(alloc, declaration) {
        Ok(decl) => decl,
        // It was read before, so it is a declaration.
        Err(_) => return Err((Unopened::Store(StoreFault::OutOfMemory), device)),
    };
    match Store::open(alloc, decl, room, device) {
        Ok(opened) => Ok((room, opened)),
        Err((fault, device)) => Err((Unopened::Store(fault), device)),
    }
}

/// Tells on `err` the first line of a file that the lines before it don't give, and returns the status.
fn tell_wrong<E: Write>(err: &mut E, line: usize) -> Status
    ensures { (result ≡ Status.Unsound) ⊎ (result ≡ Status.StreamFailed) }
{
    match writeln!(err, "journal: wrong line {line}") {
        Ok(()) => Status::Unsound,
        Err(_) => Status::StreamFailed,
    }
}

/// Tells in one line on `err` why the store of a file can't be opened, and returns the status.
fn tell_unopened<E: Write>(err: &mut E, unopened: Unopened) -> Status
    ensures { IsToldUnopened unopened result }
{
    match unopened {
        Unopened::BadRoom => tell(err, Fault::Open(OpenFault::BadRoom)),
        Unopened::Store(fault) => tell_store(err, fault),
    }
}

/// Tells on `err` why a line wasn't kept, unless a follow has told it, and returns the status.
fn tell_once<E: Write>(err: &mut E, fault: StoreFault) -> Status
    ensures { (result ≡ Status.NoMemory) ⊎ (result ≡ Status.StreamFailed) }
{
    match keep_fault(fault) {
        KeepFault::OutOfMemory => Status::NoMemory,
        KeepFault::Unkept => tell_unkept(err, fault),
    }
}

/// The status of a follow that has ended so, and whose lines aren't kept: where a stream failed, that is what is told.
fn worse(status: Status, unkept: Status) -> Status
    ensures failed { status ≡ Status.StreamFailed → result ≡ Status.StreamFailed }
    ensures either { (result ≡ unkept) ⊎ (result ≡ Status.StreamFailed) }
{
    if status == Status::StreamFailed {
        return status;
    }
    unkept
}

/// Ends a follow whose lines are kept: syncs them if that is left to its end, and tells why a line wasn't kept. Gives the device back.
fn closed<D: Device + Drop, A: Allocator + Copy, E: Write>(
    keeper: StoreKeeper<D, A>,
    status: Status,
    err: &mut E,
) -> (Status, D)
    ensures status { (result.0 ≡ status) ⊎ (result.0 ≡ Status.NoMemory) ⊎ (result.0 ≡ Status.StreamFailed) }
    ensures failed { status ≡ Status.StreamFailed → result.0 ≡ Status.StreamFailed }
    ensures kept { (first : StoreKeeper D A) (found ls : List Line)
        → KeepsLines D.holds D.may_leave D.moment D.left_since first keeper found ls
        → (result.0 ≢ Status.NoMemory) → (result.0 ≢ Status.StreamFailed)
        → HasKept D.holds D.may_leave first.store.decl.declaration first.store.room result.1 first.syncing ls }
    ensures left { (first : StoreKeeper D A) (found ls more : List Line)
        → ((more ≡ []) × KeepsLines D.holds D.may_leave D.moment D.left_since first keeper found ls)
        ⊎ FailsLine D.may_leave D.moment D.left_since first keeper found ls more
        → Outlasts D.may_leave D.moment D.left_since first.store.decl.declaration first.store.room first.syncing
        first.store.device result.1 found ls more }
{
    let mut keeper = keeper;
    match keeper.fault {
        Some(fault) => {
            let told = worse(status, tell_once(err, fault));
            (told, keeper.store.into_device())
        }
        None => match keeper.close() {
            Ok(()) => (status, keeper.store.into_device()),
            Err(fault) => {
                let told = worse(status, tell_unkept(err, fault));
                (told, keeper.store.into_device())
            }
        },
    }
}

/// Answers the lines of the input as [`follow_bytes`](crate::follow_bytes) does, and keeps each line of the journal in a file, before its
/// answer is written. If the file has lines, it goes on behind them: what is in progress there is in progress. With `Syncing::Each` each
/// line is also synced before its answer is written, so whoever was answered finds it after a crash at any moment; with `Syncing::Close`
/// all are synced at the end of the input, and with `Syncing::Never` when the operating system does it. What was found is told on `err` in
/// one line. The device comes back.
///
/// The room is the one that the file names; this one is that of a file that is begun.
///
/// `TextRefused`: also if the file isn't a journal of version 3, with the fault of [`read_cut`](path_journal::read_cut); it is unchanged
/// then. `CommandRefused`: the file is to be begun, and the room is 0 or above [`MOST_LINES`](path_model::MOST_LINES). `Unsound`: a line
/// of the file has a reply that the lines before it don't owe. `StreamFailed`: also if the file can't be read or written, or would be
/// longer than one that can be opened; what wasn't kept isn't answered. The other statuses are those of
/// [`follow_bytes`](crate::follow_bytes).
pub fn follow_stored<D: Device + Drop, A: Allocator + Copy, R: Read, O: Write, E: Write>(
    alloc: A,
    declaration: &[u8],
    room: u32,
    syncing: Syncing,
    device: D,
    input: &mut R,
    out: &mut O,
    err: &mut E,
) -> (Status, D)
    // Each line of the input was an attempt or asked for the report, and its answer was written, and nothing else. The system went on
    // behind the lines of the file, and the file has the lines of its journal, and no others. Unless that was left to the operating system,
    // they are on the disk.
    ensures done { result.0 ≡ Status.Done → WroteBehind D.holds D.may_leave device result.1 syncing (R.remaining input.old)
        (O.contents out.old) (O.contents out.new) declaration.now false }
    // The file was refused and nothing written, or a line of the input was refused.
    ensures refused { result.0 ≡ Status.TextRefused → Keeps (O.contents out.old) (O.contents out.new)
        ⊎ WroteBehind D.holds D.may_leave device result.1 syncing (R.remaining input.old)
        (O.contents out.old) (O.contents out.new) declaration.now true }
    // The text isn't a declaration, and nothing was written.
    ensures undeclared { result.0 ≡ Status.DeclarationRefused
        → Keeps (O.contents out.old) (O.contents out.new) × IsNoDeclaration declaration.now × (result.1 ≡ device) }
    // No journal can have the room; nothing was written.
    ensures bad_room { result.0 ≡ Status.CommandRefused
        → Keeps (O.contents out.old) (O.contents out.new) × LacksRoom declaration.now room }
    // The answers to the first lines were written, and nothing else. Where each is synced before its answer, a crash leaves what was
    // answered.
    ensures memory { result.0 ≡ Status.NoMemory → Keeps (O.contents out.old) (O.contents out.new)
        ⊎ AnsweredBehind D.holds D.may_leave device result.1 syncing (R.remaining input.old)
        (O.contents out.old) (O.contents out.new) declaration.now room }
    // However it ends, a crash at any moment of it leaves all lines of the file that were synced, and behind them the others and those of
    // the input that were taken, up to one of them.
    ensures any_moment { IsUntouched D.holds D.may_leave D.moment D.left_since device result.1
        ⊎ LeavesBehind D.holds D.may_leave D.moment D.left_since device result.1 (R.remaining input.old) declaration.now room }
{
    // So the store and the system have the same declaration.
    each_text_declares_once();
    let (decl, devices) = match read_own(alloc, declaration) {
        Ok(own) => own,
        Err(fault) => return (tell(err, fault), device),
    };
    let (room, opened) = match open_store(alloc, declaration, room, device) {
        Ok(opened) => opened,
        Err((unopened, device)) => return (tell_unopened(err, unopened), device),
    };
    if let Err(status) = tell_found(err, opened.lines.len(), opened.cut) {
        return (status, opened.store.into_device());
    }
    let mut system = match Controller::open(alloc, decl, devices, room) {
        Ok(system) => system,
        Err((fault, _devices)) => {
            return (tell(err, Fault::Open(fault)), opened.store.into_device());
        }
    };
    if let Some((line, _fault)) = go_on(&mut system, &opened.lines) {
        return (tell_wrong(err, line), opened.store.into_device());
    }
    drop(opened.lines);
    let mut keeper = StoreKeeper {
        syncing,
        fault: None,
        store: opened.store,
    };
    let status = follow_kept(alloc, system, &mut keeper, input, out, err);
    closed(keeper, status, err)
}
