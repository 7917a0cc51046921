//! A journal that stands in a file.

ghost use Rattle.std.specs.Prelude.{◌≡◌, ◌⊎◌, ◌↔◌, ◌≤◌, ◌+◌, ◌++◌, [], ◌∷◌, List, ℕ, true, false, map, not, length, take};
ghost use Rattle.std.specs.Prelude.{OnOk, OnErr, IfOk, IfErr, IsErrOf};
ghost use Rattle.path_model.specs.declared.journal.Line.{Line};
ghost use Rattle.path_model.specs.Rooms.{IsRoom};
ghost use Rattle.path_journal.specs.JournalTexts.{LineFits, kept_line, kept_text};
ghost use Rattle.path_store.specs.Devices.{LeavesOnly, IsUntouched};
ghost use Rattle.path_store.specs.Stores.{Finds, FindsSome, IsFile, IsStored, IsTornBy};
ghost use Rattle.path_store.specs.Faults.{BreaksBy, IsLeftAt, IsNoStore, IsOpenFault, IsPastLimit, IsRefusal, IsSame, IsStepFault};

use crate::device::Device;
use crate::fault::StoreFault;
use crate::recovery::recover;
use path_decl::Decl;
use path_journal::push_kept_line;
use path_lines::LIMIT;
use path_model::Line;
use std::alloc::{Allocator, Global};

/// A journal in a file that is open, behind its last line. A line is on the disk once a `sync` behind it has returned `Ok`: from then
/// on it is found after a crash at any moment. Lines behind it are found up to one of them.
#[derive(Drop)]
pub struct Store<D: Device + Drop, A: Allocator + Copy = Global> {
    device: D,
    room: u32,
    /// How many bytes its lines have, with the first line that names the room.
    length: usize,
    /// Whether all lines are on the disk.
    synced: bool,
    /// Whether a call failed.
    broken: bool,
    /// Where the next line is spelled.
    text: String<A>,
    /// What the lines are judged and spelled by. Last, because a declaration keeps its trees last.
    decl: Decl<A>,
}

/// A store, and what was found in its file.
#[derive(Drop)]
pub struct Opened<D: Device + Drop, A: Allocator + Copy = Global> {
    /// The lines that were found, in order.
    pub lines: Vec<Line, A>,
    /// How many bytes behind them a crash had left, which were cut off. Where it had left only a part of the first line, that was cut off,
    /// and written again.
    pub cut: usize,
    /// The store, behind the last line that was found.
    pub store: Store<D, A>,
}

impl<D: Device + Drop, A: Allocator + Copy> Store<D, A> {
    /// Opens a file, which is empty or was left by a store of the same declaration and room, whether it was closed or a crash came at any
    /// moment. Reads its lines, and cuts off what a crash has left behind the last one. It may crash itself. The store keeps the
    /// declaration: by it its lines were judged, and each further one is spelled.
    ///
    /// The room is 1 to [`MOST_LINES`](path_model::MOST_LINES); an empty file gets a first line that names it. An error gives the device
    /// back: `Text` where a line is broken that no crash leaves so, or where the file has more than [`LIMIT`] bytes; `OtherHead` where it
    /// isn't a store's of this room; `OutOfMemory`, or `Text` with that, for want of memory. Nothing was written then, at no moment of the
    /// call, whatever the file is. Else it is `Device`, with the device's fault: a store's file has the same lines as before, and any other
    /// is as it was.
    ///
    /// Reads the file once into memory, and syncs it once, or twice where its end is repaired or its first line is written.
    pub fn open(
        alloc: A,
        decl: Decl<A>,
        room: u32,
        device: D,
    ) -> Result<Opened<D, A>, (StoreFault, D)>
        requires { IsRoom room }
        // The lines are those of the file, and without an error they are all. What stood behind them was cut off, and counted.
        ensures found { (b : List ℕ) → D.holds device b → IfOk result (λ o. Finds decl.declaration room b o.lines.items) }
        ensures cut { (b : List ℕ) → D.holds device b → IfOk result (λ o. IsTornBy decl.declaration room b o.lines.items o.cut) }
        ensures fault { (b : List ℕ) → D.holds device b
            → IfErr result (λ e. IsOpenFault decl.declaration room b (D.fails_with e.1) e.0) }
        // A file that is refused isn't touched at any moment, whatever it is; nor is one without a store, whatever the error.
        ensures refused { IfErr result (λ e. IsRefusal e.0
            → IsUntouched D.holds D.may_leave D.moment D.left_since device e.1) }
        ensures other { (b : List ℕ) → D.holds device b → IsNoStore decl.declaration room b
            → IfErr result (λ e. IsUntouched D.holds D.may_leave D.moment D.left_since device e.1) }
        ensures new { IfOk result (λ o. (o.store.room ≡ room) × (o.store.broken ≡ false)) }
        ensures decl { IfOk result (λ o. o.store.decl.declaration ≡ decl.declaration) }
        // In what a store or a crash has left, all lines that were synced are found, and of the fresh ones those up to one of them.
        ensures lines { (synced fresh : List Line) → IsFile D.holds D.may_leave decl.declaration room device synced fresh
            → IfOk result (λ o. o.lines.items ≡ synced ++ fresh) }
        ensures stored { (synced fresh : List Line) → IsFile D.holds D.may_leave decl.declaration room device synced fresh
            → IfOk result (λ o. IsStored D.holds D.may_leave o.store (synced ++ fresh) []) }
        // A crash at any moment of the call leaves the same lines.
        ensures any_moment { (synced fresh : List Line) → IsFile D.holds D.may_leave decl.declaration room device synced fresh
            → IfOk result (λ o. LeavesOnly D.moment D.left_since device o.store.device (FindsSome decl.declaration room synced fresh)) }
        ensures any_moment_err { (synced fresh : List Line) → IsFile D.holds D.may_leave decl.declaration room device synced fresh
            → IfErr result (λ e. LeavesOnly D.moment D.left_since device e.1 (FindsSome decl.declaration room synced fresh)) }
    {
        let mut device = device;
        match recover(alloc, &decl, room, &mut device) {
            Ok(found) => {
                let store = Store {
                    device,
                    room,
                    length: found.length,
                    synced: true,
                    broken: false,
                    text: String::new(alloc),
                    decl,
                };
                Ok(Opened {
                    lines: found.lines,
                    cut: found.cut,
                    store,
                })
            }
            Err(fault) => Err((fault, device)),
        }
    }

    /// Fails with `Broken` if an earlier call failed.
    fn check_whole(&self) -> Result<(), StoreFault>
        ensures whole { OnOk result (self.now.broken ≡ false) }
        ensures broken { IfErr result (λ e. (e ≡ StoreFault.Broken) × (self.now.broken ≡ true)) }
    {
        if self.broken {
            return Err(StoreFault::Broken);
        }
        Ok(())
    }

    /// Writes a line behind the last one. It is on the disk only after a `sync`; until then a crash may leave the file with it or without.
    /// Lines that were written one after the other are found up to one of them.
    ///
    /// Fails with `TooLong` where the file would have more than [`LIMIT`] bytes, and with `OutOfMemory`; then nothing is written, and the
    /// store is as it was. Fails with `Device`, and the device's fault: then what stands behind the lines isn't known, and each further
    /// call fails with `Broken`, and does nothing. One write; no memory once lines have been written that are as long.
    pub fn append(&mut self, line: Line) -> Result<(), StoreFault>
        ensures was_broken { IsErrOf result StoreFault.Broken ↔ (self.old.broken ≡ true) }
        ensures fault { IfErr result (λ e. IsStepFault self.old.broken
            (IsPastLimit self.old.length (kept_line self.old.decl.declaration (not self.old.synced, line)))
            (D.fails_with self.new.device) e) }
        ensures left { IfErr result (λ e. IsLeftAt self.old self.new e) }
        ensures going_on { OnOk result (self.new.broken ≡ false) }
        ensures room { self.new.room ≡ self.old.room }
        ensures decl { self.new.decl.declaration ≡ self.old.decl.declaration }
        ensures length { OnOk result (self.new.length
            ≡ self.old.length + length (kept_line self.old.decl.declaration (not self.old.synced, line))) }
        ensures stored { (synced fresh : List Line) → IsStored D.holds D.may_leave self.old synced fresh
            → OnOk result (IsStored D.holds D.may_leave self.new synced (fresh ++ line ∷ [])) }
        // A crash at any moment of the call leaves the lines from before it, with the new one or without.
        ensures any_moment { (synced fresh : List Line) → IsStored D.holds D.may_leave self.old synced fresh
            → LeavesOnly D.moment D.left_since self.old.device self.new.device
            (FindsSome self.old.decl.declaration self.old.room synced (fresh ++ line ∷ [])) }
    {
        self.check_whole()?;
        self.text.clear();
        push_kept_line(&mut self.text, &self.decl, !self.synced, &line)?;
        let length = self.length.saturating_add(self.text.len());
        if length > LIMIT {
            return Err(StoreFault::TooLong);
        }
        self.broken = true;
        self.device.append(self.text.as_bytes())?;
        self.broken = false;
        self.length = length;
        self.synced = false;
        Ok(())
    }

    /// Waits until all lines are on the disk. At `Ok` each of them is found after a crash at any moment from now on.
    ///
    /// Fails with `Device` if the device failed; then each further call fails with `Broken`, and does nothing: open the file again.
    pub fn sync(&mut self) -> Result<(), StoreFault>
        ensures was_broken { IsErrOf result StoreFault.Broken ↔ (self.old.broken ≡ true) }
        ensures fault { IfErr result (λ e. IsStepFault self.old.broken ⊥ (D.fails_with self.new.device) e) }
        ensures left { IfErr result (λ e. IsLeftAt self.old self.new e) }
        ensures going_on { OnOk result (self.new.broken ≡ false) }
        ensures room { self.new.room ≡ self.old.room }
        ensures decl { self.new.decl.declaration ≡ self.old.decl.declaration }
        ensures stored { (synced fresh : List Line) → IsStored D.holds D.may_leave self.old synced fresh
            → OnOk result (IsStored D.holds D.may_leave self.new (synced ++ fresh) []) }
        ensures any_moment { (synced fresh : List Line) → IsStored D.holds D.may_leave self.old synced fresh
            → LeavesOnly D.moment D.left_since self.old.device self.new.device
            (FindsSome self.old.decl.declaration self.old.room synced fresh) }
    {
        self.check_whole()?;
        self.broken = true;
        self.device.sync()?;
        self.broken = false;
        self.synced = true;
        Ok(())
    }

    /// Writes lines behind the last one, each as `append` does, and then syncs once.
    ///
    /// Fails as `append` and `sync` do; the lines before the one that failed are written. After `TooLong` and `OutOfMemory` the store goes
    /// on behind these, which aren't synced yet; after `Device` each further call fails with `Broken`.
    pub fn commit(&mut self, lines: &[Line]) -> Result<(), StoreFault>
        ensures was_broken { IsErrOf result StoreFault.Broken ↔ (self.old.broken ≡ true) }
        ensures fault { IfErr result (λ e. IsStepFault self.old.broken
            (IsPastLimit self.old.length (kept_text self.old.decl.declaration (map (λ line. (true, line)) lines.now)))
            (D.fails_with self.new.device) e) }
        // A fault of the device breaks the store. After any other it goes on behind the lines that were written.
        ensures left { IfErr result (λ e. BreaksBy self.old.broken self.new.broken e) }
        ensures written { (synced fresh : List Line) → IsStored D.holds D.may_leave self.old synced fresh
            → IfErr result (λ e. IsRefusal e → (n : ℕ) × (n ≤ length lines.now)
            × IsStored D.holds D.may_leave self.new synced (fresh ++ take n lines.now)) }
        ensures going_on { OnOk result (self.new.broken ≡ false) }
        ensures room { self.new.room ≡ self.old.room }
        ensures decl { self.new.decl.declaration ≡ self.old.decl.declaration }
        ensures stored { (synced fresh : List Line) → IsStored D.holds D.may_leave self.old synced fresh
            → OnOk result (IsStored D.holds D.may_leave self.new (synced ++ (fresh ++ lines.now)) []) }
        // A crash at any moment of the call leaves all that were synced, and of the others those up to one of them.
        ensures any_moment { (synced fresh : List Line) → IsStored D.holds D.may_leave self.old synced fresh
            → LeavesOnly D.moment D.left_since self.old.device self.new.device
            (FindsSome self.old.decl.declaration self.old.room synced (fresh ++ lines.now)) }
    {
        for line in lines {
            self.append(*line)?;
        }
        self.sync()
    }

    /// Gives the device back.
    pub fn into_device(self) -> D
        ensures { result ≡ self.device }
    {
        self.device
    }
}
