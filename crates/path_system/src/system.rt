//! One system over devices, with one journal: starts, uses and finishes, step by step.

ghost use Rattle.std.specs.Prelude.{◌≡◌, ◌↔◌, ◌<◌, ◌≤◌, ◌∷◌, ◌++◌, List, [], length, vec_capacity};
ghost use Rattle.std.specs.Prelude.{map, slice_get, IsOk, IsErr, IfOk, IfErr, OnOk, OnErr};
ghost use Rattle.path_model.specs.declared.journal.Reply.TheVariants as replies;
ghost use Rattle.path_model.specs.Asked.{resource_asked};
ghost use Rattle.path_model.specs.Contents.{contents_after};
ghost use Rattle.path_model.specs.Journals.{live, with_line};
ghost use Rattle.path_model.specs.Rooms.{IsRoom};
ghost use Rattle.path_model.specs.Segments.{OwedBehind, joined};
ghost use Rattle.path_shelf.specs.States.{MayFail, State, laws_of};
ghost use Rattle.path_shelf.specs.Shelves.{declared_laws};
ghost use Rattle.path_system.specs.Accounts.{account_of, all_lines, rotated, with_device, HasFailed, IsSystem, StayBut};
ghost use Rattle.path_system.specs.Faults.{IsOpenFault, IsReplaceFault, MayReplace};
ghost use Rattle.path_system.specs.Reports.{IsReport};

use crate::controller::{Controller, is_no_room};
use crate::fault::{OpenFault, ReplaceFault};
use crate::report::Report;
use crate::unopened::open_fault;
use path_decl::Decl;
use path_model::{Attempt, Line, OutOfMemory, Reply, ResId};
use path_shelf::Device;
use std::alloc::{Allocator, Global};
use std::marker::Model;
use std::mem::replace;

/// A system: a declaration with its gate, its ledger and its devices, and the journal of all attempts.
///
/// Contracts see the declaration, the room, what each device contained when the system took it, the lines that each rotation gave
/// away, the journal since then, and how often each device has failed. All else follows from these: what may start, what is live, and
/// what each device contains. Dropping a system drops each device.
#[derive(Drop)]
pub struct System<D: Device, A: Allocator + Copy = Global> {
    pub(crate) journal: Vec<Line, A>,
    /// Last, because a controller keeps its declaration last.
    pub(crate) controller: Controller<D, A>,
}

impl<D: Device, A: Allocator + Copy> Model for System<D, A> {
    ghost use Rattle.std.specs.Prelude.{vec_capacity};
    ghost use Rattle.std.specs.Coded.{codes};
    ghost use Rattle.path_decl.specs.Stored.{declaration_code};
    ghost use Rattle.path_system.specs.Accounts.{Account};
    ghost use Rattle.path_system.specs.Inner.Journaled.{IsJournaled};

    ghost Value = { Account };

    ghost coded = { Prim.hlevel (codes, declaration_code) };

    ghost view = { λ s. s.controller };

    ghost invariant = { λ s. IsJournaled s.controller s.journal.items (vec_capacity s.journal) };
}

impl<D: Device, A: Allocator + Copy> System<D, A> {
    /// Opens a system of this declaration over these devices, in which nothing has been attempted. Its journal has room for
    /// `room` lines, 1 to [`MOST_LINES`](path_model::MOST_LINES).
    ///
    /// Fails with `BadRoom` exactly when the room is outside that range, and else with `WrongCount` or `WrongDevice` as
    /// [`Shelf::open`](path_shelf::Shelf::open) does, and else with `OutOfMemory`. On failure the devices come back in
    /// their order, and the declaration is dropped. All memory of the system is allocated now: no later step, rotation, replacement or
    /// closing allocates. The cost is that of [`Gate::open`](path_gate::Gate::open), of a look at each device and at each number
    /// in it, and of memory for `room` lines and activations.
    pub fn open(
        alloc: A,
        decl: Decl<A>,
        devices: Vec<D, A>,
        room: u32,
    ) -> Result<System<D, A>, (OpenFault, Vec<D, A>)>
        ensures ok { IfOk result (λ system. system ≡ account_of decl.declaration room (map D.state devices.items)) }
        ensures laws { OnOk result (laws_of (map D.state devices.items) ≡ declared_laws decl.declaration) }
        ensures fault { IfErr result (λ refusal. IsOpenFault room (map D.state devices.items) decl.declaration refusal.0) }
        ensures good_room { OnOk result (IsRoom room) }
        ensures system { IfOk result (λ system. IsSystem system) }
        ensures back { IfErr result (λ refusal. refusal.1.items ≡ devices.items) }
    {
        if let Some(fault) = open_fault(&decl, &devices, room) {
            drop(decl);
            return Err((fault, devices));
        }
        let Ok(journal) = Vec::with_capacity(alloc, room as usize) else {
            drop(decl);
            return Err((OpenFault::OutOfMemory, devices));
        };
        match Controller::over(alloc, decl, devices, room) {
            Ok(controller) => Ok(System {
                journal,
                controller,
            }),
            Err(devices) => Err((OpenFault::OutOfMemory, devices)),
        }
    }

    /// Makes one attempt of a worker and returns the reply that the journal owes to it. The journal gains the line of the attempt
    /// and this reply, but none for `NoRoom`. After rotations the earlier lines count, too, but for the room: only the lines of the
    /// journal take places, and what is live. A start is `NoRoom`, too, once 4,294,967,295 starts were admitted.
    ///
    /// A use asks the device of the activation's resource. The reply is `DeviceFailed` only if that device's law would have served
    /// the use, and the device's count of failures rose by one in this call or is at `u64::MAX`. The other counts don't change.
    ///
    /// Allocates nothing. The cost is that of the gate for a start or a finish, and for a use or a finish a search among the live
    /// activations; a use also costs the device's own call.
    #[inline(always)]
    pub fn step(&mut self, worker: u32, attempt: Attempt) -> Reply
        ensures owed { OwedBehind self.old.declaration self.old.room self.old.openings (joined self.old.earlier) self.old.journal
            worker attempt result }
        ensures journal { self.new ≡ record self.old {
          journal = with_line self.old.journal worker attempt result;
          failures = self.new.failures;
        } }
        ensures failures { StayBut (resource_asked self.old.declaration (all_lines self.old) attempt result)
            self.old.failures self.new.failures }
        ensures failed { (result ≡ replies.DeviceFailed)
            → HasFailed (resource_asked self.old.declaration (all_lines self.old) attempt result) self.old.failures self.new.failures }
        // If no device of the type ever fails, the reply is never `DeviceFailed`.
        ensures may_fail { (result ≡ replies.DeviceFailed) → MayFail D.state }
        ensures system { IsSystem self.new }
    {
        let reply = self.controller.step(worker, attempt);
        if !is_no_room(reply) {
            self.journal.push_reserved(Line {
                worker,
                attempt,
                reply,
            });
        }
        reply
    }

    /// Gives the lines so far away, and goes on with an empty journal, whose room counts anew. What is live stays live, and the devices
    /// stay. `places` is the memory of the new journal, and what it contains is dropped. The list that is given away serves for the next
    /// rotation, too.
    ///
    /// Fails exactly if `places` has capacity for fewer lines than the room: it then comes back, empty, and the system is as it was.
    /// Allocates nothing, and takes constant time.
    pub fn rotate(&mut self, places: Vec<Line, A>) -> Result<Vec<Line, A>, Vec<Line, A>>
        ensures small { IsErr result ↔ (vec_capacity places < self.old.room) }
        ensures lines { IfOk result (λ lines. lines.items ≡ self.old.journal) }
        ensures places { IfOk result (λ lines. self.old.room ≤ vec_capacity lines) }
        ensures rotated { OnOk result (self.new ≡ rotated self.old) }
        ensures back { IfErr result (λ back. (back.items ≡ []) × (vec_capacity back ≡ vec_capacity places)) }
        ensures kept { OnErr result (self.new ≡ self.old) }
        ensures system { IsSystem self.new }
    {
        let mut places = places;
        places.clear();
        if places.capacity() < self.controller.room() as usize {
            return Err(places);
        }
        self.controller.rotate();
        Ok(replace(&mut self.journal, places))
    }

    /// The lines since the last rotation, in the order of the steps. Each reply was owed by the lines before it, and there is room left
    /// for the finishes of all live activations.
    pub fn journal(&self) -> &[Line]
        ensures value { result.now ≡ self.now.journal }
        ensures system { IsSystem self.now }
    {
        self.journal.as_slice()
    }

    /// The declaration that the system was opened with.
    pub fn decl(&self) -> &Decl<A>
        ensures { result.now.declaration ≡ self.now.declaration }
    {
        self.controller.decl()
    }

    /// What the system controls its devices by: it says what is live, what could start now, which room is left, and what each device
    /// contained when the system took it. Takes constant time.
    pub fn controller(&self) -> &Controller<D, A>
        ensures { result.now ≡ self.now }
    {
        &self.controller
    }

    /// Reports which declared operations can be started and which can't, with the path that forbids each, in the order of the
    /// file; what is live, in the order of the starts; and whether nothing can be started and nothing is live. Room plays no part.
    ///
    /// Changes nothing. Fails only if allocation fails. The cost is one look at a prologue for each operation and each path that
    /// names it, and memory for each operation and each live activation.
    pub fn report(&self, alloc: A) -> Result<Report<A>, OutOfMemory>
        ensures { IfOk result (λ report. IsReport self.now.declaration (all_lines self.now)
            report.startable.items report.blocked.items report.live.items report.frozen) }
    {
        self.controller.report(alloc)
    }

    /// The number at this place of what a declared resource contains now; `None` past the end.
    pub fn contents(&self, resource: ResId, place: u32) -> Option<u64>
        requires { resource.0 < length self.now.declaration.resources }
        ensures { result ≡ slice_get (contents_after self.now.declaration self.now.openings (all_lines self.now) resource.0) place }
    {
        self.controller.contents(resource, place)
    }

    /// Puts this device in place of a declared resource's own, which is dropped. What the new device contains now counts as what
    /// the resource contained from the opening on, and its count of failures becomes the resource's; all else stays.
    ///
    /// Fails with `Busy` if an activation of the resource is live, else with `Used` if a line, also an earlier one, asked its device,
    /// and else with `OtherLaw` if the new device has another law. The new device then comes back, and the system is as it was.
    ///
    /// Allocates nothing. The cost is that of a look at each live activation, and at each number in the device.
    pub fn replace(&mut self, resource: ResId, device: D) -> Result<(), (ReplaceFault, D)>
        requires { resource.0 < length self.old.declaration.resources }
        ensures may { OnOk result (MayReplace self.old.declaration (all_lines self.old) resource.0 (D.state device).law) }
        ensures replaced { OnOk result (self.new ≡ with_device self.old resource.0 (D.state device)) }
        ensures fault { IfErr result (λ refusal.
            IsReplaceFault self.old.declaration (all_lines self.old) resource.0 (D.state device).law refusal.0) }
        ensures back { IfErr result (λ refusal. refusal.1 ≡ device) }
        ensures kept { OnErr result (self.new ≡ self.old) }
        ensures system { IsSystem self.new }
    {
        self.controller.replace(resource, device)
    }

    /// Ends the system if nothing is live: drops each device and returns the journal. If an activation is live, the system comes
    /// back as it was. Allocates nothing.
    pub fn close(self) -> Result<Vec<Line, A>, System<D, A>>
        ensures closed { IsOk result ↔ (live (all_lines self) ≡ []) }
        ensures journal { IfOk result (λ journal. journal.items ≡ self.journal) }
        ensures back { IfErr result (λ system. system ≡ self) }
    {
        if !self.controller.is_idle() {
            return Err(self);
        }
        let System {
            journal,
            controller,
        } = self;
        drop(controller);
        Ok(journal)
    }
}
