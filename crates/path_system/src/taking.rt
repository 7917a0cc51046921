//! The reply that is owed to an attempt, and lines that others answered.

ghost use Rattle.std.specs.Prelude.{◌≡◌, ◌≢◌, ◌↔◌, IsTrue, IfErr, OnOk};
ghost use Rattle.path_model.specs.declared.journal.Reply.TheVariants as replies;
ghost use Rattle.path_model.specs.Segments.{OwedBehind, joined};
ghost use Rattle.path_shelf.specs.States.{MayFail};
ghost use Rattle.path_system.specs.Accounts.{IsSystem};
ghost use Rattle.path_system.specs.Inner.Parts.{MayTell};
ghost use Rattle.path_system.specs.Before.{BehindEach, earlier_behind};
ghost use Rattle.path_system.specs.Controllers.{IsControlled};
ghost use Rattle.path_system.specs.Taken.{IsTakeFault, IsTakeFaultBehind, IsTaken, IsTakenBehind};

use crate::controller::Controller;
use crate::fault::TakeFault;
use crate::past::Past;
use crate::system::System;
use path_model::{Attempt, Line, Reply};
use path_shelf::Device;
use std::alloc::Allocator;

/// Whether a line may tell this reply where that one is owed: the same, or that the device failed which would serve; but never `NoRoom`.
fn may_tell(owed: Reply, told: Reply) -> bool
    ensures { IsTrue result ↔ (MayTell owed told × (told ≢ replies.NoRoom)) }
{
    match (owed, told) {
        (Reply::Used(_), Reply::DeviceFailed) => true,
        (_, Reply::NoRoom) => false,
        _ => owed == told,
    }
}

impl<D: Device, A: Allocator + Copy> Controller<D, A> {
    /// The reply that [`step`](Controller::step) would return to this attempt of a worker now, unless a device failed: it is owed by all
    /// lines so far. Makes no attempt, and changes and allocates nothing. The cost is one look at a prologue for each path that names the
    /// operation of a start, and else a search among the live activations; of a use also a look at its device's contents: at one number, or
    /// for a put into a queue at each.
    pub fn owed(&self, worker: u32, attempt: Attempt) -> Reply
        ensures owed { BehindEach self.now (λ openings before. OwedBehind self.now.declaration self.now.room openings
            (earlier_behind before self.now) self.now.journal worker attempt result) }
        ensures served { result ≢ replies.DeviceFailed }
    {
        self.parts.owed(self.room, self.lines, worker, attempt)
    }

    /// Takes over a line that another answered: moves as if [`step`](Controller::step) had answered so. The journal gains the line.
    ///
    /// Fails with `NotOwed` and the reply that is owed, as [`owed`](Controller::owed) returns it, exactly if that of the line isn't owed by
    /// all lines so far, or is `NoRoom`; then nothing changes. `DeviceFailed` is owed wherever the device's law would serve: such a line is
    /// taken without asking the device, whose contents stay and which counts no failure.
    ///
    /// Where the line says `Used` the device serves. If it fails, that is told by `DeviceFailed`, though the line is right: then nothing
    /// changes but the device's count of failures, and the line may be tried again. Devices of a type that never fails never do that.
    ///
    /// Allocates nothing. The cost is that of [`owed`](Controller::owed) and of a step.
    pub fn take_over(&mut self, line: Line) -> Result<(), TakeFault>
        ensures taken { OnOk result (IsTakenBehind self.old line self.new) }
        ensures fault { IfErr result (λ fault. IsTakeFaultBehind (MayFail D.state) self.old line fault self.new) }
        ensures controlled { IsControlled self.new }
    {
        let owed = self
            .parts
            .owed(self.room, self.lines, line.worker, line.attempt);
        if !may_tell(owed, line.reply) {
            return Err(TakeFault::NotOwed(owed));
        }
        let Attempt::Apply(act, verb) = line.attempt else {
            self.step(line.worker, line.attempt);
            return Ok(());
        };
        if !self.parts.take_use(line.worker, act, verb, line.reply) {
            return Err(TakeFault::DeviceFailed);
        }
        let past = Past::with(&self.past, &line);
        self.past = past;
        self.lines += 1;
        Ok(())
    }
}

impl<D: Device, A: Allocator + Copy> System<D, A> {
    /// The reply that [`step`](System::step) would return to this attempt of a worker now, unless a device failed; as
    /// [`Controller::owed`], and at its cost.
    pub fn owed(&self, worker: u32, attempt: Attempt) -> Reply
        ensures owed { OwedBehind self.now.declaration self.now.room self.now.openings (joined self.now.earlier) self.now.journal
            worker attempt result }
        ensures served { result ≢ replies.DeviceFailed }
    {
        self.controller.owed(worker, attempt)
    }

    /// Takes over a line that another answered, as [`Controller::take_over`] does, and at its cost: the journal gains the line.
    pub fn take_over(&mut self, line: Line) -> Result<(), TakeFault>
        ensures taken { OnOk result (IsTaken self.old line self.new) }
        ensures fault { IfErr result (λ fault. IsTakeFault (MayFail D.state) self.old line fault self.new) }
        ensures system { IsSystem self.new }
    {
        self.controller.take_over(line)?;
        self.journal.push_reserved(line);
        Ok(())
    }
}
