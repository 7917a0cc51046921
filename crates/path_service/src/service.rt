//! A controller over the program's own devices, with the lines of its journal if they are kept.

ghost use Rattle.std.specs.Prelude.{◌≡◌, ◌≤◌, length, map, slice_get, Some, Contains, true, false};
ghost use Rattle.std.specs.Prelude.{IfOk, IfErr, IfSome, IfNone, MatchOption};
ghost use Rattle.std.specs.Str.{IsUtf8};
ghost use Rattle.path_model.specs.Journals.{admitted_history};
ghost use Rattle.path_system.specs.Accounts.{account_of, all_lines, rotated, IsSystem};
ghost use Rattle.tell_base.specs.Own.{own_states};
ghost use Rattle.path_service.specs.Services.{IsOpened, IsServed, IsServiceFault, IsUnserved, MayStart};

use crate::fault::ServiceFault;
use crate::lines::Lines;
use path_decl::{Decl, counts, operation};
use path_model::{Attempt, Line, OpId, Reply, is_room};
use path_order::Order;
use path_read::read;
use path_shelf::OwnDevice;
use path_system::{Controller, StartRefusal};
use std::alloc::Global;
use std::marker::Model;
use tell_base::own_devices;

/// A controller over the program's own devices: each cell and tally contains 0 at first, each queue is empty, and none fails. It may
/// keep the lines of its journal.
///
/// Contracts see what they see of a system, and whether the lines are kept. Dropping a service drops its devices, whatever is live.
#[derive(Drop)]
pub struct Service {
    pub(crate) lines: Option<Lines>,
    /// What tells who comes next, once somebody has asked.
    pub(crate) order: Option<Order>,
    /// Last, because a controller keeps its declaration last.
    pub(crate) controller: Controller<OwnDevice>,
}

impl Model for Service {
    ghost use Rattle.std.specs.Prelude.{is_some};
    ghost use Rattle.std.specs.Coded.{codes};
    ghost use Rattle.path_decl.specs.Stored.{declaration_code};
    ghost use Rattle.path_service.specs.Serving.{Serving};
    ghost use Rattle.path_service.specs.Inner.{IsReady};

    ghost Value = { Serving };

    ghost coded = { Prim.hlevel (codes, declaration_code) };

    ghost view = { λ s. record { account = s.controller; keeps = is_some s.lines } };

    ghost invariant = { λ s. IsReady s.controller s.lines s.order };
}

/// A controller of a declaration, over devices of its own, to which nothing has been attempted.
pub(crate) fn controller_over(
    alloc: Global,
    decl: Decl,
    room: u32,
) -> Result<Controller<OwnDevice>, ServiceFault>
    ensures ok { IfOk result (λ controller. controller ≡ account_of decl.declaration room (own_states decl.declaration)) }
    ensures system { IfOk result (λ controller. IsSystem controller) }
    ensures err { IfErr result (IsUnserved room) }
{
    if !is_room(room) {
        drop(decl);
        return Err(ServiceFault::BadRoom);
    }
    let devices = own_devices(alloc, &decl)?;
    match Controller::open(alloc, decl, devices, room) {
        Ok(controller) => Ok(controller),
        Err((_fault, _devices)) => Err(ServiceFault::OutOfMemory),
    }
}

/// The same of the declaration in a text.
fn controller_of(
    alloc: Global,
    text: &[u8],
    room: u32,
) -> Result<Controller<OwnDevice>, ServiceFault>
    ensures ok { IfOk result (IsOpened text.now room) }
    ensures system { IfOk result (λ controller. IsSystem controller) }
    ensures err { IfErr result (IsServiceFault text.now room) }
{
    match read(alloc, text) {
        Ok(decl) => controller_over(alloc, decl, room),
        Err(fault) => Err(ServiceFault::Declaration(fault)),
    }
}

impl Service {
    /// Opens a service of the declaration in this text, to which nothing has been attempted. It keeps its lines: its journal has room
    /// for `room` of them, 1 to [`MOST_LINES`](path_model::MOST_LINES).
    ///
    /// Fails with `Declaration` and the fault of [`read`] if the text isn't a declaration, else with `BadRoom` if the room is outside
    /// that range. `OutOfMemory`, also as that of a declaration, may come at any point. All memory is allocated now, for two lists of
    /// `room` lines and for all queues at their capacity: no later step or rotation allocates.
    pub fn open(alloc: Global, text: &[u8], room: u32) -> Result<Service, ServiceFault>
        ensures ok { IfOk result (λ service. IsOpened text.now room service.account) }
        ensures keeps { IfOk result (λ service. service.keeps ≡ true) }
        ensures err { IfErr result (IsServiceFault text.now room) }
    {
        let controller = controller_of(alloc, text, room)?;
        let lines = Lines::with_room(alloc, room)?;
        Ok(Service {
            lines: Some(lines),
            order: None,
            controller,
        })
    }

    /// Opens a service as [`open`](Service::open) does, but one that keeps no lines: each is given up behind its step. So nothing takes
    /// room but what is live, of which there may be `room - 1` at once, and no rotation is needed.
    ///
    /// Fails as [`open`](Service::open) does. All memory is allocated now, for what may be live and for all queues at their capacity.
    pub fn open_without_journal(
        alloc: Global,
        text: &[u8],
        room: u32,
    ) -> Result<Service, ServiceFault>
        ensures ok { IfOk result (λ service. IsOpened text.now room service.account) }
        ensures keeps { IfOk result (λ service. service.keeps ≡ false) }
        ensures err { IfErr result (IsServiceFault text.now room) }
    {
        let controller = controller_of(alloc, text, room)?;
        Ok(Service {
            lines: None,
            order: None,
            controller,
        })
    }

    /// The operation of this name; `None` if none is declared by it. A look-up in a hash table.
    pub fn operation(&self, name: &[u8]) -> Option<OpId>
        ensures some { IfSome result (λ a. slice_get (map (λ o. o.name) self.now.account.declaration.operations) a.0 ≡ Some name.now) }
        ensures none { IfNone result (IsUtf8 name.now → Contains (map (λ o. o.name) self.now.account.declaration.operations) name.now → ⊥) }
    {
        match std::str::from_utf8(name) {
            Ok(name) => operation(self.controller.decl(), name),
            Err(_) => None,
        }
    }

    /// How many operations are declared; their numbers are those below it.
    pub fn operations(&self) -> u32
        ensures { result ≡ length self.now.account.declaration.operations }
    {
        counts(self.controller.decl()).operations
    }

    /// Makes one attempt of a worker, as [`Controller::step`] does and at its cost, and returns the reply that is owed to it. It is never
    /// `DeviceFailed`. The line is kept, or given up at once. Allocates nothing.
    #[inline(always)]
    pub fn step(&mut self, worker: u32, attempt: Attempt) -> Reply
        ensures { IsServed self.old worker attempt result self.new }
    {
        let reply = self.controller.step(worker, attempt);
        match &mut self.lines {
            None => self.controller.rotate(),
            Some(lines) => {
                if !matches!(reply, Reply::NoRoom) {
                    lines.present.push_reserved(Line {
                        worker,
                        attempt,
                        reply,
                    });
                }
            }
        }
        reply
    }

    /// Whether no path forbids a start of the operation now. Fails with `UnknownOperation` if it isn't declared, and else with
    /// `Blocked` and the first path in the file that forbids it. Room plays no part. Changes and allocates nothing.
    pub fn can_start(&self, op: OpId) -> Result<(), StartRefusal>
        ensures { MayStart self.now.account.declaration (admitted_history (all_lines self.now.account)) op result }
    {
        if op.0 >= counts(self.controller.decl()).operations {
            return Err(StartRefusal::UnknownOperation);
        }
        match self.controller.can_start(op) {
            Ok(()) => Ok(()),
            Err(path) => Err(StartRefusal::Blocked(path)),
        }
    }

    /// Gives up the lines so far, and goes on with an empty journal, whose room counts anew. What is live stays live, and the devices
    /// stay. Takes constant time and no memory.
    pub fn rotate(&mut self)
        ensures account { self.new.account ≡ rotated self.old.account }
        ensures keeps { self.new.keeps ≡ self.old.keeps }
    {
        self.controller.rotate();
        if let Some(lines) = &mut self.lines {
            lines.clear();
        }
    }

    /// What steps it: it knows what is live, what may start, which room is left, and how many lines are kept.
    pub fn controller(&self) -> &Controller<OwnDevice>
        ensures value { result.now ≡ self.now.account }
        ensures system { IsSystem self.now.account }
    {
        &self.controller
    }

    /// The lines since the last rotation; `None` if none are kept.
    pub fn journal(&self) -> Option<&[Line]>
        ensures { MatchOption result (self.now.keeps ≡ false) (λ lines. (self.now.keeps ≡ true) × (lines.now ≡ self.now.account.journal)) }
    {
        match &self.lines {
            Some(lines) => Some(lines.present.as_slice()),
            None => None,
        }
    }
}
