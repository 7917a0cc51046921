//! Who comes next, among those who wait for a start.

ghost use Rattle.std.specs.Prelude.{◌≡◌, ◌≢◌, ◌↔◌, ◌≤◌, ◌<◌, [], length, IfOk, IfErr, IfSome};
ghost use Rattle.path_order.specs.Beside.{AreOf};
ghost use Rattle.path_system.specs.Accounts.{IsSystem};
ghost use Rattle.path_service.specs.declared.fault.OrderFault.TheVariants as orders;
ghost use Rattle.path_service.specs.Ordered.{IsRuledIn, KeepsTheDoorIn, IsNextIn, IsUnopposedIn, IsFirstIn};

use crate::fault::OrderFault;
use crate::service::Service;
use path_decl::{Decl, counts};
use path_model::OutOfMemory;
use path_order::{Order, Ruling, Waiter};
use path_shelf::OwnDevice;
use path_system::Controller;
use std::alloc::Global;

/// As many starts are admitted.
const MOST_STARTS: u32 = 4294967295;

/// The order that is there, or a new one. Fails only if allocation fails.
fn opened(alloc: Global, order: Option<Order>, decl: &Decl) -> Result<Order, OutOfMemory>
    requires { IfSome order (λ order. AreOf decl.now.declaration order.spares) }
    ensures { IfOk result (λ order. AreOf decl.now.declaration order.spares) }
{
    match order {
        Some(order) => Ok(order),
        None => Order::open(alloc, decl),
    }
}

/// What becomes of a start at the gate of a controller.
fn ruled(
    order: &mut Order,
    controller: &Controller<OwnDevice>,
    waiting: &[Waiter],
    running: &[u32],
    asking: Waiter,
) -> Result<Ruling, OrderFault>
    requires of { AreOf controller.now.declaration order.old.spares }
    requires system { IsSystem controller.now }
    ensures of { AreOf controller.now.declaration order.new.spares }
    ensures declared { IfErr result (λ fault. fault ≢ orders.UnknownOperation) }
    ensures ruled { IfOk result (IsRuledIn controller.now waiting.now running.now asking) }
    ensures door { IfOk result (KeepsTheDoorIn controller.now waiting.now running.now asking) }
{
    let gate = controller.gate();
    if gate.admitted() >= MOST_STARTS {
        return Err(OrderFault::NoRoom);
    }
    // It fits each gate of its declaration.
    if !order.fits(gate) {
        return Err(OrderFault::OutOfMemory);
    }
    Ok(order.may_start(gate, waiting, running, asking)?)
}

/// Who is next at the gate of a controller.
fn first(
    order: &mut Order,
    controller: &Controller<OwnDevice>,
    waiting: &[Waiter],
    running: &[u32],
) -> Result<Option<usize>, OrderFault>
    requires of { AreOf controller.now.declaration order.old.spares }
    requires system { IsSystem controller.now }
    ensures of { AreOf controller.now.declaration order.new.spares }
    ensures declared { IfErr result (λ fault. fault ≢ orders.UnknownOperation) }
    ensures next { IfOk result (IsNextIn controller.now waiting.now running.now) }
    ensures door { IfOk result (IsUnopposedIn controller.now waiting.now running.now) }
    ensures no_stall { running.now ≡ [] → IfOk result (IsFirstIn controller.now waiting.now) }
{
    let gate = controller.gate();
    if gate.admitted() >= MOST_STARTS {
        return Err(OrderFault::NoRoom);
    }
    if !order.fits(gate) {
        return Err(OrderFault::OutOfMemory);
    }
    Ok(order.next(gate, waiting, running)?)
}

impl Service {
    /// What becomes of a start that one asks for, behind those of `waiting` who come before it: it goes, and is admitted; or a path forbids
    /// it; or it is withheld for one of them, by its place. `waiting` has those who wait, in order, and `running` the operations in
    /// progress of those who run, as [`Order::may_start`] says.
    ///
    /// Fails with `UnknownOperation` if the operation isn't declared, with `NoRoom` behind 4,294,967,295 starts, and else only if
    /// allocation fails. Changes nothing that another call sees. The first call takes memory for two gates; the cost is that of
    /// [`Order::may_start`].
    pub fn may_start(
        &mut self,
        alloc: Global,
        waiting: &[Waiter],
        running: &[u32],
        asking: Waiter,
    ) -> Result<Ruling, OrderFault>
        ensures kept { self.new ≡ self.old }
        ensures declared { IfOk result (λ _. asking.operation < length self.old.account.declaration.operations) }
        ensures unknown { IfErr result (λ fault.
            (fault ≡ orders.UnknownOperation) ↔ (length self.old.account.declaration.operations ≤ asking.operation)) }
        ensures ruled { IfOk result (IsRuledIn self.old.account waiting.now running.now asking) }
        // What the operation of one ahead excludes doesn't go past it while its way is clear.
        ensures door { IfOk result (KeepsTheDoorIn self.old.account waiting.now running.now asking) }
    {
        if asking.operation >= counts(self.controller.decl()).operations {
            return Err(OrderFault::UnknownOperation);
        }
        let mut order = opened(alloc, self.order.take(), self.controller.decl())?;
        let ruling = ruled(&mut order, &self.controller, waiting, running, asking);
        self.order = Some(order);
        ruling
    }

    /// Who is next: the place in `waiting` of the first whose start is neither refused nor withheld, if there is one. Where nobody runs, it
    /// is the first whose start no path forbids. `waiting` and `running` are as [`may_start`](Service::may_start) has them.
    ///
    /// Fails with `NoRoom` behind 4,294,967,295 starts, and else only if allocation fails. Changes nothing that another call sees. The
    /// first call takes memory for two gates; the cost is that of [`Order::next`].
    pub fn next(
        &mut self,
        alloc: Global,
        waiting: &[Waiter],
        running: &[u32],
    ) -> Result<Option<usize>, OrderFault>
        ensures kept { self.new ≡ self.old }
        ensures declared { IfErr result (λ fault. fault ≢ orders.UnknownOperation) }
        ensures next { IfOk result (IsNextIn self.old.account waiting.now running.now) }
        // What the operation of one before it excludes isn't let in while that one's way is clear.
        ensures door { IfOk result (IsUnopposedIn self.old.account waiting.now running.now) }
        // Where nobody runs, it is the first whose start no path forbids.
        ensures no_stall { running.now ≡ [] → IfOk result (IsFirstIn self.old.account waiting.now) }
    {
        let mut order = opened(alloc, self.order.take(), self.controller.decl())?;
        let found = first(&mut order, &self.controller, waiting, running);
        self.order = Some(order);
        found
    }
}
