//! Who comes next, beside a gate.

ghost use Rattle.std.specs.Prelude.{◌≡◌, ◌<◌, [], List, take, true, IfOk};
ghost use Rattle.path_model.specs.declared.history.Event.{Event};
ghost use Rattle.path_model.specs.Legal.{Legal};
ghost use Rattle.path_model.specs.Declarations.{Declaration, paths_of};
ghost use Rattle.path_decl.specs.Lawful.{Lawful};
ghost use Rattle.path_gate.specs.Standings.{IsAt};
ghost use Rattle.path_order.specs.Waiting as spec;
ghost use Rattle.path_order.specs.Waiting.{ops_of};
ghost use Rattle.path_order.specs.Rulings.{IsRuled, IsNext, IsFirstAdmissible};
ghost use Rattle.path_order.specs.Bounds.{KeepsTheDoor, LetsInUnopposed};
ghost use Rattle.path_order.specs.Beside.{AreReady, AreOf};

use crate::ruling::{Ruling, clear_all, first_free, rule, rule_unopposed};
use crate::spare::{Spares, has_same_places};
use crate::waiting::{Waiter, is_shut_out, place_for};
use path_decl::{Decl, counts};
use path_gate::{Gate, compile};
use path_model::OutOfMemory;
use std::alloc::{Allocator, Global};

/// What tells who comes next at a gate: two spare gates of the same paths, in which others' steps are tried out. Contracts see them as
/// `spares`.
#[derive(Drop)]
pub struct Order<A: Allocator + Copy = Global> {
    pub(crate) spares: Spares<A>,
    /// For each operation the place of one who waits for it and was looked at last, or any number.
    pub(crate) looked_at: Vec<usize, A>,
}

impl<A: Allocator + Copy> Order<A> {
    /// An order for gates of this declaration.
    ///
    /// Fails only if allocation fails. The cost is that of two gates.
    pub fn open(alloc: A, decl: &Decl<A>) -> Result<Order<A>, OutOfMemory>
        ensures { IfOk result (λ order. AreOf decl.now.declaration order.spares) }
    {
        let operations = counts(decl).operations;
        let mut row = Vec::new(alloc);
        row.reserve(operations as usize)?;
        let looked_at = vec![in alloc; 0; operations as usize]?;
        Ok(Order {
            looked_at,
            spares: Spares {
                clear: compile(alloc, decl)?,
                behind: compile(alloc, decl)?,
                row,
                operations,
                paths: counts(decl).paths,
            },
        })
    }

    /// Whether the order fits a gate of its declaration, as it fits each that was compiled from it. It fits it then for good, since a gate
    /// keeps its places. Takes constant time.
    pub fn fits(&self, gate: &Gate<A>) -> bool
        requires { (d : Declaration) × Lawful d × AreOf d self.now.spares × (gate.now.paths ≡ paths_of d) }
        ensures { result ≡ true → AreReady gate.now self.now.spares }
    {
        if !has_same_places(gate, &self.spares.clear) {
            return false;
        }
        if !has_same_places(gate, &self.spares.behind) {
            return false;
        }
        true
    }

    /// What becomes of a start that one asks for, behind those of `waiting` who come before it: it goes to the gate, which will admit it;
    /// or a path forbids it; or it is withheld for one of them, by its place. `waiting` has those who wait, in order: those of a higher
    /// priority first, those of one priority in the order of arrival. One who waits already asks with those ahead of it.
    ///
    /// `running` has the operations in progress of those who run, each as often as it runs: who holds something, doesn't wait, and isn't
    /// the one who asks. What is left out counts as not running, which lets more pass. Nobody looks at the asking one's own `shut_at`.
    ///
    /// Fewer than 4,294,967,295 starts may have been admitted. Fails only if allocation fails. Where nobody ahead has shut its door before
    /// the asking one arrived, the cost is that of a look at each of them and at the gate; else it is that of two gates' values, of two
    /// finishes for each that runs, and of a look at the paths for each who comes before.
    pub fn may_start(
        &mut self,
        gate: &Gate<A>,
        waiting: &[Waiter],
        running: &[u32],
        asking: Waiter,
    ) -> Result<Ruling, OutOfMemory>
        requires ready { AreReady gate.now self.old.spares }
        requires room { gate.now.admitted < 4294967295 }
        ensures ruled { IfOk result (λ ruling. (h : List Event) → Legal gate.now.paths h → IsAt gate.now h
            → IsRuled gate.now.paths self.old.spares.paths h (ops_of running.now)
            (take (spec.place_for asking.priority waiting.now) waiting.now) asking ruling) }
        // What the operation of one ahead excludes doesn't go past it while its way is clear.
        ensures door { IfOk result (λ ruling. (h : List Event) → Legal gate.now.paths h → IsAt gate.now h
            → KeepsTheDoor gate.now.paths h (ops_of running.now)
            (take (spec.place_for asking.priority waiting.now) waiting.now) asking ruling) }
        ensures ready { AreReady gate.now self.new.spares }
        ensures operations { self.new.spares.operations ≡ self.old.spares.operations }
        ensures paths { self.new.spares.paths ≡ self.old.spares.paths }
    {
        let place = place_for(waiting, asking.priority);
        let ahead = &waiting[..place];
        if !is_shut_out(ahead, asking.arrived) {
            return Ok(rule_unopposed(gate, asking));
        }
        clear_all(gate, &mut self.spares, running)?;
        rule(gate, &mut self.spares, running, ahead, asking)
    }

    /// Who is next: the place of the first of those who wait whose start is neither refused nor withheld, if there is one. Where nobody
    /// runs, it is the first whose start no path forbids: so if some start of theirs would be admitted, one is let in.
    ///
    /// To let it in, start its operation at the gate, and ask again without it. Ask at each finish, when one who holds something begins to
    /// wait, and when one gives up. `waiting` and `running` are as [`may_start`](Order::may_start) has them.
    ///
    /// Fewer than 4,294,967,295 starts may have been admitted. Fails only if allocation fails. Nothing is done if nobody waits; else the
    /// cost is that of a gate's values, of a finish for each that runs, and of a look at each who waits; and for each operation that no
    /// path forbids, and before which one ahead has shut its door, that of [`may_start`](Order::may_start). Of those who wait for one
    /// operation, in the order of arrival, only the first is asked about.
    pub fn next(
        &mut self,
        gate: &Gate<A>,
        waiting: &[Waiter],
        running: &[u32],
    ) -> Result<Option<usize>, OutOfMemory>
        requires ready { AreReady gate.now self.old.spares }
        requires room { gate.now.admitted < 4294967295 }
        ensures next { IfOk result (λ found. (h : List Event) → Legal gate.now.paths h → IsAt gate.now h
            → IsNext gate.now.paths self.old.spares.paths h (ops_of running.now) waiting.now found) }
        // What the operation of one before it excludes isn't let in while that one's way is clear.
        ensures door { IfOk result (λ found. (h : List Event) → Legal gate.now.paths h → IsAt gate.now h
            → LetsInUnopposed gate.now.paths h (ops_of running.now) waiting.now found) }
        // Where nobody runs, it is the first whose start no path forbids.
        ensures no_stall { IfOk result (λ found. (h : List Event) → Legal gate.now.paths h → IsAt gate.now h → running.now ≡ []
            → IsFirstAdmissible gate.now.paths self.old.spares.paths h [] waiting.now found) }
        ensures ready { AreReady gate.now self.new.spares }
        ensures operations { self.new.spares.operations ≡ self.old.spares.operations }
        ensures paths { self.new.spares.paths ≡ self.old.spares.paths }
    {
        if waiting.is_empty() {
            return Ok(None);
        }
        first_free(
            gate,
            &mut self.spares,
            &mut self.looked_at,
            waiting,
            running,
        )
    }
}
