//! The activations of a journal, by their numbers.

ghost use Rattle.std.specs.Prelude.{◌≡◌, [], IfOk};

use path_ledger::EndFault;
use path_model::{ActId, Activation, OpId, OutOfMemory};
use path_step::Live;
use std::alloc::{Allocator, Global};
use std::marker::Model;

/// The worker and the operation of an activation.
#[derive(Clone, Copy)]
struct Owner {
    worker: u32,
    op: OpId,
}

/// The activations that were begun. Contracts see the live ones, in the order of their starts, and how many were begun.
#[derive(Drop)]
pub struct Activations<A: Allocator + Copy = Global> {
    /// Each activation at the index that is its number; `None` if it is over.
    begun: Vec<Option<Owner>, A>,
    /// How many are live.
    live: usize,
}

impl<A: Allocator + Copy> Model for Activations<A> {
    ghost use Rattle.std.specs.Prelude.{◌≡◌, length};
    ghost use Rattle.path_step.specs.Steps.{Register};
    ghost use Rattle.path_audit.specs.Inner.Owners.{live_from};

    ghost Value = { Register };

    ghost view = { λ a. record { live = live_from 0 a.begun.items; begun = length a.begun.items } };

    ghost invariant = { λ a. a.live ≡ length (live_from 0 a.begun.items) };
}

impl<A: Allocator + Copy> Activations<A> {
    /// No activations.
    pub fn new(alloc: A) -> Activations<A>
        ensures { result ≡ record { live = []; begun = 0 } }
    {
        Activations {
            begun: Vec::new(alloc),
            live: 0,
        }
    }

    /// The live activations, in the order of their starts. Fails only if allocation fails. The cost is a look at each that was begun.
    pub fn listed(&self, alloc: A) -> Result<Vec<Activation, A>, OutOfMemory>
        ensures { IfOk result (λ list. list.items ≡ self.now.live) }
    {
        let mut list = Vec::new(alloc);
        for (n, owner) in self.begun.iter().enumerate() {
            if let Some(owner) = owner {
                list.push(Activation {
                    act: ActId(n as u64),
                    worker: owner.worker,
                    op: owner.op,
                })?;
            }
        }
        Ok(list)
    }
}

impl<A: Allocator + Copy> Live for Activations<A> {
    ghost register = { λ a. a };

    ghost has_place = { λ a. Unit {0} };

    // None: their list grows.
    ghost places = { λ a. 0 };

    type Fault = OutOfMemory;

    fn count(&self) -> usize {
        self.live
    }

    fn begun(&self) -> u64 {
        self.begun.len() as u64
    }

    /// Looks it up by number.
    fn find(&self, act: ActId) -> Option<Activation> {
        let place = act.0 as usize;
        if place >= self.begun.len() {
            return None;
        }
        let owner = self.begun[place]?;
        Some(Activation {
            act,
            worker: owner.worker,
            op: owner.op,
        })
    }

    /// Fails only if allocation fails.
    fn begin(&mut self, worker: u32, op: OpId) -> Result<ActId, OutOfMemory> {
        let act = ActId(self.begun.len() as u64);
        self.begun.push(Some(Owner { worker, op }))?;
        self.live += 1;
        Ok(act)
    }

    /// Looks it up by number: no other activation moves.
    fn end_own(&mut self, worker: u32, act: ActId) -> Result<Activation, EndFault> {
        let Some(activation) = self.find(act) else {
            return Err(EndFault::Stale);
        };
        if activation.worker != worker {
            return Err(EndFault::NotYours);
        }
        self.begun[act.0 as usize] = None;
        self.live -= 1;
        Ok(activation)
    }
}
