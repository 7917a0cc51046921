//! One type of device for all laws.

ghost use Rattle.std.specs.Prelude.{◌≡◌, IfOk};
ghost use Rattle.path_decl.specs.Lawful.{CapacityFits};
ghost use Rattle.path_shelf.specs.Openings.{opening_state};
ghost use Rattle.path_shelf.specs.Own.{own_state};

use crate::cell::Cell;
use crate::device::{ActFault, Device};
use crate::queue::Queue;
use crate::tally::Tally;
use path_model::{Law, OutOfMemory, Verb};
use std::alloc::{Allocator, Global};

/// A cell, a tally or a queue. Never fails.
#[derive(Drop)]
pub enum OwnDevice<A: Allocator + Copy = Global> {
    /// One number.
    Cell(Cell),
    /// A total.
    Tally(Tally),
    /// Numbers in the order in which they were put.
    Queue(Queue<A>),
}

impl<A: Allocator + Copy> OwnDevice<A> {
    /// A new device of this law: a cell or a tally that contains 0, or an empty queue with memory for its whole capacity. Fails only if
    /// allocation fails.
    pub fn new(alloc: A, law: Law) -> Result<OwnDevice<A>, OutOfMemory>
        requires { CapacityFits law }
        ensures { IfOk result (λ device. own_state device ≡ opening_state law) }
    {
        match law {
            Law::Cell => Ok(OwnDevice::Cell(Cell::new(0))),
            Law::Tally => Ok(OwnDevice::Tally(Tally::new(0))),
            Law::Queue(capacity) => {
                let queue = Queue::new(alloc, capacity)?;
                Ok(OwnDevice::Queue(queue))
            }
        }
    }
}

impl<A: Allocator + Copy> Device for OwnDevice<A> {
    ghost state = { own_state };

    fn law(&self) -> Law {
        match self {
            OwnDevice::Cell(cell) => cell.law(),
            OwnDevice::Tally(tally) => tally.law(),
            OwnDevice::Queue(queue) => queue.law(),
        }
    }

    fn failures(&self) -> u64 {
        0
    }

    fn at(&self, place: u32) -> Option<u64> {
        match self {
            OwnDevice::Cell(cell) => cell.at(place),
            OwnDevice::Tally(tally) => tally.at(place),
            OwnDevice::Queue(queue) => queue.at(place),
        }
    }

    fn act(&mut self, verb: Verb) -> Result<u64, ActFault> {
        match self {
            OwnDevice::Cell(cell) => cell.act(verb),
            OwnDevice::Tally(tally) => tally.act(verb),
            OwnDevice::Queue(queue) => queue.act(verb),
        }
    }
}
