//! The queue.

ghost use Rattle.std.specs.Prelude.{◌≡◌, ◌≤◌, [], length, IfOk};
ghost use Rattle.std.specs.VecDeque.{deque_capacity};
ghost use Rattle.path_model.specs.declared.resource.Law.TheVariants as laws;

use crate::device::{ActFault, Device};
use path_model::{Law, OutOfMemory, Verb};
use std::alloc::{Allocator, Global};
use std::collections::VecDeque;

/// Numbers in the order in which they were put, at most as many as its capacity. Never fails.
#[derive(Drop)]
pub struct Queue<A: Allocator + Copy = Global> {
    numbers: VecDeque<u64, A>,
    capacity: u32,
    ghost within: { length numbers.items ≤ capacity },
    ghost reserved: { capacity ≤ deque_capacity numbers },
}

impl<A: Allocator + Copy> Queue<A> {
    /// An empty queue for `capacity` numbers, 1 to 1,024. Allocates memory for all of them now, so no later call allocates. Fails only
    /// if allocation fails.
    pub fn new(alloc: A, capacity: u32) -> Result<Queue<A>, OutOfMemory>
        requires at_least_one { 1 ≤ capacity }
        requires at_most_1024 { capacity ≤ 1024 }
        ensures { IfOk result (λ queue.
            ⟦<Queue<A> as Device>⟧.state queue ≡ record { law = laws.Queue capacity; contents = []; failures = 0 }) }
    {
        let numbers = VecDeque::with_capacity(alloc, capacity as usize)?;
        Ok(Queue { numbers, capacity })
    }
}

impl<A: Allocator + Copy> Device for Queue<A> {
    ghost state = { λ q. record { law = laws.Queue q.capacity; contents = q.numbers.items; failures = 0 } };

    fn law(&self) -> Law {
        Law::Queue(self.capacity)
    }

    fn failures(&self) -> u64 {
        0
    }

    fn at(&self, place: u32) -> Option<u64> {
        self.numbers.get(place as usize).copied()
    }

    fn act(&mut self, verb: Verb) -> Result<u64, ActFault> {
        match verb {
            Verb::Put(number) => {
                if self.numbers.len() >= self.capacity as usize {
                    return Err(ActFault::Full);
                }
                self.numbers.push_back_reserved(number);
                Ok(self.numbers.len() as u64)
            }
            Verb::Take => self.numbers.pop_front().ok_or(ActFault::Empty),
            Verb::Look => self.numbers.front().copied().ok_or(ActFault::Empty),
            Verb::Add(_) => Err(ActFault::NotOffered),
        }
    }
}
