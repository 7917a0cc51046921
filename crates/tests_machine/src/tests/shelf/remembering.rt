//! A caller's own device: a cell that remembers its earlier numbers.

ghost use Rattle.std.specs.Prelude.{[], ◌∷◌};
ghost use Rattle.path_model.specs.declared.resource.Law.TheVariants as laws;

use path_model::{Law, OutOfMemory, Verb};
use path_shelf::{ActFault, Device};
use std::alloc::Global;

/// A cell that remembers each number that it contained before. When there is no room for another one, a put fails.
#[derive(Drop)]
pub struct Remembering {
    number: u64,
    /// Its earlier numbers, the oldest first.
    history: Vec<u64>,
    failures: u64,
}

impl Remembering {
    /// A cell that contains this number, with room for `places` earlier ones. Allocates memory for all of them now.
    pub fn new(alloc: Global, number: u64, places: usize) -> Result<Remembering, OutOfMemory> {
        let history = Vec::with_capacity(alloc, places)?;
        Ok(Remembering {
            number,
            history,
            failures: 0,
        })
    }

    /// Its earlier numbers, the oldest first.
    pub fn history(&self) -> &[u64] {
        &self.history
    }
}

impl Device for Remembering {
    ghost state = { λ d. record { law = laws.Cell; contents = d.number ∷ []; failures = d.failures } };

    fn law(&self) -> Law {
        Law::Cell
    }

    fn failures(&self) -> u64 {
        self.failures
    }

    fn at(&self, place: u32) -> Option<u64> {
        if place == 0 { Some(self.number) } else { None }
    }

    fn act(&mut self, verb: Verb) -> Result<u64, ActFault> {
        match verb {
            Verb::Put(number) => {
                if self.history.len() >= self.history.capacity() {
                    self.failures = self.failures.saturating_add(1);
                    return Err(ActFault::Failed);
                }
                let held = self.number;
                self.history.push_reserved(held);
                self.number = number;
                Ok(held)
            }
            Verb::Look => Ok(self.number),
            Verb::Take | Verb::Add(_) => Err(ActFault::NotOffered),
        }
    }
}
