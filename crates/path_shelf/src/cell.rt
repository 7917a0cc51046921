//! The cell.

ghost use Rattle.std.specs.Prelude.{◌≡◌, [], ◌∷◌};
ghost use Rattle.path_model.specs.declared.resource.Law.TheVariants as laws;

use crate::device::{ActFault, Device};
use path_model::{Law, Verb};

/// One number, which can be put and looked at. Never fails.
#[derive(Drop)]
pub struct Cell {
    number: u64,
}

impl Cell {
    /// A cell that contains this number.
    pub fn new(number: u64) -> Cell
        ensures { ⟦<Cell as Device>⟧.state result ≡ record { law = laws.Cell; contents = number ∷ []; failures = 0 } }
    {
        Cell { number }
    }
}

impl Device for Cell {
    ghost state = { λ c. record { law = laws.Cell; contents = c.number ∷ []; failures = 0 } };

    fn law(&self) -> Law {
        Law::Cell
    }

    fn failures(&self) -> u64 {
        0
    }

    fn at(&self, place: u32) -> Option<u64> {
        if place == 0 { Some(self.number) } else { None }
    }

    fn act(&mut self, verb: Verb) -> Result<u64, ActFault> {
        match verb {
            Verb::Put(number) => {
                let held = self.number;
                self.number = number;
                Ok(held)
            }
            Verb::Look => Ok(self.number),
            Verb::Take | Verb::Add(_) => Err(ActFault::NotOffered),
        }
    }
}
