//! The tally.

ghost use Rattle.std.specs.Prelude.{◌≡◌, [], ◌∷◌};
ghost use Rattle.path_model.specs.declared.resource.Law.TheVariants as laws;

use crate::device::{ActFault, Device};
use path_model::{Law, Verb};

/// A total, which can be added to and looked at. Never fails.
#[derive(Drop)]
pub struct Tally {
    total: u64,
}

impl Tally {
    /// A tally that contains this total.
    pub fn new(total: u64) -> Tally
        ensures { ⟦<Tally as Device>⟧.state result ≡ record { law = laws.Tally; contents = total ∷ []; failures = 0 } }
    {
        Tally { total }
    }
}

impl Device for Tally {
    ghost state = { λ t. record { law = laws.Tally; contents = t.total ∷ []; failures = 0 } };

    fn law(&self) -> Law {
        Law::Tally
    }

    fn failures(&self) -> u64 {
        0
    }

    fn at(&self, place: u32) -> Option<u64> {
        if place == 0 { Some(self.total) } else { None }
    }

    fn act(&mut self, verb: Verb) -> Result<u64, ActFault> {
        match verb {
            Verb::Look => Ok(self.total),
            Verb::Add(number) => match self.total.checked_add(number) {
                Some(total) => {
                    self.total = total;
                    Ok(total)
                }
                None => Err(ActFault::Overflow),
            },
            Verb::Put(_) | Verb::Take => Err(ActFault::NotOffered),
        }
    }
}
