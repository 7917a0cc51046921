//! Devices whose uses or drops a test counts.

ghost use Rattle.std.specs.Prelude.{◌≡◌, [], ◌∷◌, IsTrue};
ghost use Rattle.path_model.specs.declared.resource.Law.TheVariants as laws;
ghost use Rattle.path_shelf.specs.States.{IsCounted};

use path_model::{Law, Verb};
use path_shelf::{ActFault, Cell, Device};
use std::sync::Arc;
use std::sync::atomic::{AtomicU32, Ordering};

/// A cell that counts its drops.
pub struct Counted {
    cell: Cell,
    drops: Arc<AtomicU32>,
}

impl Counted {
    /// A cell that contains this number. Its drop adds 1 to `drops`.
    pub fn new(number: u64, drops: Arc<AtomicU32>) -> Counted
        ensures { ⟦<Counted as Device>⟧.state result ≡ record { law = laws.Cell; contents = number ∷ []; failures = 0 } }
    {
        Counted {
            cell: Cell::new(number),
            drops,
        }
    }
}

impl Drop for Counted {
    fn drop(self) {
        let Counted { cell: _, drops } = self;
        drops.fetch_add(1, Ordering::SeqCst);
    }
}

impl Device for Counted {
    ghost state = { λ c. ⟦<Cell as Device>⟧.state c.cell };

    fn law(&self) -> Law {
        self.cell.law()
    }

    fn failures(&self) -> u64 {
        self.cell.failures()
    }

    fn at(&self, place: u32) -> Option<u64> {
        self.cell.at(place)
    }

    fn act(&mut self, verb: Verb) -> Result<u64, ActFault> {
        self.cell.act(verb)
    }
}

/// A tally that fails once: at one of the uses that its law would serve.
#[derive(Drop)]
pub struct FailingTally {
    total: u64,
    uses: u64,
    fails_at: u64,
    failures: u64,
}

impl FailingTally {
    /// A tally of this total, which has failed this often. It fails at the use of this number, counted from 1; never if the number
    /// is 0.
    pub fn new(total: u64, fails_at: u64, failures: u64) -> FailingTally
        ensures { ⟦<FailingTally as Device>⟧.state result ≡ record { law = laws.Tally; contents = total ∷ []; failures = failures } }
    {
        FailingTally {
            total,
            uses: 0,
            fails_at,
            failures,
        }
    }

    /// Counts a use, and returns whether it fails.
    fn fails(&mut self) -> bool
        ensures total { self.new.total ≡ self.old.total }
        ensures counted { IsTrue result → IsCounted self.old.failures self.new.failures }
    {
        self.uses = self.uses.saturating_add(1);
        if self.uses == self.fails_at {
            self.failures = self.failures.saturating_add(1);
            return true;
        }
        false
    }
}

impl Device for FailingTally {
    ghost state = { λ t. record { law = laws.Tally; contents = t.total ∷ []; failures = t.failures } };

    fn law(&self) -> Law {
        Law::Tally
    }

    fn failures(&self) -> u64 {
        self.failures
    }

    fn at(&self, place: u32) -> Option<u64> {
        if place == 0 { Some(self.total) } else { None }
    }

    fn act(&mut self, verb: Verb) -> Result<u64, ActFault> {
        let sum = match verb {
            Verb::Look => Some(self.total),
            Verb::Add(number) => self.total.checked_add(number),
            Verb::Put(_) | Verb::Take => return Err(ActFault::NotOffered),
        };
        let Some(total) = sum else {
            return Err(ActFault::Overflow);
        };
        if self.fails() {
            return Err(ActFault::Failed);
        }
        self.total = total;
        Ok(total)
    }
}
