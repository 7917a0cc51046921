//! The values of all semaphores and counters, and what one operation does to them in one path.

ghost use Rattle.std.specs.Prelude.{◌≡◌, ◌<◌, length};
ghost use Rattle.path_gate.specs.Levels as spec;
ghost use Rattle.path_gate.specs.Levels.{levels_in, PrologueWithin, EpilogueWithin, CanEnter, CanLeave, CanStart, CanFinish};

use path_code::{Epilogue, Prologue};
use std::alloc::Allocator;

/// The values of all semaphores and counters by their numbers in the file; 0 for those that were removed.
#[derive(Drop)]
pub struct Levels<A: Allocator + Copy> {
    /// Those of the semaphores.
    pub semaphores: Vec<u64, A>,
    /// Those of the counters.
    pub counters: Vec<u64, A>,
}

impl<A: Allocator + Copy> Levels<A> {
    /// Whether an execution of braces may begin: one is in progress already, or the semaphore lets the first one in.
    fn is_open(&self, pair: u16, semaphore: u16) -> bool
        requires { (pair < length self.now.counters.items) × (semaphore < length self.now.semaphores.items) }
        ensures { result ≡ spec.is_open pair semaphore (levels_in self.now) }
    {
        self.counters[pair as usize] > 0 || self.semaphores[semaphore as usize] > 0
    }

    /// Whether a prologue can pass.
    pub fn can_pass(&self, prologue: Option<Prologue>) -> bool
        requires { PrologueWithin (length self.now.semaphores.items) (length self.now.counters.items) prologue }
        ensures { result ≡ spec.can_pass prologue (levels_in self.now) }
    {
        match prologue {
            None => true,
            Some(Prologue::P(semaphore)) => self.semaphores[semaphore as usize] > 0,
            Some(Prologue::PP { pair, semaphore }) => self.is_open(pair, semaphore),
            Some(
                Prologue::PPN {
                    pair,
                    semaphore,
                    bound,
                },
            ) => self.semaphores[bound as usize] > 0 && self.is_open(pair, semaphore),
        }
    }

    /// Counts one more execution of the braces; the first one takes 1 from the semaphore.
    fn enter(&mut self, pair: u16, semaphore: u16)
        requires within { (pair < length self.old.counters.items) × (semaphore < length self.old.semaphores.items) }
        requires can { CanEnter pair semaphore (levels_in self.old) }
        ensures { levels_in self.new ≡ spec.entered pair semaphore (levels_in self.old) }
    {
        if self.counters[pair as usize] == 0 {
            self.semaphores[semaphore as usize] -= 1;
        }
        self.counters[pair as usize] += 1;
    }

    /// Counts one execution of the braces less; the last one gives 1 to the semaphore.
    fn leave(&mut self, pair: u16, semaphore: u16)
        requires within { (pair < length self.old.counters.items) × (semaphore < length self.old.semaphores.items) }
        requires can { CanLeave pair semaphore (levels_in self.old) }
        ensures { levels_in self.new ≡ spec.left pair semaphore (levels_in self.old) }
    {
        if self.counters[pair as usize] == 1 {
            self.semaphores[semaphore as usize] += 1;
        }
        self.counters[pair as usize] -= 1;
    }

    /// Does a prologue that can pass.
    pub fn start(&mut self, prologue: Option<Prologue>)
        requires within { PrologueWithin (length self.old.semaphores.items) (length self.old.counters.items) prologue }
        requires can { CanStart prologue (levels_in self.old) }
        ensures { levels_in self.new ≡ spec.started prologue (levels_in self.old) }
    {
        match prologue {
            None => {}
            Some(Prologue::P(semaphore)) => self.semaphores[semaphore as usize] -= 1,
            Some(Prologue::PP { pair, semaphore }) => self.enter(pair, semaphore),
            Some(
                Prologue::PPN {
                    pair,
                    semaphore,
                    bound,
                },
            ) => {
                self.semaphores[bound as usize] -= 1;
                self.enter(pair, semaphore);
            }
        }
    }

    /// Does an epilogue.
    pub fn finish(&mut self, epilogue: Option<Epilogue>)
        requires within { EpilogueWithin (length self.old.semaphores.items) (length self.old.counters.items) epilogue }
        requires can { CanFinish epilogue (levels_in self.old) }
        ensures { levels_in self.new ≡ spec.finished epilogue (levels_in self.old) }
    {
        match epilogue {
            None => {}
            Some(Epilogue::V(semaphore)) => self.semaphores[semaphore as usize] += 1,
            Some(Epilogue::VV { pair, semaphore }) => self.leave(pair, semaphore),
            Some(
                Epilogue::VVN {
                    pair,
                    semaphore,
                    bound,
                },
            ) => {
                self.leave(pair, semaphore);
                self.semaphores[bound as usize] += 1;
            }
        }
    }
}
