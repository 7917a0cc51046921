//! Who keeps the live activations.

ghost use Rattle.std.specs.Prelude.{◌≡◌, ◌+◌, ◌<◌, length, IfOk, OnErr, OnOk};
ghost use Rattle.path_model.specs.Journals.{activation_of, without};
ghost use Rattle.path_ledger.specs.Ledgers.{own_of};
ghost use Rattle.path_step.specs.Steps.{Register, registered};

use path_ledger::{EndFault, Ledger};
use path_model::{ActId, Activation, OpId};
use std::alloc::Allocator;
use std::convert::Infallible;

/// What keeps the live activations. Contracts see them, in the order of their starts, and how many were begun in all.
pub trait Live: Drop {
    ghost use Rattle.std.specs.Prelude.{ℕ};

    ghost register: { Self → Register };

    // There is a place for one more.
    ghost has_place: { Self → Type 0 };

    // How many places were made for them at the outset; no call changes that.
    ghost places: { Self → ℕ };

    /// Why an activation isn't begun.
    type Fault;

    /// How many are live.
    fn count(&self) -> usize
        ensures { result ≡ length (register self.now).live };

    /// How many were begun.
    fn begun(&self) -> u64
        ensures { result ≡ (register self.now).begun };

    /// The live activation of this number, if there is one.
    fn find(&self, act: ActId) -> Option<Activation>
        ensures { result ≡ activation_of act (register self.now).live };

    /// Appends an activation of this worker and operation, and returns its number: how many were begun before it. There has to be a place
    /// for it. After a fault nothing is known of what is live.
    fn begin(&mut self, worker: u32, op: OpId) -> Result<ActId, Self::Fault>
        requires { has_place self.old }
        ensures number { IfOk result (λ n. n.0 ≡ (register self.old).begun) }
        ensures appended { IfOk result (λ n.
            register self.new ≡ registered (register self.old) (record { act = n; worker = worker; op = op })) }
        ensures places { places self.new ≡ places self.old };

    /// Takes out the live activation of this number if it is this worker's own. Fails with `Stale` if none has the number, and else with
    /// `NotYours`; then nothing changes.
    fn end_own(&mut self, worker: u32, act: ActId) -> Result<Activation, EndFault>
        ensures told { result ≡ own_of worker (activation_of act (register self.old).live) }
        ensures ended { OnOk result (register self.new ≡ record (register self.old) { live = without act (register self.old).live }) }
        ensures kept { OnErr result (self.new ≡ self.old) }
        ensures places { places self.new ≡ places self.old };
}

impl<A: Allocator + Copy> Live for Ledger<A> {
    ghost register = { λ b. record { live = b.live; begun = b.first + b.begun } };

    ghost has_place = { λ b. (length b.live < b.room) × (b.first + b.begun < 4294967295) };

    ghost places = { λ b. b.room };

    type Fault = Infallible;

    #[inline(always)]
    fn count(&self) -> usize {
        Ledger::live(self).len()
    }

    #[inline(always)]
    fn begun(&self) -> u64 {
        Ledger::next(self)
    }

    #[inline(always)]
    fn find(&self, act: ActId) -> Option<Activation> {
        Ledger::find(self, act)
    }

    #[inline(always)]
    fn begin(&mut self, worker: u32, op: OpId) -> Result<ActId, Infallible> {
        Ok(Ledger::begin(self, worker, op))
    }

    #[inline(always)]
    fn end_own(&mut self, worker: u32, act: ActId) -> Result<Activation, EndFault> {
        Ledger::end_own(self, worker, act)
    }
}
