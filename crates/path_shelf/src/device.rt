//! Devices, and their contract.

ghost use Rattle.std.specs.Prelude.{◌≡◌, slice_get};
ghost use Rattle.path_model.specs.Devices.{Fits};
ghost use Rattle.path_shelf.specs.States.{State, Acts};

use path_model::{Law, Verb};

/// Why a device doesn't serve.
#[derive(Clone, Copy, Debug, PartialEq, Eq)]
pub enum ActFault {
    /// The law of the device doesn't offer the verb.
    NotOffered,
    /// The queue is empty.
    Empty,
    /// The queue is full.
    Full,
    /// The total would pass `u64::MAX`.
    Overflow,
    /// The device failed although its law would have served.
    Failed,
}

/// A device behind a resource. It has a law, contents, which are numbers, and a count of its failures: contracts see
/// these three as its `state`. No call may allocate.
pub trait Device: Drop {
    ghost state: { Self → State };

    /// The law, which never changes. A cell and a tally contain one number, a queue at most as many as its capacity.
    fn law(&self) -> Law
        ensures law { result ≡ (state self.now).law }
        ensures fits { Fits (state self.now).law (state self.now).contents };

    /// How often the device has failed. The count may stay at `u64::MAX` once it is there.
    fn failures(&self) -> u64
        ensures { result ≡ (state self.now).failures };

    /// The number at a place of the contents, counted from 0; `None` past their end.
    fn at(&self, place: u32) -> Option<u64>
        ensures { result ≡ slice_get (state self.now).contents place };

    /// Serves the verb and changes the contents as the table of the laws says, and returns the number that the table gives. An error
    /// leaves the contents as they are.
    ///
    /// Fails with `NotOffered`, `Empty`, `Full` or `Overflow` exactly when that is the table's refusal. May fail with `Failed` only if
    /// the table would serve, and if `failures` rises by one in the call or is at `u64::MAX`.
    fn act(&mut self, verb: Verb) -> Result<u64, ActFault>
        ensures { Acts (state self.old) verb result (state self.new) };
}
