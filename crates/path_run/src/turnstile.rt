//! Who may take the next step.

ghost use Rattle.std.specs.Prelude.{◌≡◌, ℕ, true, IsFalse};

/// Decides before each step of each process whether the process may take it.
///
/// Several processes may ask at once. None of them holds the lock of the run while it asks.
pub trait Turnstile: Sync {
    /// Whether it may refuse the process of this number its step of this number. It may refuse each, unless it says more.
    ghost may_stop: { Self → ℕ → ℕ → Type 0 } = { λ _ _ _. Unit {0} };

    /// Whether the process of this number may take its step of this number; both count from 0. Called once for each step, and not again
    /// when a blocked enter is tried again. A process that is refused ends.
    fn before(&self, worker: u32, step: u32) -> bool
        ensures stopped { IsFalse result → may_stop self.now worker step };
}

/// Lets everyone through.
#[derive(Clone, Copy, Debug, PartialEq, Eq)]
pub struct AlwaysOpen;

impl Turnstile for AlwaysOpen {
    ghost may_stop = { λ _ _ _. ⊥ };

    fn before(&self, _worker: u32, _step: u32) -> bool
        ensures { result ≡ true }
    {
        true
    }
}
