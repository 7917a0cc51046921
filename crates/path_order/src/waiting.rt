//! Who waits.

ghost use Rattle.std.specs.Prelude.{◌≡◌, ◌≤◌, length, false};
ghost use Rattle.path_order.specs.Waiting as spec;
ghost use Rattle.path_order.specs.Waiting.{NobodyShutsOut};

/// One who waits for a start, as `wanzoche.h` has it.
#[repr(C)]
#[derive(Clone, Copy, Debug, PartialEq, Eq)]
pub struct Waiter {
    /// The operation that it asks for, by its number.
    pub operation: u32,
    /// Those of a higher priority come first, those of one priority in the order of arrival.
    pub priority: u32,
    /// When it came, by the caller's clock.
    pub arrived: u64,
    /// When its door was last shut, by the same clock: starts of those who arrived later are withheld for it.
    pub shut_at: u64,
}

/// How many of those who wait come before one of this priority who comes now.
pub fn place_for(waiting: &[Waiter], priority: u32) -> usize
    ensures place { result ≡ spec.place_for priority waiting.now }
    ensures within { result ≤ length waiting.now }
{
    for (place, waiter) in waiting.iter().enumerate() {
        if waiter.priority < priority {
            return place;
        }
    }
    waiting.len()
}

/// Whether one of those ahead has shut its door before this arrival.
pub fn is_shut_out(ahead: &[Waiter], arrived: u64) -> bool
    ensures { result ≡ false → NobodyShutsOut ahead.now arrived }
{
    for waiter in ahead {
        if waiter.shut_at < arrived {
            return true;
        }
    }
    false
}
