//! The reply to an attempt at a desk, and the receipt that stays of it.

use path_model::{Attempt, Reply};

/// The reply to an attempt at a desk.
#[derive(Clone, Copy, Debug, PartialEq, Eq)]
pub struct Answer {
    /// The place of its line in the journal, counted from 0; `None` if there was no room for a line.
    pub place: Option<u64>,
    /// The reply that the journal owed to the attempt.
    pub reply: Reply,
}

/// A line of the journal, as its worker got it.
#[derive(Clone, Copy, Debug, PartialEq, Eq)]
pub struct Receipt {
    /// The line's place in the journal, counted from 0.
    pub place: u64,
    /// The worker's attempt.
    pub attempt: Attempt,
    /// The reply that the worker got.
    pub reply: Reply,
}
