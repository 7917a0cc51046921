//! Events: an execution of an operation begins or ends.

use crate::ids::OpId;

/// An execution of an operation began or ended. A list of events is a history.
#[derive(Clone, Copy, Debug, PartialEq, Eq)]
pub enum Event {
    /// An execution began.
    Began(OpId),
    /// An execution ended.
    Ended(OpId),
}
