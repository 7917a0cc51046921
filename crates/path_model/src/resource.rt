//! The laws of resources.

/// How the device of a resource serves its verbs.
#[derive(Clone, Copy, Debug, PartialEq, Eq)]
pub enum Law {
    /// One number, which can be put and looked at.
    Cell,
    /// A total, which can be added to and looked at.
    Tally,
    /// At most this many numbers, first in, first out.
    Queue(u32),
}
