//! Attempts of workers, their replies, and the lines that record them.

ghost use Rattle.std.specs.Prelude.{IsTrue, IsFalse};
ghost use Rattle.path_model.specs.Rooms.{IsRoom, IsBadRoom};

use crate::ids::{ActId, OpId, PathId};
use std::alloc::{Allocator, Global};

/// The most lines that a journal may have room for.
pub const MOST_LINES: u32 = 1048576;

/// Whether a journal can have room for this many lines: 1 to [`MOST_LINES`].
pub fn is_room(lines: u32) -> bool
    ensures room { IsTrue result → IsRoom lines }
    ensures bad { IsFalse result → IsBadRoom lines }
{
    lines > 0 && lines <= MOST_LINES
}

/// A request to the device of a resource.
#[derive(Clone, Copy, Debug, PartialEq, Eq)]
pub enum Verb {
    /// Puts a number in.
    Put(u64),
    /// Takes a number out.
    Take,
    /// Looks at a number, which stays.
    Look,
    /// Adds to the total.
    Add(u64),
}

/// An attempt of a worker.
#[derive(Clone, Copy, Debug, PartialEq, Eq)]
pub enum Attempt {
    /// To start an operation.
    Start(OpId),
    /// To use the device of the activation's resource.
    Apply(ActId, Verb),
    /// To finish an activation.
    Finish(ActId),
}

/// The reply to an attempt.
#[derive(Clone, Copy, Debug, PartialEq, Eq)]
pub enum Reply {
    /// The start is admitted as this activation.
    Started(ActId),
    /// This path is the first that blocks the start.
    Blocked(PathId),
    /// The operation isn't declared.
    UnknownOperation,
    /// The device answered with this number.
    Used(u64),
    /// The law of the device doesn't offer the verb.
    NotOffered,
    /// The queue is empty.
    Empty,
    /// The queue is full.
    Full,
    /// The total would pass `u64::MAX`.
    Overflow,
    /// The device failed although its law would have served.
    DeviceFailed,
    /// The activation is over.
    Finished,
    /// No live activation has this number.
    Stale,
    /// The activation is another worker's.
    NotYours,
    /// The journal has no room for the attempt.
    NoRoom,
}

/// A line of a journal: the worker, the attempt and the reply.
#[derive(Clone, Copy, Debug, PartialEq, Eq)]
pub struct Line {
    /// The worker.
    pub worker: u32,
    /// The worker's attempt.
    pub attempt: Attempt,
    /// The reply that the worker got.
    pub reply: Reply,
}

/// The journal in a text: its lines and, in version 2, how many lines the journal has room for.
#[derive(Drop)]
pub struct JournalText<A: Allocator + Copy = Global> {
    /// The room that the text names, 1 to [`MOST_LINES`]; `None` in version 1, which names none.
    pub room: Option<u32>,
    /// The lines, in order.
    pub lines: Vec<Line, A>,
}

/// An operation that a worker started and hasn't finished.
#[derive(Clone, Copy, Debug, PartialEq, Eq)]
pub struct Activation {
    /// Its number.
    pub act: ActId,
    /// The worker that started it.
    pub worker: u32,
    /// The operation that was started.
    pub op: OpId,
}
