//! The parts of a trimmed table.

use path_code::{Epilogue, Prologue};
use path_model::{OpId, PathId};
use std::alloc::{Allocator, Global};

/// What an operation of a path still does.
#[derive(Clone, Copy, Debug, PartialEq, Eq)]
pub struct LeanOp {
    /// The operation.
    pub op: OpId,
    /// What a start waits on; `None` if it always passes and does nothing.
    pub prologue: Option<Prologue>,
    /// What a finish gives back; `None` if it does nothing.
    pub epilogue: Option<Epilogue>,
}

/// What is left of a path that is kept, with the numbers of the file.
#[derive(Drop)]
pub struct LeanPath<A: Allocator + Copy = Global> {
    /// The path.
    pub path: PathId,
    /// The numbers and the opening values of the semaphores that are kept, ascending.
    pub semaphores: Vec<(u16, u16), A>,
    /// The numbers of the counters that are kept, ascending.
    pub counters: Vec<u16, A>,
    /// Its operations, in the order of its names.
    pub ops: Vec<LeanOp, A>,
}

/// Something that was removed.
#[derive(Clone, Copy, Debug, PartialEq, Eq)]
pub enum Removed {
    /// The own semaphore of a path that is one pair of braces.
    Semaphore(u16),
    /// The counter of those braces.
    Counter(u16),
    /// The mutex of a pair of braces.
    Mutex(u16),
    /// The first of these two paths: it has the tree of the second, which comes earlier and is the first path with that tree.
    SamePath(PathId, PathId),
}

/// What becomes of a path.
#[derive(Clone, Copy, Debug, PartialEq, Eq)]
pub(crate) enum Fate {
    /// It is removed: this is the first path with its tree.
    SameAs(PathId),
    /// It is kept, and this many things of it are removed.
    Stays(usize),
}
