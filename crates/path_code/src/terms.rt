//! What an operation does to semaphores, at its start and at its finish.

use path_model::OpId;

/// What the start of an operation does in one path. Semaphores and pairs of braces go by their numbers, which count from 0 through
/// the file; there are at most 32,768 of each. A pair of braces has a counter and a mutex of its number (Campbell and Habermann, 1974).
#[derive(Clone, Copy, Debug, PartialEq, Eq)]
pub enum Prologue {
    /// `P(s)`: waits until the semaphore is above 0, and takes 1 from it.
    P(u16),
    /// `PP(c,m,P(s))`: counts one more execution; the first one does `P(s)`.
    PP {
        /// The pair of braces.
        pair: u16,
        /// The semaphore.
        semaphore: u16,
    },
    /// `P(u); PP(c,m,P(s))`: also keeps the number of executions within the bound.
    PPN {
        /// The pair of braces.
        pair: u16,
        /// The semaphore.
        semaphore: u16,
        /// The semaphore of the bound.
        bound: u16,
    },
}

/// What the finish of an operation does in one path; the numbers are as in [`Prologue`].
#[derive(Clone, Copy, Debug, PartialEq, Eq)]
pub enum Epilogue {
    /// `V(s)`: gives 1 to the semaphore.
    V(u16),
    /// `VV(c,m,V(s))`: counts one execution less; the last one does `V(s)`.
    VV {
        /// The pair of braces.
        pair: u16,
        /// The semaphore.
        semaphore: u16,
    },
    /// `VV(c,m,V(s)); V(u)`: also gives 1 to the semaphore of the bound.
    VVN {
        /// The pair of braces.
        pair: u16,
        /// The semaphore.
        semaphore: u16,
        /// The semaphore of the bound.
        bound: u16,
    },
}

/// The code of one operation of a path.
#[derive(Clone, Copy, Debug, PartialEq, Eq)]
pub struct OpCode {
    /// The operation.
    pub op: OpId,
    /// What its start does.
    pub prologue: Prologue,
    /// What its finish does.
    pub epilogue: Epilogue,
}
