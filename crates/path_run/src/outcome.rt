//! How processes end, and the outcome of a run.

ghost use Rattle.std.specs.Prelude.{◌≡◌};

use path_model::{OpId, Reply};
use path_workers::{ClosedPass, SettleFault, Steps};
use std::alloc::{Allocator, Global};

/// How a process ended.
#[derive(Clone, Copy, Debug, PartialEq, Eq)]
pub enum End {
    /// It has taken all its steps.
    Done,
    /// It waited for this operation when all processes that hadn't ended were waiting. It keeps what it had entered.
    Stalled(OpId),
    /// The journal had no room for a step.
    NoRoom,
    /// A step got this reply.
    Faulted(Reply),
    /// The turnstile refused a step.
    Stopped,
    /// Allocation failed for the receipt of a step.
    NoMemory,
    /// No thread could be started for it.
    NotStarted,
}

/// The outcome of a run: the system, and for each process in order its receipts and how it ended.
#[derive(Drop)]
pub struct Outcome<S: Steps, A: Allocator + Copy = Global> {
    /// The system, as the processes left it.
    pub system: S,
    /// The receipts of each process.
    pub passes: Vec<ClosedPass<A>, A>,
    /// How each process ended.
    pub ends: Vec<End, A>,
}

impl<S: Steps, A: Allocator + Copy> Outcome<S, A> {
    /// The system without the receipts.
    pub(crate) fn into_system(self) -> S
        ensures { result ≡ self.system }
    {
        let Outcome {
            system,
            passes: _,
            ends: _,
        } = self;
        system
    }
}

/// A run that has ended, and whether its receipts agree with its journal.
#[derive(Drop)]
pub struct Ended<S: Steps, A: Allocator + Copy = Global> {
    /// The system, the receipts of each process, and how each ended.
    pub outcome: Outcome<S, A>,
    /// The first place where the receipts don't agree with the journal. No run has shown one.
    pub fault: Option<SettleFault>,
}

/// Why there is no outcome.
#[derive(Drop)]
pub enum RunFault<S: Steps> {
    /// An allocation failed before any process began. The system is as it was.
    OutOfMemory(S),
    /// The receipts of the processes don't agree with the journal. No run has shown this.
    Unsettled(SettleFault, S),
}
