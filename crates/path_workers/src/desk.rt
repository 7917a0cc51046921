//! One system shared by several threads, under one lock.

ghost use Rattle.std.specs.Prelude.{◌≡◌, ◌↔◌, ◌≤◌, [], true, None, length, IsOk, IfOk, IfErr, IfSome, OnErr, MatchResult};
ghost use Rattle.path_model.specs.declared.journal.Reply.TheVariants as replies;
ghost use Rattle.path_workers.specs.Attempts.{receipts_then, finishes_open};
ghost use Rattle.path_workers.specs.Later.{IsLater};
ghost use Rattle.path_workers.specs.Settled.{IsSettled};
ghost use Rattle.path_workers.specs.Faults.{IsFault};

use crate::answer::Answer;
use crate::desk_name::DeskName;
use crate::pass::Pass;
use crate::settle::{SettleFault, Settled, compared};
use crate::shared::SharedSystem;
use crate::steps::Steps;
use path_model::{Attempt, OutOfMemory};
use std::alloc::Allocator;
use std::marker::Model;
use std::sync::ledger::{Blank, Ledger};
use std::sync::{Mutex, Wait};

/// One system shared by several threads, under one lock.
///
/// The type parameter `L` names this desk: its passes have it too, so a pass can't be used at another desk. Contracts see how many
/// lines the system had when the desk was opened. Whatever the threads do, there is one system under the lock, so its journal is
/// honest whenever the lock is free. A desk may be shared among threads if its system may be sent to one.
#[derive(Drop)]
pub struct Desk<L: DeskName, S: Steps> {
    shared: Mutex<SharedSystem<L, S>>,
    before: u64,
}

impl<L: DeskName, S: Steps> Model for Desk<L, S> {
    ghost use Rattle.std.specs.Prelude.{◌≡◌, ℕ, length};

    ghost Value = { ℕ };

    ghost view = { λ d. d.before };

    ghost invariant = { λ d. d.before ≡ length L.opened.journal };
}

impl<L: DeskName, S: Steps> Desk<L, S> {
    /// Opens a desk over the system as it is now. The lines that it has already need no receipts.
    ///
    /// The blank must be a new one with `u64::MAX` parts: `Blank::new(u64::MAX)`. It names the desk. Neither it nor this call
    /// allocates.
    pub fn open(system: S, blank: Blank) -> Desk<L, S>
        requires name { blank.name ≡ L.name }
        requires parts { (blank.parts ≡ L.parts) × (blank.parts ≡ 18446744073709551615) }
        requires opened { S.account system ≡ L.opened }
        ensures { result ≡ length (S.account system).journal }
    {
        let before = system.journal().len() as u64;
        Desk {
            shared: Mutex::new(SharedSystem::open(system, blank)),
            before,
        }
    }

    /// Makes a pass of this desk for this worker, without receipts. Several passes may belong to one worker.
    ///
    /// Attempts allocate memory for receipts from `alloc`. This call allocates nothing, and waits for nobody.
    pub fn pass<A: Allocator + Copy>(&self, alloc: A, worker: u32) -> Pass<L, A>
        ensures { (result.worker ≡ worker) × (result.receipts ≡ []) }
    {
        Pass::new(alloc, worker)
    }

    /// Makes one attempt of the pass's worker: first allocates memory for its receipt, then takes the lock, and then lets the system
    /// make one [`step`](Steps::step). The pass gains one receipt with the place of the line, unless there is no room for a line.
    ///
    /// Fails only if allocation fails for receipts. Nothing was attempted then, and the pass is as it was; the same attempt may be
    /// made again. A start also allocates memory for the receipt of its finish. So the finish of what this pass has started and not
    /// finished never gets `OutOfMemory`.
    ///
    /// Waits while another thread has the lock, for an unknown time. Costs the step, one lock, and the memory for receipts: at most one
    /// and a half for each receipt and as many again, as a growing `Vec` has.
    pub fn attempt<R: Wait, A: Allocator + Copy>(
        &self,
        rt: &R,
        pass: &mut Pass<L, A>,
        attempt: Attempt,
    ) -> Result<Answer, OutOfMemory>
        ensures worker { pass.new.worker ≡ pass.old.worker }
        ensures gained { IfOk result (λ a. pass.new.receipts ≡ receipts_then pass.old.receipts attempt a.place a.reply) }
        ensures no_room { IfOk result (λ a. (a.place ≡ None) ↔ (a.reply ≡ replies.NoRoom)) }
        ensures here { IfOk result (λ a. IfSome a.place (λ p. self.now ≤ p)) }
        ensures kept { OnErr result (pass.new ≡ pass.old) }
        ensures finish { finishes_open attempt pass.old.receipts ≡ true → IsOk result }
    {
        pass.reserve(attempt)?;
        pass.make(&mut self.shared.lock(rt), attempt)
    }

    /// Closes the desk, and compares the lines since it was opened with the receipts of these passes, which may be of any desk.
    ///
    /// The desk is settled if and only if each line is equal to exactly one receipt, by place, worker, attempt and reply, and no receipt
    /// is left over. The passes then come back as they were, in their order. Else fails with `MissingPass` if the numbers of lines and
    /// receipts differ, and with `Mismatch` for the first line at fault if they don't; the passes are dropped. The system comes back
    /// either way.
    ///
    /// Allocates nothing and waits for nobody. A desk settled by its own passes costs a look at each line and each receipt, and for each
    /// line one comparison for every doubling of the passes. A `Mismatch` costs a binary search in each pass for each line.
    pub fn settle<M: Ledger, A: Allocator + Copy>(
        self,
        passes: Vec<Pass<M, A>, A>,
    ) -> Result<Settled<M, S, A>, (SettleFault, S)>
        ensures passes { IfOk result (λ s. s.passes.items ≡ passes.items) }
        ensures system { MatchResult result (λ s. IsLater L.opened (S.account s.system)) (λ e. IsLater L.opened (S.account e.1)) }
        ensures settled { IfOk result (λ s. IsSettled self (S.account s.system).journal passes.items) }
        ensures fault { IfErr result (λ e. IsFault self (S.account e.1).journal passes.items e.0) }
    {
        let Desk { shared, before } = self;
        compared(shared.into_inner().close(), before, passes)
    }
}
