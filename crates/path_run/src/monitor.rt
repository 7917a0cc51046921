//! What the processes of a run share, under one lock.

ghost use Rattle.std.specs.Prelude.{◌≡◌, ◌≢◌, ◌+◌, ◌-◌, ◌++◌, List, min, true, false, IsOk};
ghost use Rattle.path_workers.specs.declared.answer.Receipt.{Receipt as Note};
ghost use Rattle.path_workers.specs.Attempts.{finishes_open};
ghost use Rattle.path_run.specs.Inner.Parts.{HasBegun, HasGained, IsCountedBy, IsMarkedBy, IsOutlook, IsUnstoppedStart};
ghost use Rattle.path_run.specs.Waiting.{IsMarked};

use crate::outcome::End;
use path_model::{ActId, Attempt, OpId, OutOfMemory, Reply};
use path_workers::{DeskName, Pass, SharedSystem, Steps};
use std::alloc::Allocator;
use std::sync::{Condvar, Mutex, Wait};

/// What came of a start.
pub enum Admission {
    /// It was admitted.
    Entered(ActId),
    /// A path blocked it, and the process was marked as waiting, when so many finishes had been admitted.
    Blocked(u64),
    /// The process ends.
    Ended(End),
}

/// What a process that a path blocked learns of the others.
#[derive(Clone, Copy, Debug, PartialEq, Eq)]
pub enum Outlook {
    /// No finish has been admitted since, and somebody can still finish.
    Waits,
    /// A finish has been admitted since.
    Freed,
    /// No finish has been admitted since, and none will be: everybody waits.
    Stalled,
}

/// What is under the lock: the system, and how many processes wait.
#[derive(Drop)]
pub struct RunState<L: DeskName, S: Steps> {
    shared: SharedSystem<L, S>,
    /// How many finishes were admitted.
    finishes: u64,
    /// How many processes wait; each has tried since the last admitted finish.
    waiting: u64,
    /// How many processes haven't ended.
    left: u64,
    /// Whether it ever came to this: somebody hadn't ended, and each that hadn't was waiting.
    pub stalled: bool,
}

impl<L: DeskName, S: Steps> RunState<L, S> {
    /// The state of a run of `processes` processes, none of which waits.
    fn new(shared: SharedSystem<L, S>, processes: u64) -> RunState<L, S>
        ensures shared { result.shared ≡ shared }
        ensures left { (result.left ≡ processes) × (result.waiting ≡ 0) × (result.stalled ≡ false) }
    {
        RunState {
            shared,
            finishes: 0,
            waiting: 0,
            left: processes,
            stalled: false,
        }
    }

    /// Makes one attempt. The pass gains its receipt, or none for `NoRoom`. Fails only if allocation fails.
    fn make_attempt<A: Allocator + Copy>(
        &mut self,
        pass: &mut Pass<L, A>,
        attempt: Attempt,
    ) -> Result<Reply, OutOfMemory>
        ensures same { (self.new.finishes ≡ self.old.finishes) × (self.new.waiting ≡ self.old.waiting)
            × (self.new.left ≡ self.old.left) × (self.new.stalled ≡ self.old.stalled) }
        ensures worker { pass.new.worker ≡ pass.old.worker }
        ensures run { HasGained attempt result pass.old.receipts pass.new.receipts }
        ensures finish { finishes_open attempt pass.old.receipts ≡ true → IsOk result }
    {
        let answer = pass.make(&mut self.shared, attempt)?;
        Ok(answer.reply)
    }

    /// Makes one attempt. If it is an admitted finish, nobody waits for one any more. Fails only if allocation fails.
    pub fn attempt<A: Allocator + Copy>(
        &mut self,
        pass: &mut Pass<L, A>,
        attempt: Attempt,
    ) -> Result<Reply, OutOfMemory>
        ensures counted { IsCountedBy result self.old.finishes self.new.finishes self.old.waiting self.new.waiting }
        ensures same { (self.new.left ≡ self.old.left) × (self.new.stalled ≡ self.old.stalled) }
        ensures worker { pass.new.worker ≡ pass.old.worker }
        ensures run { HasGained attempt result pass.old.receipts pass.new.receipts }
        ensures finish { finishes_open attempt pass.old.receipts ≡ true → IsOk result }
    {
        let reply = self.make_attempt(pass, attempt)?;
        if let Reply::Finished = reply {
            self.finish_one();
        }
        Ok(reply)
    }

    /// Makes a start. If a path blocks it, the process is marked as waiting in the same call, so that no finish comes between the
    /// refusal and the mark.
    pub fn start<A: Allocator + Copy>(&mut self, pass: &mut Pass<L, A>, op: OpId) -> Admission
        ensures marked { IsMarkedBy result self.old.finishes self.old.waiting self.new.waiting self.new.left self.old.stalled
            self.new.stalled }
        ensures same { (self.new.finishes ≡ self.old.finishes) × (self.new.left ≡ self.old.left) }
        ensures worker { pass.new.worker ≡ pass.old.worker }
        ensures run { (gained : List Note) × (pass.new.receipts ≡ pass.old.receipts ++ gained) × HasBegun op gained result }
        ensures unstopped { IsUnstoppedStart result }
    {
        let Ok(reply) = self.make_attempt(pass, Attempt::Start(op)) else {
            return Admission::Ended(End::NoMemory);
        };
        match reply {
            Reply::Started(act) => Admission::Entered(act),
            Reply::Blocked(_) => {
                self.wait_one();
                Admission::Blocked(self.finishes)
            }
            Reply::NoRoom => Admission::Ended(End::NoRoom),
            other => Admission::Ended(End::Faulted(other)),
        }
    }

    /// The outlook of a process that was blocked when `seen` finishes had been admitted.
    pub fn outlook(&self, seen: u64) -> Outlook
        ensures { IsOutlook seen self.now.finishes self.now.stalled result }
    {
        if self.finishes != seen {
            Outlook::Freed
        } else if self.stalled {
            Outlook::Stalled
        } else {
            Outlook::Waits
        }
    }

    /// One more process waits for a finish.
    fn wait_one(&mut self)
        ensures same { (self.new.shared ≡ self.old.shared) × (self.new.finishes ≡ self.old.finishes) × (self.new.left ≡ self.old.left) }
        ensures waiting { self.new.waiting ≡ min 18446744073709551615 (self.old.waiting + 1) }
        ensures stalled { IsMarked self.old.stalled self.new.waiting self.new.left self.new.stalled }
    {
        self.waiting = self.waiting.saturating_add(1);
        self.mark();
    }

    /// One more process has ended.
    fn end_one(&mut self)
        ensures same { (self.new.shared ≡ self.old.shared) × (self.new.finishes ≡ self.old.finishes)
            × (self.new.waiting ≡ self.old.waiting) }
        ensures left { self.new.left ≡ self.old.left - 1 }
        ensures stalled { IsMarked self.old.stalled self.new.waiting self.new.left self.new.stalled }
    {
        self.left = self.left.saturating_sub(1);
        self.mark();
    }

    /// A finish was admitted, so nobody waits for one any more.
    fn finish_one(&mut self)
        ensures same { (self.new.shared ≡ self.old.shared) × (self.new.left ≡ self.old.left) × (self.new.stalled ≡ self.old.stalled) }
        ensures finishes { self.new.finishes ≢ self.old.finishes }
        ensures waiting { self.new.waiting ≡ 0 }
    {
        self.finishes = self.finishes.wrapping_add(1);
        self.waiting = 0;
    }

    /// Sets `stalled` if somebody hasn't ended and each that hasn't waits.
    fn mark(&mut self)
        ensures same { (self.new.shared ≡ self.old.shared) × (self.new.finishes ≡ self.old.finishes) × (self.new.waiting ≡ self.old.waiting)
            × (self.new.left ≡ self.old.left) }
        ensures stalled { IsMarked self.old.stalled self.old.waiting self.old.left self.new.stalled }
    {
        if self.left > 0 && self.waiting >= self.left {
            self.stalled = true;
        }
    }

    /// The shared system, after all processes have ended.
    pub fn into_shared(self) -> SharedSystem<L, S>
        ensures { result ≡ self.shared }
    {
        let RunState {
            shared,
            finishes: _,
            waiting: _,
            left: _,
            stalled: _,
        } = self;
        shared
    }
}

/// The lock, and the condition on which processes wait for a finish.
pub struct Monitor<L: DeskName, S: Steps> {
    pub state: Mutex<RunState<L, S>>,
    pub freed: Condvar,
}

impl<L: DeskName, S: Steps> Monitor<L, S> {
    /// A monitor for `processes` processes.
    pub fn new(shared: SharedSystem<L, S>, processes: u64) -> Monitor<L, S> {
        Monitor {
            state: Mutex::new(RunState::new(shared, processes)),
            freed: Condvar::new(),
        }
    }

    /// Notes that one more process has ended, and wakes all that wait.
    pub fn end_one<R: Wait>(&self, rt: &R) {
        self.state.lock(rt).end_one();
        self.freed.notify_all();
    }

    /// The shared system, after all processes have ended.
    pub fn into_shared(self) -> SharedSystem<L, S> {
        let Monitor { state, freed: _ } = self;
        state.into_inner().into_shared()
    }
}
