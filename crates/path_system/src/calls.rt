//! One call for each attempt, which tells only the refusals that this attempt can meet; and what can be asked without an attempt.

ghost use Rattle.std.specs.Prelude.{◌≡◌, ◌+◌, length, is_some, IfErr};
ghost use Rattle.path_model.specs.declared.journal.Attempt.TheVariants as attempts;
ghost use Rattle.path_model.specs.Asked.{resource_asked};
ghost use Rattle.path_model.specs.Declarations.{paths_of};
ghost use Rattle.path_model.specs.Legal.{Legal};
ghost use Rattle.path_model.specs.Journals.{activation_of, admitted_history, live, with_line};
ghost use Rattle.path_model.specs.Segments.{OwedBehind, joined, taken_behind};
ghost use Rattle.path_gate.specs.Standings.{IsAt};
ghost use Rattle.path_shelf.specs.States.{MayFail};
ghost use Rattle.path_system.specs.declared.calls.UseRefusal.TheVariants as uses;
ghost use Rattle.path_system.specs.Accounts.{all_lines, HasFailed, IsSystem, StayBut};
ghost use Rattle.path_system.specs.Before.{BehindEach, earlier_behind, lines_behind};
ghost use Rattle.path_system.specs.Calls.{finish_reply, start_reply, use_reply, AllowsStart, IsFinishReply, IsStartReply, IsUseReply};

use crate::controller::Controller;
use crate::system::System;
use path_gate::Gate;
use path_model::{ActId, Activation, Attempt, OpId, PathId, Reply, Verb};
use path_shelf::Device;
use std::alloc::Allocator;
use thiserror::Error;

/// Why a start isn't admitted.
#[derive(Clone, Copy, Debug, PartialEq, Eq, Error)]
pub enum StartRefusal {
    /// The room lacks two places, or 4,294,967,295 starts were admitted. Nothing was written.
    #[error("no room")]
    NoRoom,
    /// The operation isn't declared.
    #[error("unknown operation")]
    UnknownOperation,
    /// This is the first path in the file that forbids the start now.
    #[error("blocked by path {number}", number = .0.0)]
    Blocked(PathId),
}

/// Why a use has no answer.
#[derive(Clone, Copy, Debug, PartialEq, Eq, Error)]
pub enum UseRefusal {
    /// The room lacks a place. Nothing was written.
    #[error("no room")]
    NoRoom,
    /// No live activation has the number.
    #[error("stale")]
    Stale,
    /// The activation is another worker's.
    #[error("not yours")]
    NotYours,
    /// The device doesn't offer the verb.
    #[error("not offered")]
    NotOffered,
    /// The queue is empty.
    #[error("empty")]
    Empty,
    /// The queue is full.
    #[error("full")]
    Full,
    /// The total would pass `u64::MAX`.
    #[error("overflow")]
    Overflow,
    /// The device has failed.
    #[error("device failed")]
    DeviceFailed,
}

/// Why nothing is finished.
#[derive(Clone, Copy, Debug, PartialEq, Eq, Error)]
pub enum FinishRefusal {
    /// The room lacks a place. Never of one's own live activation. Nothing was written.
    #[error("no room")]
    NoRoom,
    /// No live activation has the number.
    #[error("stale")]
    Stale,
    /// The activation is another worker's.
    #[error("not yours")]
    NotYours,
}

/// What a reply says to a start.
fn start_told(reply: Reply) -> Result<ActId, StartRefusal>
    ensures { IsStartReply reply → start_reply result ≡ reply }
{
    match reply {
        Reply::Started(act) => Ok(act),
        Reply::Blocked(path) => Err(StartRefusal::Blocked(path)),
        Reply::UnknownOperation => Err(StartRefusal::UnknownOperation),
        _ => Err(StartRefusal::NoRoom),
    }
}

/// What a reply says to a use.
fn use_told(reply: Reply) -> Result<u64, UseRefusal>
    ensures { IsUseReply reply → use_reply result ≡ reply }
{
    match reply {
        Reply::Used(answer) => Ok(answer),
        Reply::Stale => Err(UseRefusal::Stale),
        Reply::NotYours => Err(UseRefusal::NotYours),
        Reply::NotOffered => Err(UseRefusal::NotOffered),
        Reply::Empty => Err(UseRefusal::Empty),
        Reply::Full => Err(UseRefusal::Full),
        Reply::Overflow => Err(UseRefusal::Overflow),
        Reply::DeviceFailed => Err(UseRefusal::DeviceFailed),
        _ => Err(UseRefusal::NoRoom),
    }
}

/// What a reply says to a finish.
fn finish_told(reply: Reply) -> Result<(), FinishRefusal>
    ensures { IsFinishReply reply → finish_reply result ≡ reply }
{
    match reply {
        Reply::Finished => Ok(()),
        Reply::Stale => Err(FinishRefusal::Stale),
        Reply::NotYours => Err(FinishRefusal::NotYours),
        _ => Err(FinishRefusal::NoRoom),
    }
}

impl<D: Device, A: Allocator + Copy> System<D, A> {
    /// Starts an operation for a worker, as [`step`](System::step) does, and returns the number of the activation.
    pub fn start(&mut self, worker: u32, op: OpId) -> Result<ActId, StartRefusal>
        ensures owed { OwedBehind self.old.declaration self.old.room self.old.openings (joined self.old.earlier) self.old.journal
            worker (attempts.Start op) (start_reply result) }
        ensures journal { self.new ≡ record self.old {
          journal = with_line self.old.journal worker (attempts.Start op) (start_reply result);
        } }
        ensures system { IsSystem self.new }
    {
        start_told(self.step(worker, Attempt::Start(op)))
    }

    /// Uses a live activation of a worker, as [`step`](System::step) does, and returns the device's answer.
    pub fn use_device(&mut self, worker: u32, act: ActId, verb: Verb) -> Result<u64, UseRefusal>
        ensures owed { OwedBehind self.old.declaration self.old.room self.old.openings (joined self.old.earlier) self.old.journal
            worker (attempts.Apply act verb) (use_reply result) }
        ensures journal { self.new ≡ record self.old {
          journal = with_line self.old.journal worker (attempts.Apply act verb) (use_reply result);
          failures = self.new.failures;
        } }
        ensures failures { StayBut (resource_asked self.old.declaration (all_lines self.old) (attempts.Apply act verb) (use_reply result))
            self.old.failures self.new.failures }
        ensures failed { IfErr result (λ refusal. (refusal ≡ uses.DeviceFailed)
            → HasFailed (resource_asked self.old.declaration (all_lines self.old) (attempts.Apply act verb) (use_reply result))
            self.old.failures self.new.failures) }
        ensures may_fail { IfErr result (λ refusal. (refusal ≡ uses.DeviceFailed) → MayFail D.state) }
        ensures system { IsSystem self.new }
    {
        use_told(self.step(worker, Attempt::Apply(act, verb)))
    }

    /// Finishes a live activation of a worker, as [`step`](System::step) does. It is admitted of the worker's own live activation,
    /// whatever room is left.
    pub fn finish(&mut self, worker: u32, act: ActId) -> Result<(), FinishRefusal>
        ensures owed { OwedBehind self.old.declaration self.old.room self.old.openings (joined self.old.earlier) self.old.journal
            worker (attempts.Finish act) (finish_reply result) }
        ensures journal { self.new ≡ record self.old {
          journal = with_line self.old.journal worker (attempts.Finish act) (finish_reply result);
        } }
        ensures system { IsSystem self.new }
    {
        finish_told(self.step(worker, Attempt::Finish(act)))
    }
}

impl<D: Device, A: Allocator + Copy> Controller<D, A> {
    /// Whether no path forbids a start of the operation now; else the first path in the file that does. Room plays no part, nor whether
    /// the operation is declared: no path names one that isn't. Allocates nothing. The cost is one look at a prologue for each path
    /// that names the operation.
    pub fn can_start(&self, op: OpId) -> Result<(), PathId>
        ensures { BehindEach self.now (λ openings before.
            AllowsStart self.now.declaration (admitted_history (lines_behind before self.now)) op result) }
    {
        self.parts.can_start(op)
    }

    /// The gate, which is at the history of all lines: it can be asked what each path forbids now. Takes constant time.
    pub fn gate(&self) -> &Gate<A>
        ensures paths { result.now.paths ≡ paths_of self.now.declaration }
        ensures at { BehindEach self.now (λ openings before. IsAt result.now (admitted_history (lines_behind before self.now))) }
        ensures legal { BehindEach self.now (λ openings before.
            Legal (paths_of self.now.declaration) (admitted_history (lines_behind before self.now))) }
    {
        self.parts.gate()
    }

    /// The live activations, in the order of their starts. Takes constant time.
    pub fn live(&self) -> &[Activation]
        ensures { BehindEach self.now (λ openings before. result.now ≡ live (lines_behind before self.now)) }
    {
        self.parts.live()
    }

    /// Whether an activation of this number is live. The cost is logarithmic in the number of live ones.
    pub fn is_live(&self, act: ActId) -> bool
        ensures { BehindEach self.now (λ openings before.
            result ≡ is_some (activation_of act (live (lines_behind before self.now)))) }
    {
        self.parts.find(act).is_some()
    }

    /// How many activations are live. Takes constant time.
    pub fn live_count(&self) -> u32
        ensures { BehindEach self.now (λ openings before. result ≡ length (live (lines_behind before self.now))) }
    {
        self.parts.live().len() as u32
    }

    /// How many places the room has left: a start takes two, a use or another's finish one. Takes constant time.
    pub fn room_left(&self) -> u32
        ensures { BehindEach self.now (λ openings before.
            result + taken_behind (earlier_behind before self.now) self.now.journal ≡ self.now.room) }
    {
        self.room - self.lines - self.parts.live().len() as u32
    }
}
