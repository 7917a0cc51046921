//! The replay of a journal: the state after the lines so far.

ghost use Rattle.std.specs.Prelude.{◌≡◌, ◌+◌, ◌≤◌, length, IfOk, map};
ghost use Rattle.path_step.specs.Steps.{AreReady, IsRunning};
ghost use Rattle.path_audit.specs.Inner.Replays.{IsOpened, Replays};
ghost use Rattle.path_audit.specs.Inner.Replays as replays;

use crate::activations::Activations;
use crate::resources::Resources;
use path_decl::Decl;
use path_gate::{Gate, compile};
use path_model::{Activation, Line, OutOfMemory, Reply};
use std::alloc::{Allocator, Global};
use std::marker::Model;

/// The semaphores, the activations, and what each resource contains.
#[derive(Drop)]
pub struct Replay<A: Allocator + Copy = Global> {
    gate: Gate<A>,
    activations: Activations<A>,
    resources: Resources<A>,
}

impl<A: Allocator + Copy> Model for Replay<A> {
    ghost use Rattle.std.specs.Coded.{codes};
    ghost use Rattle.path_gate.specs.Standings.{standing_code};
    ghost use Rattle.path_step.specs.Steps.{present};
    ghost use Rattle.path_audit.specs.Inner.Replays.{ReplayValue};

    ghost Value = { ReplayValue };

    ghost coded = { Prim.hlevel (codes, standing_code) };

    ghost view = { λ r. record { present = present r.gate r.activations; held = r.resources } };
}

/// Whether the reply says that the device failed.
fn says_failed(reply: Reply) -> bool
    ensures { result ≡ replays.says_failed reply }
{
    matches!(reply, Reply::DeviceFailed)
}

impl<A: Allocator + Copy> Replay<A> {
    /// The replay of no lines, in which the resources contain what the openings list. Fails only if allocation fails.
    pub fn open(
        alloc: A,
        decl: &Decl<A>,
        openings: &[Vec<u64, A>],
    ) -> Result<Replay<A>, OutOfMemory>
        ensures { IfOk result (λ replay. IsOpened replay decl.now.declaration (map (λ opening. opening.items) openings.now)) }
    {
        Ok(Replay {
            gate: compile(alloc, decl)?,
            activations: Activations::new(alloc),
            resources: Resources::open(alloc, openings)?,
        })
    }

    /// The gate. Takes constant time.
    pub fn gate(&self) -> &Gate<A>
        ensures { result.now ≡ self.now.present.standing }
    {
        &self.gate
    }

    /// The live activations, in the order of their starts. Fails only if allocation fails. The cost is a look at each that was begun.
    pub fn live(&self, alloc: A) -> Result<Vec<Activation, A>, OutOfMemory>
        ensures { IfOk result (λ live. live.items ≡ self.now.present.register.live) }
    {
        self.activations.listed(alloc)
    }

    /// Replays the attempt of a line after `lines` lines, in a journal of this room, and returns the reply that is owed to it. The
    /// device fails exactly when the line says so and its law would serve.
    ///
    /// Fails only if allocation fails. The cost is that of the gate for a start or a finish, and of a look-up for a use.
    pub fn answer(
        &mut self,
        decl: &Decl<A>,
        room: u32,
        lines: u32,
        line: Line,
    ) -> Result<Reply, OutOfMemory>
        requires ready { AreReady decl.now.declaration self.old.present.register.live self.old.held.contents (λ r law. Unit {0}) }
        requires running { IsRunning self.old.present.standing self.old.present.register }
        requires few { lines + length self.old.present.register.live ≤ room }
        requires admitted { self.old.present.standing.admitted ≡ self.old.present.register.begun }
        ensures { IfOk result (λ reply. Replays decl.now.declaration self.old room lines line reply self.new) }
    {
        self.resources.set_fails(says_failed(line.reply));
        path_step::answer(
            decl,
            &mut self.gate,
            &mut self.activations,
            &mut self.resources,
            room,
            lines,
            line.worker,
            line.attempt,
        )
    }
}
