//! What one attempt does.

ghost use Rattle.std.specs.Prelude.{◌≡◌, ◌+◌, ◌<◌, ◌≤◌, length, IfOk};
ghost use Rattle.path_model.specs.Journals.{activation_of};
ghost use Rattle.path_step.specs.Steps.{Answers, AreReady, IsRunning, MovesFinish, MovesStart, MovesUse, present};

use crate::devices::Devices;
use crate::live::Live;
use path_decl::{Decl, counts, law_of, resource_of};
use path_gate::Gate;
use path_ledger::EndFault;
use path_model::{ActId, Attempt, OpId, Reply, Verb};
use std::alloc::Allocator;

/// Starts an operation, as if there were room. So many are declared.
#[inline(always)]
fn start<L: Live, A: Allocator + Copy>(
    operations: u32,
    gate: &mut Gate<A>,
    live: &mut L,
    worker: u32,
    op: OpId,
) -> Result<Reply, L::Fault>
    requires place { L.has_place live.old }
    requires admitted { gate.old.admitted < 4294967295 }
    ensures moves { IfOk result (λ reply. MovesStart operations (present gate.old (L.register live.old)) worker op reply
        (present gate.new (L.register live.new))) }
    ensures places { L.places live.new ≡ L.places live.old }
{
    if op.0 >= operations {
        return Ok(Reply::UnknownOperation);
    }
    match gate.admit(op) {
        Err(path) => Ok(Reply::Blocked(path)),
        Ok(()) => Ok(Reply::Started(live.begin(worker, op)?)),
    }
}

/// Finishes an activation: the reply, as if there were room. Searches for the activation once.
#[inline(always)]
fn finish<L: Live, A: Allocator + Copy>(
    gate: &mut Gate<A>,
    live: &mut L,
    worker: u32,
    act: ActId,
) -> Reply
    requires { IsRunning gate.old (L.register live.old) }
    ensures moves { MovesFinish (present gate.old (L.register live.old)) worker act (activation_of act (L.register live.old).live) result
        (present gate.new (L.register live.new)) }
    ensures places { L.places live.new ≡ L.places live.old }
{
    match live.end_own(worker, act) {
        Err(EndFault::Stale) => Reply::Stale,
        Err(EndFault::NotYours) => Reply::NotYours,
        Ok(activation) => {
            gate.release(activation.op);
            Reply::Finished
        }
    }
}

/// Uses an activation, as if there were room.
#[inline(always)]
fn apply<L: Live, D: Devices, A: Allocator + Copy>(
    decl: &Decl<A>,
    live: &L,
    devices: &mut D,
    worker: u32,
    act: ActId,
    verb: Verb,
) -> Result<Reply, D::Fault>
    requires { AreReady decl.now.declaration (L.register live.now).live (D.contents devices.old) (D.has_law devices.old) }
    ensures { IfOk result (λ reply. MovesUse D.contents D.asked decl.now.declaration worker verb
        (activation_of act (L.register live.now).live) devices.old reply devices.new) }
{
    match live.find(act) {
        None => Ok(Reply::Stale),
        Some(activation) => {
            if activation.worker != worker {
                return Ok(Reply::NotYours);
            }
            let resource = resource_of(decl, activation.op).unwrap();
            let law = law_of(decl, resource).unwrap();
            devices.act(law, resource, verb)
        }
    }
}

/// Replies to one attempt of a worker after `lines` lines, in a journal of this room, and moves the gate, what is live and what the
/// resources contain as the reply says. A start takes two places, its own and that of its finish, and a use one; the finish of the worker's
/// own activation has its place since the start. Without room, or once 4,294,967,295 activations were begun, the reply is `NoRoom`, and
/// nothing changes.
///
/// The gate and what is live agree: what is live is in progress if a path names it. Where a start has room and a number, there is a place
/// for its activation, and fewer than 4,294,967,295 were admitted at the gate.
///
/// Fails only as `live` does at a start, and `devices` at a use. Allocates nothing of its own. The cost is that of the gate for a start or
/// a finish, of the search for the activation for a use or a finish, and for a use that of serving it.
#[inline(always)]
pub fn answer<L: Live, D: Devices<Fault = L::Fault>, A: Allocator + Copy>(
    decl: &Decl<A>,
    gate: &mut Gate<A>,
    live: &mut L,
    devices: &mut D,
    room: u32,
    lines: u32,
    worker: u32,
    attempt: Attempt,
) -> Result<Reply, L::Fault>
    requires ready { AreReady decl.now.declaration (L.register live.old).live (D.contents devices.old) (D.has_law devices.old) }
    requires running { IsRunning gate.old (L.register live.old) }
    requires few { lines + length (L.register live.old).live ≤ room }
    requires place { lines + length (L.register live.old).live + 2 ≤ room → (L.register live.old).begun < 4294967295
        → L.has_place live.old }
    requires admitted { (L.register live.old).begun < 4294967295 → gate.old.admitted < 4294967295 }
    ensures answers { IfOk result (λ reply. Answers D.contents D.asked decl.now.declaration (present gate.old (L.register live.old))
        devices.old room lines worker attempt reply (present gate.new (L.register live.new)) devices.new) }
    ensures places { L.places live.new ≡ L.places live.old }
{
    let taken = lines as usize + live.count();
    let room = room as usize;
    match attempt {
        Attempt::Start(op) => {
            if taken + 2 <= room && live.begun() < u64::from(u32::MAX) {
                start(counts(decl).operations, gate, live, worker, op)
            } else {
                Ok(Reply::NoRoom)
            }
        }
        Attempt::Apply(act, verb) => {
            if taken + 1 <= room {
                apply(decl, live, devices, worker, act, verb)
            } else {
                Ok(Reply::NoRoom)
            }
        }
        Attempt::Finish(act) => {
            let reply = finish(gate, live, worker, act);
            if taken + 1 <= room || matches!(reply, Reply::Finished) {
                Ok(reply)
            } else {
                Ok(Reply::NoRoom)
            }
        }
    }
}
