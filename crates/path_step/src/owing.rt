//! What one attempt would be told.

ghost use Rattle.std.specs.Prelude.{◌≡◌, ◌+◌, ◌≤◌, length};
ghost use Rattle.path_model.specs.Journals.{activation_of};
ghost use Rattle.path_step.specs.Steps.{AreReady, Foretells, TellsFinish, TellsStart, TellsUse, present};

use crate::devices::Devices;
use crate::live::Live;
use path_decl::{Decl, counts, law_of, resource_of};
use path_gate::Gate;
use path_model::{ActId, Activation, Attempt, OpId, Reply, Verb};
use std::alloc::Allocator;

/// The reply to a start, as if there were room. So many operations are declared.
fn to_start<L: Live, A: Allocator + Copy>(
    operations: u32,
    gate: &Gate<A>,
    live: &L,
    op: OpId,
) -> Reply
    ensures { TellsStart operations (present gate.now (L.register live.now)) op result }
{
    if op.0 >= operations {
        return Reply::UnknownOperation;
    }
    match gate.would_admit(op) {
        Err(path) => Reply::Blocked(path),
        Ok(()) => Reply::Started(ActId(live.begun())),
    }
}

/// The reply to a finish of this activation, if it is live, as if there were room.
fn to_finish(worker: u32, found: Option<Activation>) -> Reply
    ensures { TellsFinish worker found result }
{
    match found {
        None => Reply::Stale,
        Some(activation) if activation.worker != worker => Reply::NotYours,
        Some(_) => Reply::Finished,
    }
}

/// The reply to a use of an activation, as if there were room.
fn to_use<L: Live, D: Devices, A: Allocator + Copy>(
    decl: &Decl<A>,
    live: &L,
    devices: &D,
    worker: u32,
    act: ActId,
    verb: Verb,
) -> Reply
    requires { AreReady decl.now.declaration (L.register live.now).live (D.contents devices.now) (D.has_law devices.now) }
    ensures { TellsUse decl.now.declaration (D.contents devices.now) worker verb (activation_of act (L.register live.now).live) result }
{
    match live.find(act) {
        None => Reply::Stale,
        Some(activation) => {
            if activation.worker != worker {
                return Reply::NotYours;
            }
            let resource = resource_of(decl, activation.op).unwrap();
            let law = law_of(decl, resource).unwrap();
            devices.foretell(law, resource, verb)
        }
    }
}

/// What [`answer`](crate::answer) would reply to this attempt of a worker, unless a device failed. Changes and allocates nothing. The
/// cost is one look at a prologue for each path that names the operation of a start, and else that of the search for the activation.
pub fn owed<L: Live, D: Devices, A: Allocator + Copy>(
    decl: &Decl<A>,
    gate: &Gate<A>,
    live: &L,
    devices: &D,
    room: u32,
    lines: u32,
    worker: u32,
    attempt: Attempt,
) -> Reply
    requires ready { AreReady decl.now.declaration (L.register live.now).live (D.contents devices.now) (D.has_law devices.now) }
    requires few { lines + length (L.register live.now).live ≤ room }
    ensures { Foretells decl.now.declaration (present gate.now (L.register live.now)) (D.contents devices.now) room lines worker attempt
        result }
{
    let taken = lines as usize + live.count();
    let room = room as usize;
    match attempt {
        Attempt::Start(op) => {
            if taken + 2 <= room && live.begun() < u64::from(u32::MAX) {
                to_start(counts(decl).operations, gate, live, op)
            } else {
                Reply::NoRoom
            }
        }
        Attempt::Apply(act, verb) => {
            if taken + 1 <= room {
                to_use(decl, live, devices, worker, act, verb)
            } else {
                Reply::NoRoom
            }
        }
        Attempt::Finish(act) => {
            let reply = to_finish(worker, live.find(act));
            if taken + 1 <= room || matches!(reply, Reply::Finished) {
                reply
            } else {
                Reply::NoRoom
            }
        }
    }
}
