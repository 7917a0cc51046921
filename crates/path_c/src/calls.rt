//! The calls on a handle that make an attempt or ask for one. Each leaves an open handle open, and a closed one closed.

ghost use Rattle.std.specs.Prelude.{◌≡◌, ◌+◌, ◌≤◌, ◌<◌, ◌↔◌, IsSome, length, true, false};
ghost use Rattle.path_model.specs.declared.journal.Attempt.TheVariants.{Start, Apply, Finish};
ghost use Rattle.path_model.specs.Journals.{admitted_history, live};
ghost use Rattle.path_model.specs.Segments.{joined, taken_behind};
ghost use Rattle.path_system.specs.Accounts.{all_lines, rotated};
ghost use Rattle.path_c.specs.Answers.{closed, has_rotated, no_verb, verb_at};
ghost use Rattle.path_c.specs.Calls.{IsAnswered, IsStartable, IsVerb};

use crate::answer::{CodedAnswer, may, plainly, replied};
use crate::codes;
use crate::handle::Handle;
use path_model::{ActId, Attempt, OpId, Verb};
use std::alloc::Global;

/// The verb of a code and its number.
pub(crate) fn verb_of(code: u32, number: u64) -> Option<Verb>
    ensures verb { result ≡ verb_at code number }
    ensures known { IsSome result ↔ (code < 4) }
{
    match code {
        0 => Some(Verb::Put(number)),
        1 => Some(Verb::Take),
        2 => Some(Verb::Look),
        3 => Some(Verb::Add(number)),
        _ => None,
    }
}

/// One attempt at the service of a handle.
#[inline(always)]
fn step(alloc: Global, handle: &mut Handle, worker: u32, attempt: Attempt) -> CodedAnswer
    ensures live { handle.new.live ≡ handle.old.live }
    ensures closed { handle.old.live ≡ false → result ≡ closed }
    ensures stepped { handle.old.live ≡ true → IsAnswered handle.old.held.service worker attempt result handle.new.held.service }
{
    match handle.take(alloc) {
        None => plainly(codes::CLOSED),
        Some(mut service) => {
            let reply = service.step(worker, attempt);
            handle.put(service);
            replied(reply)
        }
    }
}

/// A worker starts an operation.
#[unsafe(no_mangle)]
pub extern "C" fn path_c_start(
    alloc: Global,
    handle: &mut Handle,
    worker: u32,
    operation: u32,
) -> CodedAnswer
    ensures live { handle.new.live ≡ handle.old.live }
    ensures closed { handle.old.live ≡ false → result ≡ closed }
    ensures stepped { handle.old.live ≡ true → IsAnswered handle.old.held.service worker (Start (record { 0 = operation }))
        result handle.new.held.service }
{
    step(alloc, handle, worker, Attempt::Start(OpId(operation)))
}

/// A worker uses the device of an activation's resource: by verb 0 it puts the number, by 1 it takes one, by 2 it looks, by 3 it adds
/// the number. There is no other verb, and then nothing changes.
#[unsafe(no_mangle)]
pub extern "C" fn path_c_use(
    alloc: Global,
    handle: &mut Handle,
    worker: u32,
    activation: u64,
    verb: u32,
    number: u64,
) -> CodedAnswer
    ensures live { handle.new.live ≡ handle.old.live }
    ensures closed { handle.old.live ≡ false → verb < 4 → result ≡ closed }
    ensures no_verb { 4 ≤ verb → (result ≡ no_verb) × (handle.new ≡ handle.old) }
    ensures stepped { handle.old.live ≡ true → IsVerb (verb_at verb number)
        (λ v. IsAnswered handle.old.held.service worker (Apply (record { 0 = activation }) v) result handle.new.held.service) }
{
    match verb_of(verb, number) {
        None => plainly(codes::NO_VERB),
        Some(verb) => step(
            alloc,
            handle,
            worker,
            Attempt::Apply(ActId(activation), verb),
        ),
    }
}

/// A worker finishes an activation.
#[unsafe(no_mangle)]
pub extern "C" fn path_c_finish(
    alloc: Global,
    handle: &mut Handle,
    worker: u32,
    activation: u64,
) -> CodedAnswer
    ensures live { handle.new.live ≡ handle.old.live }
    ensures closed { handle.old.live ≡ false → result ≡ closed }
    ensures stepped { handle.old.live ≡ true → IsAnswered handle.old.held.service worker (Finish (record { 0 = activation }))
        result handle.new.held.service }
{
    step(alloc, handle, worker, Attempt::Finish(ActId(activation)))
}

/// Whether an operation may start now, or the first path that forbids it.
#[unsafe(no_mangle)]
pub extern "C" fn path_c_can_start(
    alloc: Global,
    handle: &mut Handle,
    operation: u32,
) -> CodedAnswer
    ensures live { handle.new.live ≡ handle.old.live }
    ensures closed { handle.old.live ≡ false → result ≡ closed }
    ensures kept { handle.old.live ≡ true → handle.new.held.service ≡ handle.old.held.service }
    ensures told { handle.old.live ≡ true → IsStartable handle.old.held.service.account.declaration
        (admitted_history (all_lines handle.old.held.service.account)) (record { 0 = operation }) result }
{
    match handle.take(alloc) {
        None => plainly(codes::CLOSED),
        Some(service) => {
            let told = service.can_start(OpId(operation));
            handle.put(service);
            may(told)
        }
    }
}

/// The lines so far are given up, and the room counts anew.
#[unsafe(no_mangle)]
pub extern "C" fn path_c_rotate(alloc: Global, handle: &mut Handle) -> CodedAnswer
    ensures live { handle.new.live ≡ handle.old.live }
    ensures closed { handle.old.live ≡ false → result ≡ closed }
    ensures rotated { handle.old.live ≡ true
        → (result ≡ has_rotated) × (handle.new.held.service.account ≡ rotated handle.old.held.service.account) }
    ensures keeps { handle.old.live ≡ true → handle.new.held.service.keeps ≡ handle.old.held.service.keeps }
{
    match handle.take(alloc) {
        None => plainly(codes::CLOSED),
        Some(mut service) => {
            service.rotate();
            handle.put(service);
            plainly(codes::ROTATED)
        }
    }
}

/// How many lines the journal has; 0 if no lines are kept, and for a closed handle.
#[unsafe(no_mangle)]
pub extern "C" fn path_c_lines(alloc: Global, handle: &mut Handle) -> usize
    ensures live { handle.new.live ≡ handle.old.live }
    ensures closed { handle.old.live ≡ false → result ≡ 0 }
    ensures kept { handle.old.live ≡ true → handle.new.held.service ≡ handle.old.held.service }
    ensures lines { handle.old.live ≡ true → result ≡ length handle.old.held.service.account.journal }
{
    match handle.take(alloc) {
        None => 0,
        Some(service) => {
            let lines = service.controller().lines();
            handle.put(service);
            lines as usize
        }
    }
}

/// How many activations are live; 0 for a closed handle.
#[unsafe(no_mangle)]
pub extern "C" fn path_c_live(alloc: Global, handle: &mut Handle) -> u32
    ensures live { handle.new.live ≡ handle.old.live }
    ensures closed { handle.old.live ≡ false → result ≡ 0 }
    ensures kept { handle.old.live ≡ true → handle.new.held.service ≡ handle.old.held.service }
    ensures count { handle.old.live ≡ true → result ≡ length (live (all_lines handle.old.held.service.account)) }
{
    match handle.take(alloc) {
        None => 0,
        Some(service) => {
            let count = service.controller().live_count();
            handle.put(service);
            count
        }
    }
}

/// How many places the room has left; 0 for a closed handle.
#[unsafe(no_mangle)]
pub extern "C" fn path_c_room_left(alloc: Global, handle: &mut Handle) -> u32
    ensures live { handle.new.live ≡ handle.old.live }
    ensures closed { handle.old.live ≡ false → result ≡ 0 }
    ensures kept { handle.old.live ≡ true → handle.new.held.service ≡ handle.old.held.service }
    ensures left { handle.old.live ≡ true → result + taken_behind (joined handle.old.held.service.account.earlier)
        handle.old.held.service.account.journal ≡ handle.old.held.service.account.room }
{
    match handle.take(alloc) {
        None => 0,
        Some(service) => {
            let left = service.controller().room_left();
            handle.put(service);
            left
        }
    }
}
