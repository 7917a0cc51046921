//! Who comes next, among those who wait for a start.

ghost use Rattle.std.specs.Prelude.{◌≡◌, true, false};
ghost use Rattle.path_c.specs.Answers.{closed};
ghost use Rattle.path_c.specs.Calls.{IsRuledBy, IsNextBy};

use crate::answer::{CodedAnswer, next, plainly, ruled};
use crate::codes;
use crate::handle::Handle;
use path_order::Waiter;
use std::alloc::Global;

/// What becomes of a start that one asks for who arrived at this time, behind those of `waiting` who come before it, while the operations
/// of `running` are in progress for those who run. The handle stays as it is.
#[unsafe(no_mangle)]
pub extern "C" fn path_c_may_start(
    alloc: Global,
    handle: &mut Handle,
    operation: u32,
    priority: u32,
    arrived: u64,
    waiting: &[Waiter],
    running: &[u32],
) -> CodedAnswer
    ensures live { handle.new.live ≡ handle.old.live }
    ensures closed { handle.old.live ≡ false → result ≡ closed }
    ensures kept { handle.old.live ≡ true → handle.new.held.service ≡ handle.old.held.service }
    ensures ruled { handle.old.live ≡ true → IsRuledBy handle.old.held.service.account waiting.now running.now
        (record { operation = operation; priority = priority; arrived = arrived; shut_at = 0 }) result }
{
    let asking = Waiter {
        operation,
        priority,
        arrived,
        shut_at: 0,
    };
    match handle.take(alloc) {
        None => plainly(codes::CLOSED),
        Some(mut service) => {
            let ruling = service.may_start(alloc, waiting, running, asking);
            handle.put(service);
            ruled(ruling)
        }
    }
}

/// Who is next: the place in `waiting` of the first whose start is neither refused nor withheld. The handle stays as it is.
#[unsafe(no_mangle)]
pub extern "C" fn path_c_next(
    alloc: Global,
    handle: &mut Handle,
    waiting: &[Waiter],
    running: &[u32],
) -> CodedAnswer
    ensures live { handle.new.live ≡ handle.old.live }
    ensures closed { handle.old.live ≡ false → result ≡ closed }
    ensures kept { handle.old.live ≡ true → handle.new.held.service ≡ handle.old.held.service }
    ensures next { handle.old.live ≡ true → IsNextBy handle.old.held.service.account waiting.now running.now result }
{
    match handle.take(alloc) {
        None => plainly(codes::CLOSED),
        Some(mut service) => {
            let found = service.next(alloc, waiting, running);
            handle.put(service);
            next(found)
        }
    }
}
