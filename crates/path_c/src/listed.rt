//! What a caller may list of an open handle: the operations, by their number, and the live activations, one by one.

ghost use Rattle.std.specs.Prelude.{◌≡◌, length, slice_get, true, false};
ghost use Rattle.path_model.specs.Journals.{live};
ghost use Rattle.path_system.specs.Accounts.{all_lines};
ghost use Rattle.path_c.specs.Calls.{IsListed};

use crate::handle::Handle;
use std::alloc::Global;

/// A live activation, as `wanzoche.h` has it.
#[repr(C)]
#[derive(Clone, Copy, Debug, PartialEq, Eq)]
pub struct Listed {
    /// Its number.
    pub activation: u64,
    /// The worker that started it.
    pub worker: u32,
    /// The operation that was started.
    pub operation: u32,
}

/// How many operations are declared; their numbers are those below it. 0 for a closed handle.
#[unsafe(no_mangle)]
pub extern "C" fn path_c_operations(alloc: Global, handle: &mut Handle) -> u32
    ensures live { handle.new.live ≡ handle.old.live }
    ensures closed { handle.old.live ≡ false → result ≡ 0 }
    ensures kept { handle.old.live ≡ true → handle.new.held.service ≡ handle.old.held.service }
    ensures count { handle.old.live ≡ true → result ≡ length handle.old.held.service.account.declaration.operations }
{
    match handle.take(alloc) {
        None => 0,
        Some(service) => {
            let count = service.operations();
            handle.put(service);
            count
        }
    }
}

/// The live activation at a place, from 0, in the order of the starts: 1 if there is one, which is then in `found`; else 0, and `found`
/// stays.
#[unsafe(no_mangle)]
pub extern "C" fn path_c_live_at(
    alloc: Global,
    handle: &mut Handle,
    place: u32,
    found: &mut Listed,
) -> u32
    ensures live { handle.new.live ≡ handle.old.live }
    ensures closed { handle.old.live ≡ false → (result ≡ 0) × (found.new ≡ found.old) }
    ensures kept { handle.old.live ≡ true → handle.new.held.service ≡ handle.old.held.service }
    ensures listed { handle.old.live ≡ true
        → IsListed (slice_get (live (all_lines handle.old.held.service.account)) place) found.old result found.new }
{
    match handle.take(alloc) {
        None => 0,
        Some(service) => {
            let live = service.controller().live().get(place as usize).copied();
            handle.put(service);
            match live {
                None => 0,
                Some(live) => {
                    *found = Listed {
                        activation: live.act.0,
                        worker: live.worker,
                        operation: live.op.0,
                    };
                    1
                }
            }
        }
    }
}
