//! Why a system can't be opened.

ghost use Rattle.std.specs.Prelude.{◌≡◌, ◌≢◌, map, IfSome, IfNone};
ghost use Rattle.path_shelf.specs.States.{laws_of};
ghost use Rattle.path_shelf.specs.Shelves.{declared_laws};
ghost use Rattle.path_model.specs.Rooms.{IsBadRoom};
ghost use Rattle.path_system.specs.Faults.{IsOpenFault};

use crate::fault::OpenFault;
use path_decl::Decl;
use path_model::is_room;
use path_shelf::{Device, shelf_fault};
use std::alloc::Allocator;

/// Why [`System::open`](crate::System::open) would refuse this room or these devices; `None` if only memory can be missing. The cost
/// is one look at each device.
pub fn open_fault<D: Device, A: Allocator + Copy>(
    decl: &Decl<A>,
    devices: &[D],
    room: u32,
) -> Option<OpenFault>
    ensures some { IfSome result (λ fault. (fault ≢ OpenFault.OutOfMemory)
        × IsOpenFault room (map D.state devices.now) decl.now.declaration fault) }
    ensures none { IfNone result ((IsBadRoom room → ⊥) × (laws_of (map D.state devices.now) ≡ declared_laws decl.now.declaration)) }
{
    if !is_room(room) {
        return Some(OpenFault::BadRoom);
    }
    match shelf_fault(devices, decl) {
        Some(fault) => Some(OpenFault::from(fault)),
        None => None,
    }
}
