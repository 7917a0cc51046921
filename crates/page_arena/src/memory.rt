//! Memory as the host hands it in, and how it is cut.

ghost use Rattle.std.specs.Prelude.{◌≡◌, ℕ, ◌*◌, ◌%◌, IfSome};
ghost use denote.RawPtr.{room_for};
ghost use Rattle.page_arena.specs.Units.{Units};

use std::marker::Model;

/// What blocks are counted in and aligned to, in bytes. No type is aligned to more.
pub(crate) const UNIT: usize = 16;

/// `size` bytes from `ptr` on, for whatever whoever has this puts there. A host that makes one outside of Rattle owes, unchecked: the
/// address is no null pointer and a multiple of 16; the size is a multiple of 16; and nothing else reads or writes these bytes from
/// then on.
#[repr(C)]
#[derive(Drop)]
pub struct Memory {
    pub(crate) ptr: *mut u8,
    pub(crate) size: usize,
    ghost units: { ℕ },
    ghost whole: { size ≡ units * 16 },
}

impl Model for Memory {
    ghost also_owns = { λ m. room_for (Units m.units) m.ptr };
}

impl Memory {
    /// The first `wanted` bytes, if there are as many, and the memory behind them; else all of it. Takes constant time.
    pub(crate) fn split(self, wanted: usize) -> (Option<Memory>, Memory)
        requires { wanted % 16 ≡ 0 }
        ensures { IfSome result.0 (λ m. m.size ≡ wanted) }
    {
        let Memory { ptr, size } = self;
        if size < wanted {
            return (None, Memory { ptr, size });
        }
        let rest = unsafe { ptr.add(wanted) };
        let block = Memory { ptr, size: wanted };
        (
            Some(block),
            Memory {
                ptr: rest,
                size: size - wanted,
            },
        )
    }
}
