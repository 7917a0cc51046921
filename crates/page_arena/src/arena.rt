//! The allocator of one call's collections, which hold a `&` to it.

ghost use Rattle.std.specs.Prelude.{◌≤◌, ◌^◌, ◌<◌, IfSome};
ghost use base.Fml.{ftrue};

use crate::memory::{Memory, UNIT};
use std::alloc::{AllocError, Allocator};
use std::cell::Cell;

/// What is left of memory that was handed in. A block that is given back isn't used again, so an arena serves one call, or as many
/// as its memory lasts.
#[derive(Drop)]
pub struct Arena {
    // Empty only while `take` runs, which calls nothing that could come back here.
    rest: Cell<Option<Memory>>,
}

impl Arena {
    /// An arena over this memory.
    pub fn new(memory: Memory) -> Arena {
        Arena {
            rest: Cell::new(Some(memory)),
        }
    }

    /// The next block of at least this size, or `None` where less is left.
    fn take(&self, size: usize) -> Option<Memory>
        ensures { IfSome result (λ m. (size ≤ m.size) × (size < 2 ^ 63)) }
    {
        if size > isize::MAX as usize {
            return None;
        }
        let (block, rest) = self.rest.replace(None)?.split(size.next_multiple_of(UNIT));
        self.rest.set(Some(rest));
        block
    }
}

unsafe impl Allocator for Arena {
    // The right to forget a block, which whoever has the block has anyway.
    ghost dealloc_token = { λ _ _ _. ftrue };

    fn allocate(&self, size: usize, _align: usize) -> Result<*mut u8, AllocError> {
        match self.take(size) {
            Some(Memory { ptr, size: _ }) => Ok(ptr),
            None => Err(AllocError),
        }
    }

    unsafe fn deallocate(&self, _ptr: *mut u8, _size: usize, _align: usize) {}
}
