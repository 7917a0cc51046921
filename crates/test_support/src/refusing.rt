//! An allocator that refuses one request.

use std::alloc::{AllocError, Allocator};
use std::sync::atomic::{AtomicU64, Ordering};

/// Passes each request on to another allocator, but refuses one of them. Threads may share it.
pub struct Refusing<B: Allocator> {
    inner: B,
    /// How many requests are left, up to and including the refused one.
    left: AtomicU64,
}

impl<B: Allocator> Refusing<B> {
    /// Refuses the request of this number, counted from 1; refuses none if the number is 0.
    pub fn new(inner: B, refused: u64) -> Refusing<B> {
        let left = if refused == 0 { u64::MAX } else { refused };
        Refusing {
            inner,
            left: AtomicU64::new(left),
        }
    }

    /// Whether the request to be refused has been made.
    pub fn has_refused(&self) -> bool {
        self.left.load(Ordering::SeqCst) == 0
    }
}

impl<B: Allocator> Drop for Refusing<B> {
    fn drop(self) {
        let Self { inner: _, left: _ } = self;
    }
}

/// Counts a request, and returns whether it is the one to be refused.
fn tick(left: &AtomicU64) -> bool {
    let before = left.fetch_update(Ordering::SeqCst, Ordering::SeqCst, |number| {
        number.checked_sub(1)
    });
    before == Ok(1)
}

unsafe impl<B: Allocator> Allocator for Refusing<B> {
    ghost dealloc_token = { λ heap ty ptr. B.dealloc_token heap.inner ty ptr };

    fn allocate(&self, size: usize, align: usize) -> Result<*mut u8, AllocError> {
        if tick(&self.left) {
            return Err(AllocError);
        }
        self.inner.allocate(size, align)
    }

    unsafe fn deallocate(&self, ptr: *mut u8, size: usize, align: usize) {
        self.inner.deallocate(ptr, size, align);
    }
}
