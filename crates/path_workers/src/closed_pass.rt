//! The receipts of a worker after its desk is closed.

ghost use Rattle.std.specs.Prelude.{◌≡◌, length, vec_items};

use crate::answer::Receipt;
use std::alloc::{Allocator, Global};
use std::marker::Model;

/// The receipts of one worker after its desk is closed. Contracts see the worker and the receipts, as of a pass.
#[derive(Drop)]
pub struct ClosedPass<A: Allocator + Copy = Global> {
    worker: u32,
    receipts: Vec<Receipt, A>,
}

impl<A: Allocator + Copy> Model for ClosedPass<A> {
    ghost use Rattle.path_workers.specs.Attempts.{Held};

    ghost Value = { Held };

    ghost view = { λ s. record { worker = s.worker; receipts = s.receipts.items } };
}

impl<A: Allocator + Copy> ClosedPass<A> {
    pub(crate) fn new(worker: u32, receipts: Vec<Receipt, A>) -> ClosedPass<A>
        ensures { (result.worker ≡ worker) × (result.receipts ≡ receipts.items) }
    {
        ClosedPass { worker, receipts }
    }

    /// All receipts, in the order of the attempts.
    pub fn receipts(&self) -> &[Receipt]
        ensures { result.now ≡ self.now.receipts }
    {
        self.receipts.as_slice()
    }

    /// The worker whose receipts these are.
    pub fn worker(&self) -> u32
        ensures { result ≡ self.now.worker }
    {
        self.worker
    }
}
