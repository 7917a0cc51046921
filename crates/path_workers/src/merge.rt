//! A walk through the receipts of all passes in the order of their places.
//!
//! Settling allocates nothing, so the walk keeps a heap in the passes themselves: each pass holds one slot of it, and the first slot
//! holds the pass whose next receipt has the lowest place. The order only makes the walk fast, and no contract speaks of it: if the
//! walk found a receipt for each line, they are there.

ghost use Rattle.std.specs.Prelude.{◌≡◌, ◌+◌, ◌<◌, ◌≤◌, ◌^◌, IsTrue};
ghost use Rattle.path_workers.specs.Inner.Holdings.{EachHasCopy};
ghost use Rattle.path_workers.specs.Settled.{copies};

use crate::pass::Pass;
use path_model::Line;
use std::alloc::Allocator;
use std::sync::ledger::Ledger;

/// One slot of the heap: the number of a pass, and the place of that pass's next receipt.
#[derive(Clone, Copy)]
pub struct Slot {
    pub pass: usize,
    /// The largest number if there is no next receipt.
    pub next: u64,
}

/// The place in this slot; the largest number if there is no slot of this number.
fn next_in<L: Ledger, A: Allocator + Copy>(passes: &[Pass<L, A>], slot: usize) -> u64 {
    match passes.get(slot) {
        Some(holder) => holder.slot().next,
        None => u64::MAX,
    }
}

/// Which of this slot and the next one has the lower place.
fn lower_of_two<L: Ledger, A: Allocator + Copy>(passes: &[Pass<L, A>], left: usize) -> usize
    requires { left < 2 ^ 63 }
    ensures { (left ≤ result) × (result ≤ left + 1) }
{
    left + usize::from(next_in(passes, left + 1) < next_in(passes, left))
}

fn swap_slots<L: Ledger, A: Allocator + Copy>(passes: &mut [Pass<L, A>], one: usize, other: usize)
    ensures { passes.new ≡ passes.old }
{
    if one < passes.len() && other < passes.len() {
        let held = passes[one].slot();
        let found = passes[other].slot();
        passes[one].set_slot(found);
        passes[other].set_slot(held);
    }
}

/// Moves a slot's content down until neither slot below it has a lower place.
fn sink<L: Ledger, A: Allocator + Copy>(passes: &mut [Pass<L, A>], from: usize)
    ensures { passes.new ≡ passes.old }
{
    let mut slot = from;
    while slot < passes.len() / 2 {
        let child = lower_of_two(passes, 2 * slot + 1);
        if next_in(passes, slot) <= next_in(passes, child) {
            break;
        }
        swap_slots(passes, slot, child);
        slot = child;
    }
}

/// Puts each pass into its own slot, at its first receipt.
fn begin<L: Ledger, A: Allocator + Copy>(passes: &mut [Pass<L, A>])
    ensures { passes.new ≡ passes.old }
{
    for slot in 0..passes.len() {
        passes[slot].begin(slot);
    }
}

fn order<L: Ledger, A: Allocator + Copy>(passes: &mut [Pass<L, A>])
    ensures { passes.new ≡ passes.old }
{
    for slot in (0..passes.len() / 2).rev() {
        sink(passes, slot);
    }
}

/// Whether the next receipt of all is a copy of this line. If so, the walk moves past it.
fn meets<L: Ledger, A: Allocator + Copy>(passes: &mut [Pass<L, A>], place: u64, line: &Line) -> bool
    ensures same { passes.new ≡ passes.old }
    ensures met { IsTrue result → 1 ≤ copies place line.now passes.old }
{
    if passes.is_empty() {
        return false;
    }
    let lowest = passes[0].slot().pass;
    if lowest >= passes.len() || !passes[lowest].meets(place, line) {
        return false;
    }
    let next = passes[lowest].next_place();
    passes[0].set_slot(Slot { pass: lowest, next });
    sink(passes, 0);
    true
}

/// Whether the walk finds a copy of each line from this number on. It finds them all if the receipts of each pass are in the order
/// of their places and each line has one copy.
///
/// The passes stay as they are. The cost is a look at each line and its receipt, with a comparison for each doubling of the number of
/// passes.
pub fn finds_each<L: Ledger, A: Allocator + Copy>(
    journal: &[Line],
    before: u64,
    passes: &mut [Pass<L, A>],
) -> bool
    ensures same { passes.new ≡ passes.old }
    ensures found { IsTrue result → EachHasCopy before journal.now passes.old }
{
    begin(passes);
    order(passes);
    for place in before..journal.len() as u64 {
        if !meets(passes, place, &journal[place as usize]) {
            return false;
        }
    }
    true
}
