//! Whether the receipts of a process agree with the lines of the journal.

ghost use Rattle.std.specs.Prelude.{◌≡◌, ◌+◌, ◌-◌, true, false, length, IsTrue, IsFalse, IfSome, IfNone};
ghost use Rattle.path_run.specs.Lines.{HasFinish, HasNoFinish, is_blocked as is_blocked_reply, MayFollow};
ghost use Rattle.path_run.specs.Lines.{AreInOrder, IsOutOfOrder, IsCurrent, IsStale, IsDisorder, EachIsOrderly, IsFirstDisorder};

use crate::outcome::End;
use path_model::{Line, Reply};
use path_workers::{ClosedPass, Receipt};
use std::alloc::Allocator;

/// Whether a line from `low` on and below `high` is that of an admitted finish.
fn has_finish(journal: &[Line], low: u64, high: u64) -> bool
    ensures yes { IsTrue result → HasFinish journal.now low high }
    ensures no { IsFalse result → HasNoFinish journal.now low high }
{
    for place in low..high.min(journal.len() as u64) {
        if let Reply::Finished = journal[place as usize].reply {
            return true;
        }
    }
    false
}

fn is_blocked(reply: Reply) -> bool
    ensures { result ≡ is_blocked_reply reply }
{
    match reply {
        Reply::Blocked(_) => true,
        _ => false,
    }
}

/// Whether a receipt may come next: its place is higher, and if both are blocked, there is an admitted finish between them.
fn may_follow(journal: &[Line], before: Receipt, next: Receipt) -> bool
    ensures yes { IsTrue result → MayFollow journal.now before next }
    ensures no { IsFalse result → MayFollow journal.now before next → ⊥ }
{
    if next.place <= before.place {
        return false;
    }
    if is_blocked(before.reply) && is_blocked(next.reply) {
        return has_finish(journal, before.place + 1, next.place);
    }
    true
}

/// The place of the first receipt that may not come next.
fn first_out_of_order(journal: &[Line], receipts: &[Receipt]) -> Option<u64>
    ensures none { IfNone result (AreInOrder journal.now receipts.now) }
    ensures some { IfSome result (λ place. IsOutOfOrder journal.now receipts.now place) }
{
    for i in 0..receipts.len().saturating_sub(1) {
        if !may_follow(journal, receipts[i], receipts[i + 1]) {
            return Some(receipts[i + 1].place);
        }
    }
    None
}

/// The place of the last receipt of a stalled process if a finish came after it.
fn stale_stall(journal: &[Line], receipts: &[Receipt], end: End) -> Option<u64>
    ensures none { IfNone result (IsCurrent journal.now receipts.now end) }
    ensures some { IfSome result (λ place. IsStale journal.now receipts.now end place) }
{
    let End::Stalled(_) = end else {
        return None;
    };
    if receipts.is_empty() {
        return None;
    }
    let last = receipts[receipts.len() - 1].place;
    if has_finish(journal, last, journal.len() as u64) {
        return Some(last);
    }
    None
}

/// The first place at which the receipts of a process don't agree with the journal.
fn disorder(journal: &[Line], receipts: &[Receipt], end: End) -> Option<u64>
    ensures none { IfNone result (AreInOrder journal.now receipts.now × IsCurrent journal.now receipts.now end) }
    ensures some { IfSome result (λ place. IsDisorder journal.now receipts.now end place) }
{
    if let Some(place) = first_out_of_order(journal, receipts) {
        return Some(place);
    }
    stale_stall(journal, receipts, end)
}

/// The first place at which the receipts don't agree with the journal, of the first process that has one.
pub fn first_disorder<A: Allocator + Copy>(
    journal: &[Line],
    closed_passes: &[ClosedPass<A>],
    ends: &[End],
) -> Option<u64>
    requires { length closed_passes.now ≡ length ends.now }
    ensures none { IfNone result (EachIsOrderly journal.now closed_passes.now ends.now) }
    ensures some { IfSome result (λ place. IsFirstDisorder journal.now closed_passes.now ends.now place) }
{
    for i in 0..closed_passes.len() {
        let receipts = closed_passes[i].receipts();
        if let Some(place) = disorder(journal, receipts, ends[i]) {
            return Some(place);
        }
    }
    None
}
