//! The receipts of one worker at a desk.

ghost use Rattle.std.specs.Prelude.{◌≡◌, ◌↔◌, ◌⊎◌, ◌+◌, ◌<◌, ◌≤◌, ◌^◌, [], true, false, length, min, None};
ghost use Rattle.std.specs.Prelude.{vec_len, vec_capacity, IsOk, IsTrue, IfOk, IfSome, OnOk, OnErr};
ghost use Rattle.path_model.specs.declared.journal.Reply.TheVariants as replies;
ghost use Rattle.path_workers.specs.Attempts.{receipts_then, finishes_open, is_open, may_get};
ghost use Rattle.path_workers.specs.Inner.Holdings.{open_then, opens, places_for};
ghost use Rattle.path_workers.specs.Settled.{copies_in};

use crate::answer::{Answer, Receipt};
use crate::closed_pass::ClosedPass;
use crate::copy::{copies_among, copies_found, is_copy_of};
use crate::desk_name::DeskName;
use crate::merge::Slot;
use crate::order::Order;
use crate::own_lines::OwnLines;
use crate::shared::SharedSystem;
use crate::steps::Steps;
use path_model::{ActId, Attempt, Line, OutOfMemory, Reply};
use std::alloc::{Allocator, Global};
use std::marker::Model;
use std::sync::ledger::Ledger;

/// The receipts of one worker at one desk: one for each line that the attempts through this pass wrote.
///
/// Contracts see the worker and the receipts. Each receipt comes with a share of its desk's count of lines, which rises only under
/// the lock: so a pass has no receipt without a step of that desk's system. The share takes no bytes.
#[derive(Drop)]
pub struct Pass<L: Ledger, A: Allocator + Copy = Global> {
    worker: u32,
    receipts: Vec<Receipt, A>,
    /// How many receipts are those of admitted starts.
    starts: usize,
    order: Order,
    own_lines: OwnLines<L>,
    /// How many receipts the walk of a settlement has passed, and a slot of its heap.
    met: usize,
    slot: Slot,
}

impl<L: Ledger, A: Allocator + Copy> Model for Pass<L, A> {
    ghost use Rattle.std.specs.Prelude.{vec_capacity};
    ghost use Rattle.path_workers.specs.Attempts.{Held};
    ghost use Rattle.path_workers.specs.Inner.Holdings.{IsKept};

    ghost Value = { Held };

    ghost view = { λ p. record { worker = p.worker; receipts = p.receipts.items } };

    ghost invariant = { λ p. IsKept p.own_lines p.receipts.items (vec_capacity p.receipts) p.starts p.order.rises p.order.end };
}

impl<L: Ledger, A: Allocator + Copy> Pass<L, A> {
    /// A pass without receipts.
    pub fn new(alloc: A, worker: u32) -> Pass<L, A>
        ensures { (result.worker ≡ worker) × (result.receipts ≡ []) }
    {
        Pass {
            worker,
            receipts: Vec::new(alloc),
            starts: 0,
            order: Order::new(),
            own_lines: OwnLines::none(),
            met: 0,
            slot: Slot { pass: 0, next: 0 },
        }
    }

    /// The number of the pass's worker.
    pub fn worker(&self) -> u32
        ensures { result ≡ self.now.worker }
    {
        self.worker
    }

    /// All receipts, in the order of the attempts. Waits for nobody.
    pub fn receipts(&self) -> &[Receipt]
        ensures { result.now ≡ self.now.receipts }
    {
        self.receipts.as_slice()
    }

    /// How many receipts equal the line at this place, worker included, counted up to 2. The cost is that of a binary search if the
    /// places rise, and else that of a look at each receipt.
    pub fn copies(&self, place: u64, line: &Line) -> u64
        ensures { result ≡ min 2 (copies_in place line.now self.now) }
    {
        if self.worker != line.worker {
            0
        } else if self.order.rises {
            copies_found(place, line, &self.receipts)
        } else {
            copies_among(place, line, &self.receipts)
        }
    }

    /// The slot that this pass keeps for the walk of a settlement.
    pub fn slot(&self) -> Slot {
        self.slot
    }

    pub fn set_slot(&mut self, slot: Slot)
        ensures { self.new ≡ self.old }
    {
        self.slot = slot;
    }

    /// Puts the walk at the first receipt of this pass, and this pass into its slot.
    pub fn begin(&mut self, pass: usize)
        ensures { self.new ≡ self.old }
    {
        self.met = 0;
        self.slot = Slot {
            pass,
            next: self.next_place(),
        };
    }

    /// The place of the next receipt of the walk; the largest number if there is none.
    pub fn next_place(&self) -> u64 {
        match self.receipts.get(self.met) {
            Some(receipt) => receipt.place,
            None => u64::MAX,
        }
    }

    /// Whether the next receipt of the walk equals the line at this place, worker included. If so, the walk moves past it.
    pub fn meets(&mut self, place: u64, line: &Line) -> bool
        ensures same { self.new ≡ self.old }
        ensures met { IsTrue result → 1 ≤ copies_in place line.now self.old }
    {
        let is_next = self.worker == line.worker
            && self.met < self.receipts.len()
            && is_copy_of(place, line, &self.receipts[self.met]);
        if is_next {
            self.met += 1;
        }
        is_next
    }

    /// Reserves memory for the receipts that this attempt may bring. Fails only if allocation fails, and never for a finish that is
    /// owed.
    pub(crate) fn reserve(&mut self, attempt: Attempt) -> Result<(), OutOfMemory>
        ensures same { self.new ≡ self.old }
        ensures finish { finishes_open attempt self.old.receipts ≡ true → IsOk result }
    {
        take_places(&mut self.receipts, self.starts, attempt)
    }

    /// The receipts without the desk, and the number of its own lines.
    pub(crate) fn into_closed(self) -> (ClosedPass<A>, OwnLines<L>)
        ensures closed_pass { result.0 ≡ self }
        ensures own_lines { result.1 ≡ length self.receipts }
    {
        let Pass {
            worker,
            receipts,
            starts: _,
            order: _,
            own_lines,
            met: _,
            slot: _,
        } = self;
        (ClosedPass::new(worker, receipts), own_lines)
    }
}

impl<L: DeskName, A: Allocator + Copy> Pass<L, A> {
    /// Reserves memory for the receipts, and then makes one step while the caller holds the lock. Fails only if allocation fails. Waits
    /// for nobody.
    pub fn make<S: Steps>(
        &mut self,
        shared: &mut SharedSystem<L, S>,
        attempt: Attempt,
    ) -> Result<Answer, OutOfMemory>
        ensures worker { self.new.worker ≡ self.old.worker }
        ensures gained { IfOk result (λ a. self.new.receipts ≡ receipts_then self.old.receipts attempt a.place a.reply) }
        ensures no_room { IfOk result (λ a. (a.place ≡ None) ↔ (a.reply ≡ replies.NoRoom)) }
        ensures here { IfOk result (λ a. IfSome a.place (λ p. length L.opened.journal ≤ p)) }
        ensures kind { IfOk result (λ a. may_get attempt a.reply ≡ true) }
        ensures kept { OnErr result (self.new ≡ self.old) }
        ensures finish { finishes_open attempt self.old.receipts ≡ true → IsOk result }
    {
        take_places(&mut self.receipts, self.starts, attempt)?;
        let answer = shared.stamp(
            &mut self.receipts,
            &mut self.own_lines,
            self.worker,
            attempt,
        );
        self.starts += started(answer.reply);
        self.order = self.order.then(answer.place);
        Ok(answer)
    }
}

/// How many activations a reply starts.
fn started(reply: Reply) -> usize
    ensures { result ≡ opens reply [] }
{
    match reply {
        Reply::Started(_) => 1,
        _ => 0,
    }
}

/// Reserves memory for the receipt of this attempt, and for those of the finishes that may still be owed. Fails only if allocation
/// fails, and never for a finish that is owed: memory for its receipt is reserved already.
fn take_places<A: Allocator + Copy>(
    receipts: &mut Vec<Receipt, A>,
    starts: usize,
    attempt: Attempt,
) -> Result<(), OutOfMemory>
    requires { starts < 2 ^ 60 }
    ensures items { receipts.new.items ≡ receipts.old.items }
    ensures len { vec_len receipts.new ≡ vec_len receipts.old }
    ensures ok { OnOk result ((vec_len receipts.new + starts + places_for attempt ≤ vec_capacity receipts.new)
        ⊎ (finishes_open attempt receipts.old.items ≡ true)) }
    ensures err { OnErr result (finishes_open attempt receipts.old.items ≡ false) }
    ensures grown { vec_capacity receipts.old ≤ vec_capacity receipts.new }
{
    match attempt {
        Attempt::Start(_) => Ok(receipts.reserve(starts + 2)?),
        Attempt::Apply(_, _) => Ok(receipts.reserve(starts + 1)?),
        Attempt::Finish(act) => {
            if receipts.reserve(starts + 1).is_ok() || is_owed(receipts.as_slice(), act) {
                Ok(())
            } else {
                Err(OutOfMemory)
            }
        }
    }
}

/// Whether the receipts have a start of this activation and no later finish.
fn is_owed(receipts: &[Receipt], act: ActId) -> bool
    ensures { result ≡ is_open act receipts.now }
{
    let mut owed = false;
    for receipt in receipts {
        owed = owed_after(owed, act, *receipt);
    }
    owed
}

fn owed_after(owed: bool, act: ActId, receipt: Receipt) -> bool
    ensures { result ≡ open_then act owed receipt }
{
    if let Reply::Started(number) = receipt.reply {
        if number.0 == act.0 {
            return true;
        }
    }
    if let Attempt::Finish(number) = receipt.attempt {
        if number.0 == act.0 {
            return false;
        }
    }
    owed
}
