//! The live activations, in the order of their starts.

ghost use Rattle.std.specs.Prelude.{◌≡◌, ◌+◌, ◌<◌, ◌≤◌, [], ℕ, length, IfOk, IfErr, OnOk, OnErr, MatchOption, IfSome, IfNone};
ghost use Rattle.path_model.specs.Journals.{AreNumbered, activation_of, without};
ghost use Rattle.path_ledger.specs.declared.ledger.HoldFault.TheVariants as faults;
ghost use Rattle.path_ledger.specs.Ledgers.{IsHoldFault, IsMisplaced, IsNowhere, IsPlaceOf, one_begun, own_of};

use crate::row::Row;
use path_model::{ActId, Activation, OpId, OutOfMemory};
use std::alloc::{Allocator, Global};
use std::marker::Model;

/// Why a worker can't end an activation.
#[derive(Clone, Copy, Debug, PartialEq, Eq)]
pub enum EndFault {
    /// No live activation has the number.
    Stale,
    /// The activation is another worker's.
    NotYours,
}

/// Why a ledger can't begin with these activations.
#[derive(Clone, Copy, Debug, PartialEq, Eq)]
pub enum HoldFault {
    /// There are more of them than the room.
    TooMany,
    /// The activation at this place, counted from 0, is the first whose number isn't above that of the one before it.
    NotAscending(u32),
    /// The activation at this place, counted from 0, is the first whose number wasn't given: it isn't below the next number.
    NotGiven(u32),
    /// An allocation failed.
    OutOfMemory,
}

impl From<OutOfMemory> for HoldFault {
    ghost from_gives = { λ _ fault. fault ≡ faults.OutOfMemory };

    fn from(_error: OutOfMemory) -> HoldFault {
        HoldFault::OutOfMemory
    }
}

/// The activations that were begun and haven't ended, in the order of their starts.
#[derive(Drop)]
pub struct Ledger<A: Allocator + Copy = Global> {
    live: Row<A>,
    first: u64,
    begun: u32,
    room: u32,
}

impl<A: Allocator + Copy> Model for Ledger<A> {
    ghost use Rattle.path_ledger.specs.Ledgers.{Book, IsKept};

    ghost Value = { Book };

    ghost view = { λ l. record { live = l.live.items; first = l.first; begun = l.begun; room = l.room } };

    ghost invariant = { λ l. IsKept l.live.items l.first l.begun l.room l.live.room };
}

/// The index of the activation with this number, if there is one.
fn place_of(live: &[Activation], act: ActId) -> Option<usize>
    requires { (end : ℕ) × AreNumbered live.now end }
    ensures { MatchOption result (IsNowhere act live.now) (IsPlaceOf act live.now) }
{
    live.binary_search_by_key(&act.0, |activation| activation.act.0)
        .ok()
}

/// What is wrong with the first activation whose number isn't above that of the one before it, or isn't below the next one; `None` if there
/// is no such. The cost is that of a look at each.
fn misplaced(live: &[Activation], next: u64) -> Option<HoldFault>
    requires { length live.now < 4294967296 }
    ensures some { IfSome result (IsMisplaced live.now next) }
    ensures none { IfNone result (AreNumbered live.now next) }
{
    let mut low = 0;
    for (place, activation) in live.iter().enumerate() {
        if activation.act.0 < low {
            return Some(HoldFault::NotAscending(place as u32));
        }
        if activation.act.0 >= next {
            return Some(HoldFault::NotGiven(place as u32));
        }
        low = activation.act.0 + 1;
    }
    None
}

impl<A: Allocator + Copy> Ledger<A> {
    /// An empty ledger, in which `room` activations may be live at once. Allocates two places for each of them now, so no later call
    /// allocates. Fails only if allocation fails.
    pub fn with_room(alloc: A, room: u32) -> Result<Ledger<A>, OutOfMemory>
        ensures { IfOk result (λ l. l ≡ record { live = []; first = 0; begun = 0; room = room }) }
    {
        let live = Row::with_room(alloc, room)?;
        Ok(Ledger {
            live,
            first: 0,
            begun: 0,
            room,
        })
    }

    /// A ledger that begins with these activations, which others have begun, in the order of their starts. `next` is the number that the
    /// next one gets; each number below it was given. In the ledger `room` activations may be live at once.
    ///
    /// Fails with `TooMany` if they are more than the room; else with `NotAscending` or `NotGiven` for the first whose number isn't above
    /// that of the one before it, or isn't below `next`; and else with `OutOfMemory`. Allocates as [`with_room`](Ledger::with_room) does.
    /// The cost is that of a look at each.
    pub fn holding(
        alloc: A,
        room: u32,
        live: &[Activation],
        next: u64,
    ) -> Result<Ledger<A>, HoldFault>
        ensures ok { IfOk result (λ l. l ≡ record { live = live.now; first = next; begun = 0; room = room }) }
        ensures fault { IfErr result (IsHoldFault live.now next room) }
    {
        if live.len() > room as usize {
            return Err(HoldFault::TooMany);
        }
        if let Some(fault) = misplaced(live, next) {
            return Err(fault);
        }
        let live = Row::holding(alloc, room, live)?;
        Ok(Ledger {
            live,
            first: next,
            begun: 0,
            room,
        })
    }

    /// Appends an activation of this worker and operation, and returns its number, the [`next`](Ledger::next): how many were begun before
    /// it, those before the ledger was made included.
    ///
    /// Fewer than `room` activations must be live, and fewer than 4,294,967,295 begun, and the next number must be below `u64::MAX`. Takes
    /// constant time, taken over many calls: one call in many moves the live ones.
    pub fn begin(&mut self, worker: u32, op: OpId) -> ActId
        requires room { length self.old.live < self.old.room }
        requires number { self.old.begun < 4294967295 }
        requires next { self.old.first + self.old.begun < 18446744073709551615 }
        ensures number { result.0 ≡ self.old.first + self.old.begun }
        ensures appended { self.new ≡ one_begun self.old (record { act = result; worker = worker; op = op }) }
    {
        let act = ActId(self.next());
        self.live.push(Activation { act, worker, op });
        self.begun += 1;
        act
    }

    /// The live activation of this number, if there is one. The cost is logarithmic in the number of live ones.
    pub fn find(&self, act: ActId) -> Option<Activation>
        ensures { result ≡ activation_of act self.now.live }
    {
        match place_of(self.live.as_slice(), act) {
            Some(i) => Some(self.live.as_slice()[i]),
            None => None,
        }
    }

    /// Removes and returns the live activation of this number, if there is one. The others keep their order, and `begun` doesn't
    /// change. The cost is that of a search, and of moving the live ones begun before or those begun later, whichever are fewer.
    pub fn end(&mut self, act: ActId) -> Option<Activation>
        ensures ended { result ≡ activation_of act self.old.live }
        ensures others { self.new ≡ record self.old { live = without act self.old.live } }
    {
        match place_of(self.live.as_slice(), act) {
            Some(i) => Some(self.live.remove(i)),
            None => None,
        }
    }

    /// Removes and returns the live activation of this number if it is this worker's own. The others keep their order, and
    /// `begun` doesn't change.
    ///
    /// Fails with `Stale` if no live activation has the number, and else with `NotYours` if it is another worker's; the ledger is
    /// then as it was. The cost is that of [`end`](Ledger::end).
    #[inline(always)]
    pub fn end_own(&mut self, worker: u32, act: ActId) -> Result<Activation, EndFault>
        ensures told { result ≡ own_of worker (activation_of act self.old.live) }
        ensures ended { OnOk result (self.new ≡ record self.old { live = without act self.old.live }) }
        ensures kept { OnErr result (self.new ≡ self.old) }
    {
        match place_of(self.live.as_slice(), act) {
            None => Err(EndFault::Stale),
            Some(i) => {
                if self.live.as_slice()[i].worker != worker {
                    return Err(EndFault::NotYours);
                }
                Ok(self.live.remove(i))
            }
        }
    }

    /// The live activations, in the order of their starts; so their numbers ascend, and each is below the [`next`](Ledger::next).
    pub fn live(&self) -> &[Activation]
        ensures value { result.now ≡ self.now.live }
        ensures numbered { AreNumbered self.now.live (self.now.first + self.now.begun) }
        ensures within { length self.now.live ≤ self.now.room }
    {
        self.live.as_slice()
    }

    /// The number of the next activation: how many were begun, those before the ledger was made included.
    pub fn next(&self) -> u64
        ensures value { result ≡ self.now.first + self.now.begun }
    {
        self.first + u64::from(self.begun)
    }

    /// How many activations were begun since the ledger was made.
    pub fn begun(&self) -> u32
        ensures { result ≡ self.now.begun }
    {
        self.begun
    }
}
