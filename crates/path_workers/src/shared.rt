//! What is under the lock of a desk.

ghost use Rattle.std.specs.Prelude.{◌≡◌, ◌+◌, ◌<◌, ◌≤◌, ◌^◌, length, vec_len, vec_capacity, IfSome};
ghost use Rattle.path_model.specs.Journals.{with_line};
ghost use Rattle.path_model.specs.Segments.{OwedBehind, joined};
ghost use Rattle.path_workers.specs.Attempts.{lines_of, place_of, receipts_then};
ghost use Rattle.path_workers.specs.Later.{IsLater};

use crate::answer::{Answer, Receipt};
use crate::desk_name::DeskName;
use crate::own_lines::OwnLines;
use crate::steps::Steps;
use path_model::{Attempt, Line, Reply};
use std::alloc::Allocator;
use std::marker::Model;
use std::sync::ledger::{Blank, Book, Share};

/// What is under the lock: the system, and the count of its lines since the desk was opened. Contracts see the system's account.
#[derive(Drop)]
pub struct SharedSystem<L: DeskName, S: Steps> {
    system: S,
    count: u64,
    book: Book<L>,
    rest: Share<L>,
}

impl<L: DeskName, S: Steps> Model for SharedSystem<L, S> {
    ghost use Rattle.std.specs.Coded.{codes};
    ghost use Rattle.path_decl.specs.Stored.{declaration_code};
    ghost use Rattle.path_system.specs.Accounts.{Account};
    ghost use Rattle.path_workers.specs.Inner.Holdings.{IsSharedBy};

    ghost Value = { Account };

    ghost coded = { Prim.hlevel (codes, declaration_code) };

    ghost view = { λ h. S.account h.system };

    ghost invariant = { λ h. IsSharedBy L.opened (S.account h.system) h.count h.book.total h.rest.parts h.rest.amount };
}

impl<L: DeskName, S: Steps> SharedSystem<L, S> {
    /// What is shared, over the system as it is now.
    pub fn open(system: S, blank: Blank) -> SharedSystem<L, S>
        requires name { blank.name ≡ L.name }
        requires parts { (blank.parts ≡ L.parts) × (blank.parts ≡ 18446744073709551615) }
        requires opened { S.account system ≡ L.opened }
        ensures { result ≡ S.account system }
    {
        let (book, rest) = blank.open::<L>();
        SharedSystem {
            system,
            count: 0,
            book,
            rest,
        }
    }

    /// The system.
    pub fn close(self) -> S
        ensures system { S.account result ≡ self }
        ensures later { IsLater L.opened self }
    {
        let SharedSystem {
            system,
            count: _,
            book: _,
            rest: _,
        } = self;
        system
    }

    /// All lines since the last rotation, in the order of the steps.
    pub(crate) fn journal(&self) -> &[Line]
        ensures { result.now ≡ self.now.journal }
    {
        self.system.journal()
    }

    /// Returns the system. The own lines of a pass of this desk are at most as many as the lines since the desk was opened.
    pub(crate) fn close_with(self, own_lines: OwnLines<L>) -> S
        ensures system { S.account result ≡ self }
        ensures later { IsLater L.opened self }
        ensures few { own_lines + length L.opened.journal ≤ length self.journal }
    {
        let SharedSystem {
            system,
            count: _,
            mut book,
            rest: _,
        } = self;
        own_lines.audit(&mut book);
        system
    }

    /// Makes one step. If the journal gains a line, so do the pass's own lines, and its receipt is appended.
    pub(crate) fn stamp<A: Allocator + Copy>(
        &mut self,
        receipts: &mut Vec<Receipt, A>,
        own_lines: &mut OwnLines<L>,
        worker: u32,
        attempt: Attempt,
    ) -> Answer
        requires { vec_len receipts.old < vec_capacity receipts.old }
        ensures owed { OwedBehind self.old.declaration self.old.room self.old.openings (joined self.old.earlier) self.old.journal
            worker attempt result.reply }
        ensures journal { self.new ≡ record self.old {
          journal = with_line self.old.journal worker attempt result.reply;
          failures = self.new.failures;
        } }
        ensures place { result.place ≡ place_of (length self.old.journal) result.reply }
        ensures receipts { receipts.new.items ≡ receipts_then receipts.old.items attempt result.place result.reply }
        ensures capacity { vec_capacity receipts.new ≡ vec_capacity receipts.old }
        ensures len { vec_len receipts.new ≡ vec_len receipts.old + lines_of result.reply }
        ensures own_lines { own_lines.new ≡ own_lines.old + lines_of result.reply }
        ensures here { IfSome result.place (λ p. (length L.opened.journal ≤ p) × (p < 2 ^ 63)) }
    {
        let place = self.system.journal().len() as u64;
        let reply = self.system.step(worker, attempt);
        if let Reply::NoRoom = reply {
            return Answer { place: None, reply };
        }
        own_lines.gain(&mut self.book, &mut self.rest);
        self.count += 1;
        receipts.push_reserved(Receipt {
            place,
            attempt,
            reply,
        });
        Answer {
            place: Some(place),
            reply,
        }
    }
}
