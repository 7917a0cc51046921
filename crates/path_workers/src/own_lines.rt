//! How many lines of its desk belong to a pass, so that no other pass can claim them.

ghost use Rattle.std.specs.Prelude.{◌≡◌, ◌+◌, ◌<◌, ◌≤◌};

use std::marker::Model;
use std::sync::ledger::{Book, Ledger, Share};

/// How many lines of its desk belong to a pass: none, or a share of the desk's count with a part for each. Contracts see the number.
///
/// A share takes no bytes at run time. It rises only together with the count under the lock.
#[derive(Drop)]
pub struct OwnLines<L: Ledger> {
    share: Option<Share<L>>,
}

impl<L: Ledger> Model for OwnLines<L> {
    ghost use Rattle.std.specs.Prelude.{◌≡◌, ℕ};
    ghost use Rattle.path_workers.specs.Inner.Holdings.{amount_or_none};

    ghost Value = { ℕ };

    ghost view = { λ s. amount_or_none (λ t. t.amount) s.share };

    ghost invariant = { λ s. amount_or_none (λ t. t.parts) s.share ≡ amount_or_none (λ t. t.amount) s.share };
}

impl<L: Ledger> OwnLines<L> {
    pub fn none() -> OwnLines<L>
        ensures { result ≡ 0 }
    {
        OwnLines { share: None }
    }

    /// Adds one line, to the book and to these.
    pub fn gain(&mut self, book: &mut Book<L>, rest: &mut Share<L>)
        requires { (1 < rest.old.parts) × (rest.old.amount ≡ 0) }
        ensures own_lines { self.new ≡ self.old + 1 }
        ensures total { book.new.total ≡ book.old.total + 1 }
        ensures parts { rest.new.parts + 1 ≡ rest.old.parts }
        ensures rest { rest.new.amount ≡ 0 }
    {
        let mut part = rest.split_off(1, 0);
        book.add(&mut part, 1);
        match self.share.take() {
            Some(mut share) => {
                share.merge(part);
                self.share = Some(share);
            }
            None => self.share = Some(part),
        }
    }

    /// The sum of both.
    pub fn merge(self, other: OwnLines<L>) -> OwnLines<L>
        ensures { result ≡ self + other }
    {
        let OwnLines { share: mine } = self;
        let OwnLines { share: theirs } = other;
        match (mine, theirs) {
            (Some(mut share), Some(part)) => {
                share.merge(part);
                OwnLines { share: Some(share) }
            }
            (None, theirs) => OwnLines { share: theirs },
            (mine, None) => OwnLines { share: mine },
        }
    }

    /// Shows that these are at most the book's total. Nothing changes.
    pub fn audit(self, book: &mut Book<L>)
        ensures bound { self ≤ book.old.total }
        ensures total { book.new.total ≡ book.old.total }
    {
        let OwnLines { share } = self;
        if let Some(mut share) = share {
            book.audit(&mut share);
        }
    }
}
