//! Whether a receipt is a copy of a line.

ghost use Rattle.std.specs.Prelude.{◌≡◌, ℕ, if◌then◌else◌, min};
ghost use Rattle.std.specs.List.{count_by};
ghost use Rattle.path_workers.specs.Inner.Holdings.{Rise};
ghost use Rattle.path_workers.specs.Settled.{same_verb, same_attempt, same_reply, is_copy};

use crate::answer::Receipt;
use path_model::{Attempt, Line, Reply, Verb};

fn is_same_verb(a: Verb, b: Verb) -> bool
    ensures { result ≡ same_verb a b }
{
    match (a, b) {
        (Verb::Put(x), Verb::Put(y)) => x == y,
        (Verb::Take, Verb::Take) => true,
        (Verb::Look, Verb::Look) => true,
        (Verb::Add(x), Verb::Add(y)) => x == y,
        _ => false,
    }
}

fn is_same_attempt(a: Attempt, b: Attempt) -> bool
    ensures { result ≡ same_attempt a b }
{
    match (a, b) {
        (Attempt::Start(m), Attempt::Start(n)) => m.0 == n.0,
        (Attempt::Apply(m, v), Attempt::Apply(n, w)) => m.0 == n.0 && is_same_verb(v, w),
        (Attempt::Finish(m), Attempt::Finish(n)) => m.0 == n.0,
        _ => false,
    }
}

fn is_same_reply(a: Reply, b: Reply) -> bool
    ensures { result ≡ same_reply a b }
{
    match (a, b) {
        (Reply::Started(m), Reply::Started(n)) => m.0 == n.0,
        (Reply::Blocked(m), Reply::Blocked(n)) => m.0 == n.0,
        (Reply::UnknownOperation, Reply::UnknownOperation) => true,
        (Reply::Used(x), Reply::Used(y)) => x == y,
        (Reply::NotOffered, Reply::NotOffered) => true,
        (Reply::Empty, Reply::Empty) => true,
        (Reply::Full, Reply::Full) => true,
        (Reply::Overflow, Reply::Overflow) => true,
        (Reply::DeviceFailed, Reply::DeviceFailed) => true,
        (Reply::Finished, Reply::Finished) => true,
        (Reply::Stale, Reply::Stale) => true,
        (Reply::NotYours, Reply::NotYours) => true,
        (Reply::NoRoom, Reply::NoRoom) => true,
        _ => false,
    }
}

/// Whether the receipt has this place, and the line's attempt and reply.
pub fn is_copy_of(place: u64, line: &Line, receipt: &Receipt) -> bool
    ensures { result ≡ is_copy place line.now receipt.now }
{
    receipt.place == place
        && is_same_attempt(line.attempt, receipt.attempt)
        && is_same_reply(line.reply, receipt.reply)
}

fn copy_at(place: u64, line: &Line, receipt: &Receipt) -> u64
    ensures { result ≡ (if is_copy place line.now receipt.now then 1 else 0) }
{
    u64::from(is_copy_of(place, line, receipt))
}

/// The number of receipts that are copies of the line, counted up to 2.
pub fn copies_among(place: u64, line: &Line, receipts: &[Receipt]) -> u64
    ensures { result ≡ min 2 (count_by (λ r. is_copy place line.now r) receipts.now) }
{
    let mut found = 0;
    for receipt in receipts {
        found = 2.min(found + copy_at(place, line, receipt));
    }
    found
}

/// The same for receipts whose places rise, by binary search.
pub fn copies_found(place: u64, line: &Line, receipts: &[Receipt]) -> u64
    requires { (end : ℕ) × Rise 0 receipts.now end }
    ensures { result ≡ min 2 (count_by (λ r. is_copy place line.now r) receipts.now) }
{
    match receipts.binary_search_by_key(&place, |receipt| receipt.place) {
        Ok(found) => copy_at(place, line, &receipts[found]),
        Err(_) => 0,
    }
}
