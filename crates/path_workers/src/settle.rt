//! The settling of a desk: each line against the receipts.

ghost use Rattle.std.specs.Prelude.{◌≡◌, length, min, IfOk, IfErr, OnOk, IfNone, IfSome, MatchResult};
ghost use Rattle.path_workers.specs.Settled.{copies, receipts_of, AllCopied, IsSettled, IsFirstMismatch};
ghost use Rattle.path_workers.specs.Faults.{IsFault};

use crate::merge::finds_each;
use crate::pass::Pass;
use crate::steps::Steps;
use path_model::Line;
use std::alloc::{Allocator, Global};
use std::sync::ledger::Ledger;
use thiserror::Error;

/// Why a desk isn't settled.
#[derive(Clone, Copy, Debug, PartialEq, Eq, Error)]
pub enum SettleFault {
    /// The number of lines since the desk was opened isn't the number of receipts.
    #[error("{lines} lines and {receipts} receipts")]
    MissingPass {
        /// How many lines there are.
        lines: u64,
        /// How many receipts all passes have; `u64::MAX` if there are more.
        receipts: u64,
    },
    /// There are as many lines as receipts, but the line at this place is the first that isn't equal to exactly one receipt.
    #[error("line {place} is not one receipt")]
    Mismatch {
        /// The place in the journal, counted from 0.
        place: u64,
    },
}

/// A settled desk: each line since it was opened is one receipt of these passes, and no receipt is left over.
#[derive(Drop)]
pub struct Settled<M: Ledger, S: Steps, A: Allocator + Copy = Global> {
    /// The system, as the last step left it.
    pub system: S,
    /// The passes, as they were handed in.
    pub passes: Vec<Pass<M, A>, A>,
}

/// The number of receipts of all passes that are equal to the line, counted up to 2.
fn copies_in_all<M: Ledger, A: Allocator + Copy>(
    passes: &[Pass<M, A>],
    place: u64,
    line: &Line,
) -> u64
    ensures { result ≡ min 2 (copies place line.now passes.now) }
{
    let mut found = 0;
    for pass in passes {
        found = 2.min(found + pass.copies(place, line));
    }
    found
}

/// The number of all receipts; `u64::MAX` if there are more.
fn receipt_count<M: Ledger, A: Allocator + Copy>(passes: &[Pass<M, A>]) -> u64
    ensures { result ≡ min 18446744073709551615 (receipts_of passes.now) }
{
    let mut count: u64 = 0;
    for pass in passes {
        count = count.saturating_add(pass.receipts().len() as u64);
    }
    count
}

fn first_mismatch<M: Ledger, A: Allocator + Copy>(
    journal: &[Line],
    before: u64,
    passes: &[Pass<M, A>],
) -> Option<u64>
    ensures none { IfNone result (AllCopied before journal.now passes.now) }
    ensures some { IfSome result (λ p. IsFirstMismatch before journal.now passes.now p) }
{
    for place in before..journal.len() as u64 {
        if copies_in_all(passes, place, &journal[place as usize]) != 1 {
            return Some(place);
        }
    }
    None
}

/// Compares the lines from number `before` on with the receipts. Fails with the first reason why they aren't settled.
pub fn check<M: Ledger, A: Allocator + Copy>(
    journal: &[Line],
    before: u64,
    passes: &mut [Pass<M, A>],
) -> Result<(), SettleFault>
    ensures same { passes.new ≡ passes.old }
    ensures ok { OnOk result (IsSettled before journal.now passes.old) }
    ensures err { IfErr result (λ e. IsFault before journal.now passes.old e) }
{
    let lines = (journal.len() as u64).saturating_sub(before);
    let receipts = receipt_count(passes);
    if lines != receipts {
        return Err(SettleFault::MissingPass { lines, receipts });
    }
    if finds_each(journal, before, passes) {
        return Ok(());
    }
    match first_mismatch(journal, before, passes) {
        Some(place) => Err(SettleFault::Mismatch { place }),
        None => Ok(()),
    }
}

/// The system and the passes if the lines from number `before` on are settled by the receipts; else the system, and why not.
pub fn compared<S: Steps, M: Ledger, A: Allocator + Copy>(
    system: S,
    before: u64,
    mut passes: Vec<Pass<M, A>, A>,
) -> Result<Settled<M, S, A>, (SettleFault, S)>
    ensures passes { IfOk result (λ s. s.passes.items ≡ passes.items) }
    ensures system { MatchResult result (λ s. s.system ≡ system) (λ e. e.1 ≡ system) }
    ensures settled { IfOk result (λ s. IsSettled before (S.account s.system).journal passes.items) }
    ensures fault { IfErr result (λ e. IsFault before (S.account e.1).journal passes.items e.0) }
{
    match check(system.journal(), before, passes.as_mut_slice()) {
        Ok(()) => Ok(Settled { system, passes }),
        Err(fault) => Err((fault, system)),
    }
}
