//! The settling of a desk by its own passes.

ghost use Rattle.std.specs.Prelude.{◌≡◌, ◌≤◌, length, vec_len, vec_capacity, IfSome, IfNone};
ghost use Rattle.path_workers.specs.Later.{IsLater};
ghost use Rattle.path_workers.specs.Settled.{receipts_of, IsSettled};
ghost use Rattle.path_workers.specs.Faults.{IsFault, FewReceipts};

use crate::closed_pass::ClosedPass;
use crate::desk_name::DeskName;
use crate::own_lines::OwnLines;
use crate::pass::Pass;
use crate::settle::{SettleFault, check};
use crate::shared::SharedSystem;
use crate::steps::Steps;
use std::alloc::{Allocator, Global};
use std::sync::ledger::Ledger;

/// The passes without their desk, in their order, and the sum of their own lines.
fn close_all<L: Ledger, A: Allocator + Copy>(
    passes: Vec<Pass<L, A>, A>,
    mut closed_passes: Vec<ClosedPass<A>, A>,
) -> (Vec<ClosedPass<A>, A>, OwnLines<L>)
    requires { (vec_len closed_passes ≡ 0) × (vec_len passes ≤ vec_capacity closed_passes) }
    ensures items { result.0.items ≡ passes.items }
    ensures len { vec_len result.0 ≡ vec_len passes }
    ensures own_lines { result.1 ≡ receipts_of passes.items }
{
    let mut all = OwnLines::none();
    for pass in passes {
        let (closed_pass, own_lines) = pass.into_closed();
        all = all.merge(own_lines);
        closed_passes.push_reserved(closed_pass);
    }
    (closed_passes, all)
}

/// A desk that was closed: its system, the receipts of its passes, and why they don't settle it, if they don't.
#[derive(Drop)]
pub struct Closed<S: Steps, A: Allocator + Copy = Global> {
    /// The system, as the last step left it.
    pub system: S,
    /// The receipts, those of each pass in its place.
    pub closed_passes: Vec<ClosedPass<A>, A>,
    /// The first reason why the desk isn't settled by the receipts.
    pub fault: Option<SettleFault>,
}

/// Closes a desk with passes that were made at it. It is settled if and only if each line since it was opened is one receipt of these
/// passes, and no receipt is left over. There are never more receipts than lines since then. Allocates nothing: the closed passes go into
/// the vector `closed_passes`, which must be empty and have the capacity.
pub fn settle_own<L: DeskName, S: Steps, A: Allocator + Copy>(
    shared: SharedSystem<L, S>,
    before: u64,
    mut passes: Vec<Pass<L, A>, A>,
    closed_passes: Vec<ClosedPass<A>, A>,
) -> Closed<S, A>
    requires before { before ≡ length L.opened.journal }
    requires places { (vec_len closed_passes ≡ 0) × (vec_len passes ≤ vec_capacity closed_passes) }
    ensures closed_passes { (result.closed_passes.items ≡ passes.items) × (vec_len result.closed_passes ≡ vec_len passes) }
    ensures system { IsLater L.opened (S.account result.system) }
    ensures settled { IfNone result.fault (IsSettled before (S.account result.system).journal passes.items) }
    ensures fault { IfSome result.fault (λ e. IsFault before (S.account result.system).journal passes.items e) }
    ensures few { IfSome result.fault (λ e. FewReceipts e) }
{
    let verdict = check(shared.journal(), before, passes.as_mut_slice());
    let (closed_passes, own_lines) = close_all(passes, closed_passes);
    let system = shared.close_with(own_lines);
    match verdict {
        Ok(()) => Closed {
            system,
            closed_passes,
            fault: None,
        },
        Err(fault) => Closed {
            system,
            closed_passes,
            fault: Some(fault),
        },
    }
}
