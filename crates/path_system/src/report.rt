//! What a system can do next.

ghost use Rattle.std.specs.Prelude.{◌≡◌, ◌↔◌, [], IfOk, IsTrue, length};
ghost use Rattle.path_system.specs.Reports.{IsReportAt, IsSorting, MeetsAt};

use crate::parts::Parts;
use path_decl::counts;
use path_gate::Gate;
use path_model::{Activation, OpId, OutOfMemory, PathId};
use path_shelf::Device;
use std::alloc::{Allocator, Global};

/// What a system can do now, apart from room: which operations can be started, and which activations are live.
#[derive(Drop)]
pub struct Report<A: Allocator + Copy = Global> {
    /// The declared operations whose start would be admitted, in the order of the file.
    pub startable: Vec<OpId, A>,
    /// The other declared operations, in the order of the file, each with the first path that forbids its start.
    pub blocked: Vec<(OpId, PathId), A>,
    /// The live activations, in the order of their starts.
    pub live: Vec<Activation, A>,
    /// Whether nothing can be started and nothing is live. If so, nothing will ever be admitted again.
    pub frozen: bool,
}

/// Sorts operations 0 to `operations - 1` by whether the gate would admit them. Fails only if allocation fails.
fn sorted<A: Allocator + Copy>(
    alloc: A,
    operations: u32,
    gate: &Gate<A>,
) -> Result<(Vec<OpId, A>, Vec<(OpId, PathId), A>), OutOfMemory>
    ensures { IfOk result (λ lists. IsSorting (MeetsAt gate.now) operations lists.0.items lists.1.items) }
{
    let mut startable = Vec::new(alloc);
    let mut blocked = Vec::new(alloc);
    for number in 0..operations {
        let op = OpId(number);
        match gate.would_admit(op) {
            Ok(()) => startable.push(op)?,
            Err(path) => blocked.push((op, path))?,
        }
    }
    Ok((startable, blocked))
}

/// Whether nothing can be started and nothing is live.
fn is_idle(startable: &[OpId], live: &[Activation]) -> bool
    ensures { IsTrue result ↔ ((startable.now ≡ []) × (live.now ≡ [])) }
{
    startable.is_empty() && live.is_empty()
}

impl<D: Device, A: Allocator + Copy> Parts<D, A> {
    /// The report of these parts. Fails only if allocation fails. The cost is one look at a prologue for each operation and each
    /// path that names it.
    pub fn report(&self, alloc: A) -> Result<Report<A>, OutOfMemory>
        ensures { IfOk result (λ report. IsReportAt self.now.present.standing (length self.now.declaration.operations)
            self.now.present.register.live report.startable.items report.blocked.items report.live.items report.frozen) }
    {
        let operations = counts(&self.decl).operations;
        let (startable, blocked) = sorted(alloc, operations, &self.gate)?;
        let mut live = Vec::new(alloc);
        live.extend_from_slice(self.ledger.live())?;
        let frozen = is_idle(&startable, &live);
        Ok(Report {
            startable,
            blocked,
            live,
            frozen,
        })
    }
}
