//! A gate whose paths stand so.

ghost use Rattle.std.specs.Prelude.{◌≡◌, ◌<◌, ◌≤◌, List, length, All, IfOk, IfErr, slice_index};
ghost use Rattle.path_model.specs.declared.ids.OpId.{OpId};
ghost use Rattle.path_model.specs.declared.history.Event.{Event};
ghost use Rattle.path_model.specs.Trees.{Names};
ghost use Rattle.path_model.specs.Legal.{NoneOf};
ghost use Rattle.path_model.specs.Declarations as declarations;
ghost use Rattle.path_gate.specs.Standings.{IsAt};
ghost use Rattle.path_standings.specs.Told.{rows_of, AllLead};
ghost use Rattle.path_standings.specs.Misfits.{PathsCanStand, TellsMisfit};

use crate::misfit::{StandFault, first_misfit};
use crate::values::write_paths;
use path_decl::Decl;
use path_gate::{Gate, compile};
use path_model::OutOfMemory;
use std::alloc::Allocator;

/// The same values in a list of their own. Fails only if allocation fails.
fn copied<A: Allocator + Copy>(alloc: A, values: &[u64]) -> Result<Vec<u64, A>, OutOfMemory>
    ensures { IfOk result (λ copy. copy.items ≡ values.now) }
{
    let mut copy = Vec::new(alloc);
    copy.extend_from_slice(values)?;
    Ok(copy)
}

/// A gate whose paths stand so: this many executions of each operation are in progress, 0 of those that no path names, and so many stand
/// behind each `;`, a row for each path, as [`stands`](crate::stands) gives them. So many starts count as admitted, and no operation is in
/// progress more often.
///
/// Each path is looked at alone: it is tested whether it can stand so, and not whether there is one history that led all there. Fails with
/// the first path that can't, or if allocation fails. The cost is that of compiling, and a few walks over the trees, of which each is
/// compared with those before it.
pub fn gate_at<A: Allocator + Copy>(
    alloc: A,
    decl: &Decl<A>,
    in_progress: &[u64],
    rows: &[Vec<u64, A>],
    admitted: u32,
) -> Result<Gate<A>, StandFault>
    requires operations { length in_progress.now ≡ length decl.now.declaration.operations }
    requires idle { (a : OpId) → NoneOf (λ s. Names s a) (declarations.paths_of decl.now.declaration)
        → slice_index in_progress.now a.0 ≡ 0 }
    requires few { All (λ n. n ≤ admitted) in_progress.now }
    requires rows { length rows.now ≡ length decl.now.declaration.paths }
    ensures paths { IfOk result (λ gate. gate.paths ≡ declarations.paths_of decl.now.declaration) }
    ensures admitted { IfOk result (λ gate. gate.admitted ≡ admitted) }
    ensures at { IfOk result (λ gate. (h : List Event)
        → AllLead decl.now.declaration in_progress.now (rows_of rows.now) h → IsAt gate h) }
    ensures can { IfOk result (λ _. PathsCanStand decl.now.declaration in_progress.now (rows_of rows.now)) }
    ensures misfit { IfErr result (TellsMisfit decl.now.declaration in_progress.now (rows_of rows.now)) }
{
    if let Some((path, misfit)) = first_misfit(decl, in_progress, rows) {
        return Err(StandFault::Misfits(path, misfit));
    }
    let mut gate = compile(alloc, decl)?;
    let mut semaphores = copied(alloc, gate.semaphores())?;
    let mut counters = copied(alloc, gate.counters())?;
    write_paths(
        alloc,
        decl,
        in_progress,
        rows,
        &mut semaphores,
        &mut counters,
    )?;
    gate.restore(&semaphores, &counters, in_progress, admitted);
    Ok(gate)
}
