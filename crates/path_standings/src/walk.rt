//! A walk over a tree: how many of its executions are underway, and whether bounds are kept.

ghost use Rattle.std.specs.Prelude.{◌≡◌, ◌==◌, ◌+◌, ◌*◌, ◌^◌, ◌<◌, ◌≤◌, if◌then◌else◌, length, All, slice_index};
ghost use Rattle.path_model.specs.Trees.{shape};
ghost use Rattle.path_model.specs.Machine.{semicolons};
ghost use Rattle.path_decl.specs.Lawful.{names_count};
ghost use Rattle.path_state.specs.Pasts.{underway};
ghost use Rattle.path_standings.specs.Told.{progress_of};
ghost use Rattle.path_standings.specs.Numbers.{bounds_fit};
ghost use Rattle.path_standings.specs.Misfits.{AreFew};

use path_model::{Expr, OpId};
use std::alloc::Allocator;

/// What a walk over a tree finds.
#[derive(Clone, Copy)]
pub struct Walked {
    /// How many executions are underway.
    pub underway: u64,
    /// The place of the first `;` behind the tree.
    pub place: usize,
    /// Whether no braces have more executions underway than their bound.
    pub fits: bool,
}

/// How often an operation is in progress.
fn count_of(in_progress: &[u64], op: OpId) -> u64
    ensures { result ≡ slice_index in_progress.now op.0 }
{
    match in_progress.get(op.0 as usize) {
        Some(count) => *count,
        None => 0,
    }
}

/// All executions within braces count as one.
fn as_one(underway: u64) -> u64
    ensures { result ≡ (if underway == 0 then 0 else 1) }
{
    if underway == 0 { 0 } else { 1 }
}

/// Walks over a tree whose first `;` has this place in its path. The cost is one look at each part.
pub fn walk<A: Allocator + Copy>(
    tree: &Expr<A>,
    place: usize,
    in_progress: &[u64],
    row: &[u64],
) -> Walked
    requires within { place + semicolons (shape tree.now) ≤ length row.now }
    requires names { names_count (shape tree.now) ≤ 64 }
    requires counts { All (λ n. n < 2 ^ 32) in_progress.now }
    requires few { AreFew row.now }
    ensures underway { result.underway ≡ underway (shape tree.now) place (progress_of in_progress.now) row.now }
    ensures place { result.place ≡ place + semicolons (shape tree.now) }
    ensures fits { result.fits ≡ bounds_fit (shape tree.now) place (progress_of in_progress.now) row.now }
    ensures small { result.underway + 2 ^ 48 ≤ names_count (shape tree.now) * 2 ^ 49 }
{
    match tree {
        Expr::Op(op) => Walked {
            underway: count_of(in_progress, *op),
            place,
            fits: true,
        },
        Expr::Seq(left, right) => {
            let first = walk(left, place, in_progress, row);
            let second = walk(right, first.place + 1, in_progress, row);
            Walked {
                underway: first.underway + row[first.place] + second.underway,
                place: second.place,
                fits: first.fits && second.fits,
            }
        }
        Expr::Alt(left, right) => {
            let first = walk(left, place, in_progress, row);
            let second = walk(right, first.place, in_progress, row);
            Walked {
                underway: first.underway + second.underway,
                place: second.place,
                fits: first.fits && second.fits,
            }
        }
        Expr::Burst(inner) => {
            let within = walk(inner, place, in_progress, row);
            Walked {
                underway: as_one(within.underway),
                place: within.place,
                fits: within.fits,
            }
        }
        Expr::Counted(inner, most) => {
            let within = walk(inner, place, in_progress, row);
            Walked {
                underway: as_one(within.underway),
                place: within.place,
                fits: within.fits && within.underway <= u64::from(*most),
            }
        }
    }
}
