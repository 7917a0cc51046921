//! Whether a journal is honest, in one segment or in several.

ghost use Rattle.std.specs.Prelude.{◌≡◌, ◌↔◌, ℕ, IfOk, IfErr, OnOk, map};
ghost use Rattle.path_model.specs.Honest.{IsHonest};
ghost use Rattle.path_audit.specs.declared.journals.Verdict.TheVariants as verdicts;
ghost use Rattle.path_audit.specs.Verdicts.{IsAuditable, IsAuditFault, IsFirstWrong};
ghost use Rattle.path_audit.specs.Judged.{IsSegmentsVerdict};

use crate::auditor::{AuditFault, Auditor, JudgeFault};
use path_decl::Decl;
use path_model::Line;
use std::alloc::Allocator;

/// The verdict of an audit.
#[derive(Clone, Copy, Debug, PartialEq, Eq)]
pub enum Verdict {
    /// Each reply was owed by the lines before it, and none is `NoRoom`.
    Sound,
    /// This line, counted from 0, is the first with which the journal isn't honest.
    WrongLine(u32),
}

/// The verdict of an audit of segments.
#[derive(Clone, Copy, Debug, PartialEq, Eq)]
pub enum SegmentsVerdict {
    /// Each reply was owed by the lines of all segments before it and by those before it in its own, and none is `NoRoom`.
    Sound,
    /// This line of this segment, both counted from 0, is the first with which the segments aren't honest.
    WrongLine { segment: usize, line: u32 },
}

/// Whether these lines are an honest journal of a system with this room, 1 to [`MOST_LINES`](path_model::MOST_LINES), whose resources
/// opened with these contents, a list for each. `Sound` if and only if each reply was owed by the lines before it and none is `NoRoom`;
/// `WrongLine(n)` if and only if line n, counted from 0, is the first with which they aren't honest. `DeviceFailed` is right in a line
/// wherever the device's law would have served, and then nothing was served.
///
/// Fails with `BadRoom` if the room is outside that range, else with `WrongCount` if there isn't one opening for each resource, else
/// with `BadOpening(r)` if r is the first resource whose opening doesn't fit its law: one number for a cell or a tally, at most as many
/// as its capacity for a queue. Else fails only if allocation fails.
///
/// Asks no system and no device. Reads the lines once, and each costs what it cost the system: a look at the paths of its operation
/// for a start or a finish, and a look-up by number for a use.
pub fn audit<A: Allocator + Copy>(
    alloc: A,
    decl: &Decl<A>,
    room: u32,
    openings: &[Vec<u64, A>],
    lines: &[Line],
) -> Result<Verdict, AuditFault>
    ensures sound { IfOk result (λ verdict. (verdict ≡ verdicts.Sound)
        ↔ IsHonest decl.now.declaration room (map (λ opening. opening.items) openings.now) lines.now) }
    ensures wrong { IfOk result (λ verdict. (n : ℕ) → (verdict ≡ verdicts.WrongLine n)
        ↔ IsFirstWrong decl.now.declaration room (map (λ opening. opening.items) openings.now) lines.now n) }
    ensures auditable { OnOk result (IsAuditable decl.now.declaration room (map (λ opening. opening.items) openings.now)) }
    ensures fault { IfErr result (IsAuditFault decl.now.declaration room (map (λ opening. opening.items) openings.now)) }
{
    let auditor = Auditor::open(alloc, decl, room, openings)?;
    match auditor.judge(decl, lines) {
        Ok(_auditor) => Ok(Verdict::Sound),
        Err(JudgeFault::WrongLine(line)) => Ok(Verdict::WrongLine(line)),
        Err(JudgeFault::OutOfMemory) => Err(AuditFault::OutOfMemory),
    }
}

/// Whether these are the segments of an honest journal, in order: the lists that the rotations of one system gave away, and its last.
/// `Sound` if each reply was owed by all lines before it, in whatever segment, and none is `NoRoom`; else the first wrong line. The room
/// is that of each segment: its own lines take it, and what is live. A journal of one segment is what [`audit`] judges.
///
/// Fails as [`audit`] does. Reads the lines once, at the same cost.
pub fn audit_segments<A: Allocator + Copy>(
    alloc: A,
    decl: &Decl<A>,
    room: u32,
    openings: &[Vec<u64, A>],
    segments: &[Vec<Line, A>],
) -> Result<SegmentsVerdict, AuditFault>
    ensures verdict { IfOk result (IsSegmentsVerdict decl.now.declaration room (map (λ opening. opening.items) openings.now)
        (map (λ lines. lines.items) segments.now)) }
    ensures auditable { OnOk result (IsAuditable decl.now.declaration room (map (λ opening. opening.items) openings.now)) }
    ensures fault { IfErr result (IsAuditFault decl.now.declaration room (map (λ opening. opening.items) openings.now)) }
{
    let mut auditor = Auditor::open(alloc, decl, room, openings)?;
    for (segment, lines) in segments.iter().enumerate() {
        match auditor.judge(decl, lines) {
            Ok(next) => auditor = next,
            Err(JudgeFault::WrongLine(line)) => {
                return Ok(SegmentsVerdict::WrongLine { segment, line });
            }
            Err(JudgeFault::OutOfMemory) => return Err(AuditFault::OutOfMemory),
        }
    }
    Ok(SegmentsVerdict::Sound)
}
