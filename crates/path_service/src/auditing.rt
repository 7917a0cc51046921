//! Whether the text of a journal is sound under the text of a declaration.

ghost use Rattle.std.specs.Prelude.{◌≡◌, IfOk, IfErr};
ghost use Rattle.path_service.specs.Verdicts.{IsAuditRefusal, IsVerdictOn, refusal_of};

use crate::fault::AuditRefusal;
use cmd_audit::verdict_on;
use path_audit::{AuditFault, Verdict};
use path_read::read;
use std::alloc::Allocator;
use tell_base::Fault;

/// Why a text under a declaration has no verdict, as what an audit was refused for says.
fn refusal(fault: Fault<'_>) -> AuditRefusal
    ensures { result ≡ refusal_of fault.entry }
{
    match fault {
        Fault::Text(fault) => AuditRefusal::Journal(fault),
        Fault::Audit(AuditFault::BadRoom) => AuditRefusal::BadRoom,
        _ => AuditRefusal::OutOfMemory,
    }
}

/// Replays the journal in a text under the declaration in another, over the program's own devices: `Sound`, or `WrongLine(n)` where
/// line n, counted from 0, is the first whose reply wasn't owed by the lines before it or is `NoRoom`. If the text names the journal's
/// room, that counts instead of `room`, which is 1 to [`MOST_LINES`](path_model::MOST_LINES).
///
/// Fails with `Declaration` and the fault of [`read`] if the first text isn't a declaration; else with `Journal` and the fault of
/// [`read_journal`](path_journal::read_journal) if the second isn't a journal; else with `BadRoom` if it names no room and `room` is
/// outside that range. `OutOfMemory` may come at any point, also as that of a text. The cost is that of both texts, and for each line
/// what it cost the system.
pub fn audit_text<A: Allocator + Copy>(
    alloc: A,
    declaration: &[u8],
    room: u32,
    journal: &[u8],
) -> Result<Verdict, AuditRefusal>
    ensures ok { IfOk result (IsVerdictOn declaration.now room journal.now) }
    ensures err { IfErr result (IsAuditRefusal declaration.now room journal.now) }
{
    match read(alloc, declaration) {
        Ok(decl) => match verdict_on(alloc, &decl, room, journal) {
            Ok(verdict) => Ok(verdict),
            Err(fault) => Err(refusal(fault)),
        },
        Err(fault) => Err(AuditRefusal::Declaration(fault)),
    }
}
